//! The command `drill`: a session a file, each on a worker of its own, over one list.

ghost use Rattle.std.specs.Prelude.{◌≡◌, ◌≤◌, ◌<◌, true, Some, length, map, option_map, All, IfOk};
ghost use Rattle.std.specs.Arc.{arc_value};
ghost use Rattle.std.specs.List.{list_all, range_with_len};
ghost use Rattle.std.specs.Option.{is_some};
ghost use Rattle.be_base.specs.Readers.{now_of};
ghost use Rattle.be_base.specs.declared.limits.TheConstants.{FILE_BYTES, ROUNDS, SEATS};
ghost use Rattle.be_change.specs.Opening.{IsTable, opening_of};
ghost use Rattle.be_change.specs.Sound.{Sound};
ghost use Rattle.be_hub.specs.Transcripts.{AreServed};
ghost use Rattle.be_io.specs.Outside.{link_state, sink_state};
ghost use Rattle.be_mail.specs.Mailbox.{ForEachState};
ghost use Rattle.be_mail.specs.Passes.{new_passes};
ghost use Rattle.be_model.specs.Lies.{row_lies};
ghost use Rattle.be_command_line.specs.Words.{drill};
ghost use Rattle.be_server.specs.Drill.{RunsDrill};
ghost use Rattle.be_server.specs.Outside.{objects, passage};
ghost use Rattle.be_server.specs.Promise.{Promise};

use crate::hubs::hub_over_trees;
use crate::output::write_drill;
use crate::scripts::{DrillFiles, load_drill};
use crate::status::Status;
use be_door::Door;
use be_hub::{CloseFault, Drilled};
use be_io::{Gate, Link, Shelf, Sink, Source};
use be_mail::{BoxNames, Mail, MailPasses, Post, make_mail};
use be_model::{Row, Schema};
use be_published::{Naming, Opened};
use std::alloc::Global;
use std::marker::Brand;
use std::sync::{Arc, Wait};
use std::thread::Threads;
use std::time::Clock;

/// Serves each file as a session, and writes what each was answered, and then the list.
pub fn drill<R, F, S, K, L, D, G>(
    rt: &R,
    alloc: Global,
    schema: &str,
    load: Option<&str>,
    rounds: u64,
    files: &[&str],
    shelf: &mut F,
    out: &mut K,
    gate: &G,
) -> Status
where
    R: Threads + Wait + Clock + Sync,
    F: Shelf,
    S: Source,
    K: Sink,
    L: Link,
    D: Door<L>,
    G: Gate + Sync,
    requires some { 0 < length files.now }
    requires few { length files.now ≤ SEATS }
    requires rounds { rounds ≤ ROUNDS }
    ensures { (input : _) (door : _) → Promise (passage F.Shelf S.Source K.Sink D.state (link_state L.Source L.Sink)
        (objects shelf.old input out.old door) (objects shelf.new input out.new door))
        (Some (drill schema.now (option_map now_of load.entry) rounds (map now_of files.now))) result }
{
    match load_drill(alloc, shelf, schema, load, files) {
        Ok(loaded) => run_drill(rt, alloc, loaded, rounds, out, gate),
        Err(status) => status,
    }
}

// Serves the files that were read, and writes what came of it.
fn run_drill<R: Threads + Wait + Clock + Sync, K: Sink, G: Gate + Sync>(
    rt: &R,
    alloc: Global,
    loaded: DrillFiles,
    rounds: u64,
    out: &mut K,
    gate: &G,
) -> Status
    requires table { IsTable loaded.rows.items }
    requires lies { list_all (row_lies loaded.schema) loaded.rows.items ≡ true }
    requires some { 0 < length loaded.scripts.items }
    requires few { length loaded.scripts.items ≤ SEATS }
    requires short { All (λ script. length script.items ≤ FILE_BYTES) loaded.scripts.items }
    requires rounds { rounds ≤ ROUNDS }
    ensures { RunsDrill (out.new ≡ out.old) loaded.schema loaded.rows.items (map (λ script. script.items) loaded.scripts.items) (sink_state K.Sink out.old) (sink_state K.Sink out.new) result }
{
    let DrillFiles {
        schema,
        rows,
        scripts,
    } = loaded;
    let Ok(schema) = Arc::new(alloc, schema) else {
        return Status::NoMemory;
    };
    match mailed::<Brand, R, G>(rt, alloc, &schema, rows, scripts, rounds, gate) {
        Ok(drilled) => write_drill(alloc, &schema, drilled, out),
        Err(fault) => Status::from(fault),
    }
}

/// Makes the mail of the seats, and serves.
pub fn mailed<S: Post + Send + Sync, R: Threads + Wait + Clock + Sync, G: Gate + Sync>(
    rt: &R,
    alloc: Global,
    schema: &Arc<Schema>,
    rows: Vec<Row>,
    scripts: Vec<Vec<u8>>,
    rounds: u64,
    gate: &G,
) -> Result<Drilled, CloseFault>
    requires mail { (length scripts.items ≡ S.seats) × ForEachState S.found × (S.schema ≡ arc_value schema.now) }
    requires table { IsTable rows.items }
    requires lies { list_all (row_lies (arc_value schema.now)) rows.items ≡ true }
    requires some { 0 < length scripts.items }
    requires few { length scripts.items ≤ SEATS }
    requires short { All (λ script. length script.items ≤ FILE_BYTES) scripts.items }
    requires rounds { rounds ≤ ROUNDS }
    ensures served { IfOk result (λ drilled. AreServed (arc_value schema.now) (opening_of rows.items) drilled.log.list (is_some drilled.shade)
        (map (λ script. script.items) scripts.items) (map (λ transcript. transcript.items) drilled.transcripts.items)) }
    ensures sound { IfOk result (λ drilled. Sound (arc_value schema.now) drilled.log.list) }
    ensures rounds { IfOk result (λ drilled. drilled.broom ≡ rounds) }
{
    let Ok((mail, passes)) = make_mail::<S>(alloc, scripts.len() as u32) else {
        return Err(CloseFault::NoMemory);
    };
    let opened = Opened::new();
    seated::<S, Brand, R, G>(
        rt, alloc, opened, mail, passes, schema, rows, scripts, rounds, gate,
    )
}

// Makes the hub over two trees, and serves. Which history and which mailboxes it has is picked where these were made.
fn seated<
    S: Post + Send + Sync,
    J: Naming + BoxNames + Send + Sync,
    R: Threads + Wait + Clock + Sync,
    G: Gate + Sync,
>(
    rt: &R,
    alloc: Global,
    opened: Opened,
    mail: Mail<S>,
    passes: Vec<MailPasses>,
    schema: &Arc<Schema>,
    rows: Vec<Row>,
    scripts: Vec<Vec<u8>>,
    rounds: u64,
    gate: &G,
) -> Result<Drilled, CloseFault>
    requires named { (opened.seen.book ≡ J.book) × (mail ≡ J.boxes) × (arc_value schema.now ≡ J.schema) × (S.schema ≡ J.schema) × (J.opening ≡ opening_of rows.items) }
    requires seats { length mail ≡ length scripts.items }
    requires passes { passes.items ≡ map (new_passes mail) (range_with_len 0 (length scripts.items)) }
    requires table { IsTable rows.items }
    requires lies { list_all (row_lies J.schema) rows.items ≡ true }
    requires some { 0 < length scripts.items }
    requires few { length scripts.items ≤ SEATS }
    requires short { All (λ script. length script.items ≤ FILE_BYTES) scripts.items }
    requires rounds { rounds ≤ ROUNDS }
    ensures served { IfOk result (λ drilled. AreServed J.schema J.opening drilled.log.list (is_some drilled.shade)
        (map (λ script. script.items) scripts.items) (map (λ transcript. transcript.items) drilled.transcripts.items)) }
    ensures sound { IfOk result (λ drilled. Sound J.schema drilled.log.list) }
    ensures rounds { IfOk result (λ drilled. drilled.broom ≡ rounds) }
{
    let seats = scripts.len() as u32;
    let made = hub_over_trees::<S, J, R>(rt, alloc, opened, schema, seats, rows, mail, passes);
    let Ok((hub, places)) = made else {
        return Err(CloseFault::NoMemory);
    };
    hub.drill(rt, alloc, places, scripts, rounds, gate)
}
