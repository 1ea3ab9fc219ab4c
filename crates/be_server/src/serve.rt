//! The command `serve`: the links of a door, each as a session of its own, over one list.

ghost use Rattle.std.specs.Prelude.{◌≡◌, ◌≤◌, ◌<◌, ◌⊎◌, Some, true, length, map, option_map, IfOk, IfErr};
ghost use Rattle.std.specs.Arc.{arc_value};
ghost use Rattle.std.specs.List.{list_all, range_with_len};
ghost use Rattle.std.specs.Option.{is_some};
ghost use Rattle.be_base.specs.Readers.{now_of};
ghost use Rattle.be_base.specs.declared.limits.TheConstants.{LINKS, SEATS};
ghost use Rattle.be_change.specs.Opening.{IsTable, opening_of};
ghost use Rattle.be_change.specs.Sound.{Sound, all_lie};
ghost use Rattle.be_hub.specs.Serving.{LinksAreServed, served_door};
ghost use Rattle.be_io.specs.Outside.{link_state, sink_state};
ghost use Rattle.be_mail.specs.Mailbox.{ForEachState};
ghost use Rattle.be_mail.specs.Passes.{new_passes};
ghost use Rattle.be_model.specs.Lies.{row_lies};
ghost use Rattle.be_server.specs.Outside.{objects, passage};
ghost use Rattle.be_server.specs.Output.{WroteOut};
ghost use Rattle.be_server.specs.Promise.{Promise};
ghost use Rattle.be_server.specs.Serve.{FailsAt, Logs, RunsServe, serve_text};
ghost use Rattle.be_command_line.specs.Words.{serve};

use crate::files::{Loaded, load_files};
use crate::hubs::hub_over_trees;
use crate::output::{text_of_log, write_out};
use crate::status::Status;
use be_base::{NoMemory, SOURCE_BYTES};
use be_door::Door;
use be_hub::{ServeFault, Served};
use be_io::{Gate, Link, Shelf, Sink, SinkFault, Source};
use be_mail::{BoxNames, Mail, MailPasses, Post, make_mail};
use be_model::{Row, Schema};
use be_published::{Naming, Opened};
use itoa::Buffer;
use std::alloc::Global;
use std::marker::Brand;
use std::sync::{Arc, Wait};
use std::thread::Threads;
use std::time::Clock;

/// Serves so many links of a door by so many workers, and writes the list, and how many links there were.
pub fn serve<R, F, S, K, L, D, G>(
    rt: &R,
    alloc: Global,
    schema: &str,
    load: Option<&str>,
    port: u16,
    seats: u32,
    links: u64,
    shelf: &mut F,
    out: &mut K,
    door: &mut D,
    gate: &G,
) -> Status
where
    R: Threads + Wait + Clock + Sync,
    F: Shelf,
    S: Source,
    K: Sink,
    L: Link + Drop + Send,
    D: Door<L> + Sync,
    G: Gate + Sync,
    requires some { 0 < seats }
    requires few { seats ≤ SEATS }
    requires links { links ≤ LINKS }
    ensures { (input : _) → Promise (passage F.Shelf S.Source K.Sink D.state (link_state L.Source L.Sink)
        (objects shelf.old input out.old door.old) (objects shelf.new input out.new door.new))
        (Some (serve schema.now (option_map now_of load.entry) port seats links)) result }
{
    match load_files(alloc, shelf, schema, load) {
        Ok(loaded) => run_serve(rt, alloc, loaded, port, seats, links, out, door, gate),
        Err(status) => status,
    }
}

// Serves the links over the rows that were read, and writes what came of it.
fn run_serve<
    R: Threads + Wait + Clock + Sync,
    K: Sink,
    L: Link + Drop + Send,
    D: Door<L> + Sync,
    G: Gate + Sync,
>(
    rt: &R,
    alloc: Global,
    loaded: Loaded,
    port: u16,
    seats: u32,
    links: u64,
    out: &mut K,
    door: &mut D,
    gate: &G,
) -> Status
    requires table { IsTable loaded.rows.items }
    requires lies { list_all (row_lies loaded.schema) loaded.rows.items ≡ true }
    requires some { 0 < seats }
    requires few { seats ≤ SEATS }
    requires links { links ≤ LINKS }
    ensures { RunsServe (link_state L.Source L.Sink) (out.new ≡ out.old) loaded.schema loaded.rows.items port seats links (D.state door.old) (D.state door.new)
        (sink_state K.Sink out.old) (sink_state K.Sink out.new) result }
{
    let Loaded { schema, rows } = loaded;
    let Ok(schema) = Arc::new(alloc, schema) else {
        return Status::NoMemory;
    };
    match mailed::<Brand, R, L, D, G>(rt, alloc, &schema, rows, port, seats, links, door, gate) {
        Ok(served) => write_served(alloc, &schema, served, out),
        Err(fault) => Status::from(fault),
    }
}

// Makes the mail of the seats, and serves.
fn mailed<
    S: Post + Send + Sync,
    R: Threads + Wait + Clock + Sync,
    L: Link + Drop + Send,
    D: Door<L> + Sync,
    G: Gate + Sync,
>(
    rt: &R,
    alloc: Global,
    schema: &Arc<Schema>,
    rows: Vec<Row>,
    port: u16,
    seats: u32,
    links: u64,
    door: &mut D,
    gate: &G,
) -> Result<Served, ServeFault>
    requires mail { (seats ≡ S.seats) × ForEachState S.found × (S.schema ≡ arc_value schema.now) }
    requires table { IsTable rows.items }
    requires lies { list_all (row_lies (arc_value schema.now)) rows.items ≡ true }
    requires some { 0 < seats }
    requires few { seats ≤ SEATS }
    requires links { links ≤ LINKS }
    ensures served { IfOk result (λ served. LinksAreServed (link_state L.Source L.Sink) (arc_value schema.now) (opening_of rows.items) served.log.list (is_some served.shade)
        seats links served.sums (D.state door.new).keeps (D.state door.new).kept) }
    ensures sound { IfOk result (λ served. Sound (arc_value schema.now) served.log.list) }
    ensures door { IfOk result (λ served. D.state door.new ≡ served_door (D.state door.old) port links seats served.sums (D.state door.new).kept) }
    ensures fault { IfErr result (λ fault. FailsAt (D.state door.old) (D.state door.new) port links seats fault) }
{
    let Ok((mail, passes)) = make_mail::<S>(alloc, seats) else {
        return Err(ServeFault::NoMemory);
    };
    let opened = Opened::new();
    seated::<S, Brand, R, L, D, G>(
        rt, alloc, opened, mail, passes, schema, rows, port, seats, links, door, gate,
    )
}

// Makes the hub over two trees, and serves. Which history and which mailboxes it has is picked where these were made.
fn seated<
    S: Post + Send + Sync,
    J: Naming + BoxNames + Send + Sync,
    R: Threads + Wait + Clock + Sync,
    L: Link + Drop + Send,
    D: Door<L> + Sync,
    G: Gate + Sync,
>(
    rt: &R,
    alloc: Global,
    opened: Opened,
    mail: Mail<S>,
    passes: Vec<MailPasses>,
    schema: &Arc<Schema>,
    rows: Vec<Row>,
    port: u16,
    seats: u32,
    links: u64,
    door: &mut D,
    gate: &G,
) -> Result<Served, ServeFault>
    requires named { (opened.seen.book ≡ J.book) × (mail ≡ J.boxes) × (arc_value schema.now ≡ J.schema) × (S.schema ≡ J.schema) × (J.opening ≡ opening_of rows.items) }
    requires seats { length mail ≡ seats }
    requires passes { passes.items ≡ map (new_passes mail) (range_with_len 0 seats) }
    requires table { IsTable rows.items }
    requires lies { list_all (row_lies J.schema) rows.items ≡ true }
    requires some { 0 < seats }
    requires few { seats ≤ SEATS }
    requires links { links ≤ LINKS }
    ensures served { IfOk result (λ served. LinksAreServed (link_state L.Source L.Sink) J.schema J.opening served.log.list (is_some served.shade)
        seats links served.sums (D.state door.new).keeps (D.state door.new).kept) }
    ensures sound { IfOk result (λ served. Sound J.schema served.log.list) }
    ensures door { IfOk result (λ served. D.state door.new ≡ served_door (D.state door.old) port links seats served.sums (D.state door.new).kept) }
    ensures fault { IfErr result (λ fault. FailsAt (D.state door.old) (D.state door.new) port links seats fault) }
{
    let made = hub_over_trees::<S, J, R>(rt, alloc, opened, schema, seats, rows, mail, passes);
    let Ok((hub, places)) = made else {
        return Err(ServeFault::NoMemory);
    };
    hub.serve(rt, alloc, places, door, port, links, gate)
}

/// Writes the list, and how many links were served.
fn write_served<K: Sink>(alloc: Global, schema: &Schema, served: Served, out: &mut K) -> Status
    requires { Sound schema.now served.log.list }
    ensures { ((out.new ≡ out.old) × (result ≡ Status.NoMemory))
        ⊎ Logs schema.now served.log.list served.sums (is_some served.shade) (sink_state K.Sink out.old) (sink_state K.Sink out.new) result }
{
    let Ok(text) = text_of_served(alloc, schema, &served) else {
        return Status::NoMemory;
    };
    let written = write_out(out, text.as_slice());
    status_served(served, written)
}

// The first that applies of what can be wrong once the links were served.
fn status_served(served: Served, written: Result<(), SinkFault>) -> Status
    ensures { (s : _) (h : _) (before : _) (after : _) → WroteOut before after (serve_text s served.sums.given h) written
        → Logs s h served.sums (is_some served.shade) before after result }
{
    let Served {
        log: _,
        sums,
        shade,
    } = served;
    if written == Err(SinkFault::NoMemory) {
        return Status::NoMemory;
    }
    if sums.read_faults > 0 {
        return Status::ReadFault;
    }
    if sums.write_faults > 0 || written.is_err() {
        return Status::WriteFault;
    }
    if sums.most >= SOURCE_BYTES {
        return Status::Spent;
    }
    match shade {
        Some(shade) => Status::Shut(shade),
        None => Status::Done,
    }
}

// The list, and the line of the links.
fn text_of_served(alloc: Global, schema: &Schema, served: &Served) -> Result<Vec<u8>, NoMemory>
    requires { all_lie schema.now served.now.log.list ≡ true }
    ensures { IfOk result (λ text. text.items ≡ serve_text schema.now served.now.sums.given served.now.log.list) }
{
    let mut text = text_of_log(alloc, schema, &served.log)?;
    text.extend_from_slice(b"SERVED ")?;
    text.extend_from_slice(Buffer::new().format(served.sums.given).as_bytes())?;
    text.extend_from_slice(b" ")?;
    text.extend_from_slice(Buffer::new().format(served.log.len()).as_bytes())?;
    text.extend_from_slice(b"\n")?;
    Ok(text)
}
