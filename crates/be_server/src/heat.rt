//! The command `heat`: what `drill` does, and what the answered events ask for.

ghost use Rattle.std.specs.Prelude.{◌≡◌, ◌<◌, ◌≤◌, ◌++◌, [], true, Some, length, map, All, IfOk, OnOk};
ghost use Rattle.std.specs.List.{list_all};
ghost use Rattle.std.specs.Option.{is_some};
ghost use Rattle.be_base.specs.Readers.{now_of};
ghost use Rattle.be_base.specs.declared.limits.TheConstants.{FILE_BYTES, ROUNDS, SEATS};
ghost use Rattle.be_change.specs.Opening.{IsTable};
ghost use Rattle.be_change.specs.Sound.{Sound};
ghost use Rattle.be_demand.specs.Whole.{names_are_whole};
ghost use Rattle.be_hub.specs.Transcripts.{AreServed};
ghost use Rattle.be_io.specs.Outside.{link_state, sink_state};
ghost use Rattle.be_model.specs.Lies.{row_lies};
ghost use Rattle.be_server.specs.Heat.{RunsHeat, asked_line, demand_text};
ghost use Rattle.be_server.specs.Outside.{objects, passage};
ghost use Rattle.be_server.specs.Promise.{Promise};
ghost use Rattle.be_protocol.specs.Replies.{number};
ghost use Rattle.be_command_line.specs.Words.{heat};

use crate::drill::mailed;
use crate::output::{text_of_log, write_behind};
use crate::scripts::{DrillFiles, load_drill};
use crate::status::Status;
use be_base::{AttrNo, NoMemory};
use be_demand::{Demand, count_all};
use be_door::Door;
use be_hub::Drilled;
use be_io::{Gate, Link, Shelf, Sink, Source};
use be_model::Schema;
use itoa::Buffer;
use std::alloc::{AllocError, Global};
use std::marker::Brand;
use std::sync::{Arc, Wait};
use std::thread::Threads;
use std::time::Clock;

/// Serves each file as a session, and writes what each was answered, the list, and which attributes the answered events ask for.
pub fn heat<R, F, S, K, L, D, G>(
    rt: &R,
    alloc: Global,
    schema: &str,
    rounds: u64,
    files: &[&str],
    shelf: &mut F,
    out: &mut K,
    gate: &G,
) -> Status
where
    R: Threads + Wait + Clock + Sync,
    F: Shelf,
    S: Source,
    K: Sink,
    L: Link,
    D: Door<L>,
    G: Gate + Sync,
    requires some { 0 < length files.now }
    requires few { length files.now ≤ SEATS }
    requires rounds { rounds ≤ ROUNDS }
    ensures { (input : _) (door : _) → Promise (passage F.Shelf S.Source K.Sink D.state (link_state L.Source L.Sink)
        (objects shelf.old input out.old door) (objects shelf.new input out.new door))
        (Some (heat schema.now rounds (map now_of files.now))) result }
{
    match load_drill(alloc, shelf, schema, None, files) {
        Ok(loaded) => run_heat(rt, alloc, loaded, rounds, out, gate),
        Err(status) => status,
    }
}

// Serves the files that were read, counts, and writes what came of it. The hub takes the files' bytes, so they are copied.
fn run_heat<R: Threads + Wait + Clock + Sync, K: Sink, G: Gate + Sync>(
    rt: &R,
    alloc: Global,
    loaded: DrillFiles,
    rounds: u64,
    out: &mut K,
    gate: &G,
) -> Status
    requires table { IsTable loaded.rows.items }
    requires lies { list_all (row_lies loaded.schema) loaded.rows.items ≡ true }
    requires none { loaded.rows.items ≡ [] }
    requires names { names_are_whole loaded.schema ≡ true }
    requires some { 0 < length loaded.scripts.items }
    requires few { length loaded.scripts.items ≤ SEATS }
    requires short { All (λ script. length script.items ≤ FILE_BYTES) loaded.scripts.items }
    requires rounds { rounds ≤ ROUNDS }
    ensures { RunsHeat (out.new ≡ out.old) loaded.schema loaded.rows.items (map (λ script. script.items) loaded.scripts.items) (sink_state K.Sink out.old) (sink_state K.Sink out.new) result }
{
    let DrillFiles {
        schema,
        rows,
        scripts,
    } = loaded;
    let Ok(schema) = Arc::new(alloc, schema) else {
        return Status::NoMemory;
    };
    let Ok(files) = copies_of(alloc, scripts.as_slice()) else {
        return Status::NoMemory;
    };
    match mailed::<Brand, R, G>(rt, alloc, &schema, rows, scripts, rounds, gate) {
        Ok(drilled) => write_heat(rt, alloc, &schema, files.as_slice(), drilled, out),
        Err(fault) => Status::from(fault),
    }
}

fn copies_of(alloc: Global, files: &[Vec<u8>]) -> Result<Vec<Vec<u8>>, AllocError>
    ensures { IfOk result (λ copies. map (λ copy. copy.items) copies.items ≡ map (λ file. file.items) files.now) }
{
    let mut copies = Vec::new(alloc);
    for file in files {
        let mut copy = Vec::new(alloc);
        copy.extend_from_slice(file.as_slice())?;
        copies.push(copy)?;
    }
    Ok(copies)
}

// Counts, and writes what the sessions were answered, the list, and the counts.
fn write_heat<R: Threads + Sync, K: Sink>(
    rt: &R,
    alloc: Global,
    schema: &Schema,
    files: &[Vec<u8>],
    drilled: Drilled,
    out: &mut K,
) -> Status
    requires names { names_are_whole schema.now ≡ true }
    requires sound { Sound schema.now drilled.log.list }
    requires some { 0 < length files.now }
    requires few { length files.now ≤ SEATS }
    requires each { length drilled.transcripts.items ≡ length files.now }
    requires short { All (λ file. length file.items ≤ FILE_BYTES) files.now }
    ensures { AreServed schema.now [] drilled.log.list (is_some drilled.shade) (map (λ file. file.items) files.now) (map (λ t. t.items) drilled.transcripts.items)
        → RunsHeat (out.new ≡ out.old) schema.now [] (map (λ file. file.items) files.now) (sink_state K.Sink out.old) (sink_state K.Sink out.new) result }
{
    let transcripts = drilled.transcripts.as_slice();
    let Ok(demand) = count_all(rt, alloc, schema, files, transcripts) else {
        return Status::NoMemory;
    };
    let Ok(mut text) = text_of_log(alloc, schema, &drilled.log) else {
        return Status::NoMemory;
    };
    if append_demand(schema, &demand, &mut text).is_err() {
        return Status::NoMemory;
    }
    write_behind(drilled, text.as_slice(), out)
}

// Puts a line for each attribute last, under the number of HITs.
fn append_demand(schema: &Schema, demand: &Demand, text: &mut Vec<u8>) -> Result<(), NoMemory>
    requires { length demand.now.asked ≡ length schema.now }
    ensures { OnOk result (text.new.items ≡ text.old.items ++ demand_text schema.now demand.now) }
{
    text.extend_from_slice(b"== HEAT ")?;
    text.extend_from_slice(Buffer::new().format(demand.hits()).as_bytes())?;
    text.extend_from_slice(b"\n")?;
    for place in 0..schema.count() {
        append_asked(schema, demand, AttrNo(place), text)?;
    }
    Ok(())
}

// Puts an attribute's line last.
fn append_asked(
    schema: &Schema,
    demand: &Demand,
    a: AttrNo,
    text: &mut Vec<u8>,
) -> Result<(), NoMemory>
    requires there { a.0 < length schema.now }
    requires told { a.0 < length demand.now.asked }
    ensures { OnOk result (text.new.items ≡ text.old.items ++ asked_line schema.now demand.now a.0) }
{
    schema.write_name(a, text)?;
    append_number(demand.asked(a), text)?;
    append_number(demand.missed(a), text)?;
    text.extend_from_slice(b"\n")?;
    Ok(())
}

// Puts a space and a number last.
fn append_number(count: u64, text: &mut Vec<u8>) -> Result<(), NoMemory>
    ensures { OnOk result (text.new.items ≡ text.old.items ++ number count) }
{
    text.extend_from_slice(b" ")?;
    text.extend_from_slice(Buffer::new().format(count).as_bytes())?;
    Ok(())
}
