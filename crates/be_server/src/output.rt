//! How commands write, and what they write of sessions: their transcripts, and the list.

ghost use Rattle.std.specs.Prelude.{◌≡◌, ℕ, ◌≤◌, ◌++◌, List, true, length, map, IfOk, OnOk};
ghost use Rattle.std.specs.List.{flat_map};
ghost use Rattle.std.specs.Option.{is_some};
ghost use Rattle.be_base.specs.Readers.{now_of};
ghost use Rattle.be_change.specs.Opening.{opening_of};
ghost use Rattle.be_change.specs.Sound.{Sound, all_lie};
ghost use Rattle.be_hub.specs.Transcripts.{AreServed};
ghost use Rattle.be_io.specs.Outside.{sink_state};
ghost use Rattle.be_io.specs.Sink.{SinkState, Wrote};
ghost use Rattle.be_model.specs.declared.changes.Row.{Row};
ghost use Rattle.be_server.specs.Gen.{status_written};
ghost use Rattle.be_server.specs.Output.{WroteOut};
ghost use Rattle.be_server.specs.Drill.{EndsAfter, RunsDrill, under, headed, log_text};

use crate::status::Status;
use be_base::NoMemory;
use be_change::ChangeLog;
use be_expr::append_change;
use be_hub::Drilled;
use be_io::{Sink, SinkFault, hand_on, write_all};
use be_model::Schema;
use itoa::Buffer;
use std::alloc::Global;

/// The status, once all was written so.
pub fn status_of(written: Result<(), SinkFault>) -> Status
    ensures { result ≡ status_written written }
{
    match written {
        Ok(()) => Status::Done,
        Err(SinkFault::Failed) => Status::WriteFault,
        Err(SinkFault::NoMemory) => Status::NoMemory,
    }
}

/// Writes what the sessions were answered, and then the list.
pub fn write_drill<K: Sink>(alloc: Global, schema: &Schema, drilled: Drilled, out: &mut K) -> Status
    requires { Sound schema.now drilled.log.list }
    ensures { (rows : _) (scripts : _) → AreServed schema.now (opening_of rows) drilled.log.list (is_some drilled.shade) scripts (map (λ t. t.items) drilled.transcripts.items)
        → RunsDrill (out.new ≡ out.old) schema.now rows scripts (sink_state K.Sink out.old) (sink_state K.Sink out.new) result }
{
    let Ok(text) = text_of_log(alloc, schema, &drilled.log) else {
        return Status::NoMemory;
    };
    write_behind(drilled, text.as_slice(), out)
}

/// Writes what the sessions were answered, and this text behind it.
pub fn write_behind<K: Sink>(drilled: Drilled, text: &[u8], out: &mut K) -> Status
    ensures { EndsAfter (λ written. WroteOut (sink_state K.Sink out.old) (sink_state K.Sink out.new) (headed 1 (map (λ t. t.items) drilled.transcripts.items) ++ text.now) written) (is_some drilled.shade) result }
{
    match write_out_all(out, drilled.transcripts.as_slice(), text) {
        Ok(()) => match drilled.shade {
            None => Status::Done,
            Some(shade) => Status::Shut(shade),
        },
        Err(fault) => status_of(Err(fault)),
    }
}

/// The list, a change a line, under its length.
pub fn text_of_log(alloc: Global, schema: &Schema, log: &ChangeLog) -> Result<Vec<u8>, NoMemory>
    requires { all_lie schema.now log.now.list ≡ true }
    ensures { IfOk result (λ text. text.items ≡ log_text schema.now log.now.list) }
{
    let mut text = Vec::new(alloc);
    text.extend_from_slice(b"== LOG ")?;
    text.extend_from_slice(Buffer::new().format(log.len()).as_bytes())?;
    text.extend_from_slice(b"\n")?;
    for place in 0..log.len() {
        append_change(schema, log.at(place), &mut text)?;
        text.extend_from_slice(b"\n")?;
    }
    Ok(text)
}

/// Writes a text, and hands on what was written.
pub fn write_out<K: Sink>(out: &mut K, text: &[u8]) -> Result<(), SinkFault>
    ensures { WroteOut (sink_state K.Sink out.old) (sink_state K.Sink out.new) text.now result }
{
    let written = write_all(out, text);
    hand_out(out, written)
}

// Hands on what was written, where all of it was.
fn hand_out<K: Sink>(out: &mut K, written: Result<(), SinkFault>) -> Result<(), SinkFault>
    ensures { (before : SinkState) (text : List ℕ) → Wrote before (sink_state K.Sink out.old) text written
        → WroteOut before (sink_state K.Sink out.new) text result }
{
    match written {
        Ok(()) => hand_on(out),
        Err(fault) => Err(fault),
    }
}

// Writes the transcripts and the list, and hands on what was written.
fn write_out_all<K: Sink>(out: &mut K, transcripts: &[Vec<u8>], log: &[u8]) -> Result<(), SinkFault>
    ensures { WroteOut (sink_state K.Sink out.old) (sink_state K.Sink out.new) (headed 1 (map (λ t. t.items) transcripts.now) ++ log.now) result }
{
    let written = write_all_of(out, transcripts, log);
    hand_out(out, written)
}

// Writes the transcripts, each under the number of its file, and then the list.
fn write_all_of<K: Sink>(out: &mut K, transcripts: &[Vec<u8>], log: &[u8]) -> Result<(), SinkFault>
    ensures { Wrote (sink_state K.Sink out.old) (sink_state K.Sink out.new) (headed 1 (map (λ t. t.items) transcripts.now) ++ log.now) result }
{
    let mut number: u64 = 0;
    for transcript in transcripts {
        number += 1;
        write_under(out, number, transcript.as_slice())?;
    }
    write_all(out, log)
}

// Writes a transcript under the number of its file.
fn write_under<K: Sink>(out: &mut K, number: u64, transcript: &[u8]) -> Result<(), SinkFault>
    ensures { Wrote (sink_state K.Sink out.old) (sink_state K.Sink out.new) (under number transcript.now) result }
{
    let mut buffer = Buffer::new();
    let digits = buffer.format(number);
    write_each(out, &[b"== ", digits.as_bytes(), b"\n", transcript])
}

// Writes all of these, one behind the other.
fn write_each<K: Sink>(out: &mut K, pieces: &[&[u8]]) -> Result<(), SinkFault>
    ensures { Wrote (sink_state K.Sink out.old) (sink_state K.Sink out.new) (flat_map now_of pieces.now) result }
{
    for piece in pieces {
        write_all(out, piece)?;
    }
    Ok(())
}
