//! The command `cover`: which rows of a load file are covered by one of them.

ghost use Rattle.std.specs.Prelude.{◌≡◌, ◌++◌, [], true, find, option_copied, Some, None, IfOk, OnOk};
ghost use Rattle.std.specs.List.{list_all};
ghost use Rattle.be_io.specs.Outside.{sink_state, link_state};
ghost use Rattle.be_model.specs.Lies.{row_lies, event_lies};
ghost use Rattle.be_server.specs.Cover.{cover_line, is_named, line_for, lines_for, cover_text, WritesLines};
ghost use Rattle.be_server.specs.Outside.{objects, passage};
ghost use Rattle.be_server.specs.Promise.{Promise};
ghost use Rattle.be_command_line.specs.Words.{cover};

use crate::files::{Loaded, load_files};
use crate::output::{status_of, write_out};
use crate::status::Status;
use be_base::{Name, NoMemory};
use be_cover::apart;
use be_door::Door;
use be_event::write_event;
use be_io::{Link, Shelf, Sink, Source};
use be_model::{Event, Row, Schema};
use std::alloc::Global;

/// Says of each other row of the load file whether it is covered by the one of this name, and else what tells it apart.
pub fn cover<F, S, K, L, D>(
    alloc: Global,
    schema: &str,
    file: &str,
    name: &str,
    shelf: &mut F,
    out: &mut K,
) -> Status
where
    F: Shelf,
    S: Source,
    K: Sink,
    L: Link,
    D: Door<L>,
    ensures { (input : _) (door : _) → Promise (passage F.Shelf S.Source K.Sink D.state (link_state L.Source L.Sink)
        (objects shelf.old input out.old door) (objects shelf.new input out.new door))
        (Some (cover schema.now file.now name.now)) result }
{
    match load_files(alloc, shelf, schema, Some(file)) {
        Ok(loaded) => write_lines(alloc, &loaded, name, out),
        Err(status) => status,
    }
}

// Writes the lines, once they are all there.
fn write_lines<K: Sink>(alloc: Global, loaded: &Loaded, name: &str, out: &mut K) -> Status
    requires { list_all (row_lies loaded.now.schema) loaded.now.rows.items ≡ true }
    ensures { WritesLines (out.new ≡ out.old) (cover_text loaded.now.schema loaded.now.rows.items name.now) (sink_state K.Sink out.old) (sink_state K.Sink out.new) result }
{
    match text_for(alloc, &loaded.schema, loaded.rows.as_slice(), name) {
        Ok(text) => status_of(write_out(out, text.as_slice())),
        Err(NoMemory) => Status::NoMemory,
    }
}

// What is written for this name.
fn text_for(alloc: Global, schema: &Schema, rows: &[Row], name: &str) -> Result<Vec<u8>, NoMemory>
    requires { list_all (row_lies schema.now) rows.now ≡ true }
    ensures { IfOk result (λ text. text.items ≡ cover_text schema.now rows.now name.now) }
{
    match row_named(rows, name) {
        None => unknown(alloc),
        Some(asked) => lines_for(alloc, schema, rows, asked),
    }
}

fn row_named<'a>(rows: &'a [Row], name: &str) -> Option<&'a Row>
    ensures { option_copied result ≡ find (is_named name.now) rows.now }
{
    rows.iter().find(|row| row.name.bytes() == name.as_bytes())
}

fn unknown(alloc: Global) -> Result<Vec<u8>, NoMemory>
    ensures { IfOk result (λ text. text.items ≡ lines_for [] [] None) }
{
    let mut text = Vec::new(alloc);
    text.extend_from_slice(b"UNKNOWN\n")?;
    Ok(text)
}

// A line for each row but the asked one.
fn lines_for(alloc: Global, schema: &Schema, rows: &[Row], asked: &Row) -> Result<Vec<u8>, NoMemory>
    requires asked { row_lies schema.now asked.now ≡ true }
    requires lies { list_all (row_lies schema.now) rows.now ≡ true }
    ensures { IfOk result (λ text. text.items ≡ lines_for schema.now rows.now (Some asked.now)) }
{
    let mut text = Vec::new(alloc);
    for row in rows {
        put_line(alloc, schema, asked, row, &mut text)?;
    }
    Ok(text)
}

// Puts the line of a row last.
fn put_line(
    alloc: Global,
    schema: &Schema,
    asked: &Row,
    row: &Row,
    text: &mut Vec<u8>,
) -> Result<(), NoMemory>
    requires asked { row_lies schema.now asked.now ≡ true }
    requires lies { row_lies schema.now row.now ≡ true }
    ensures { OnOk result (text.new.items ≡ text.old.items ++ line_for schema.now asked.now row.now) }
{
    if row.name.same(&asked.name) {
        return Ok(());
    }
    match apart(alloc, schema, &asked.conj, &row.conj)? {
        None => put_cover(&row.name, text),
        Some(event) => put_not(alloc, schema, &row.name, &event, text),
    }
}

fn put_cover(name: &Name, text: &mut Vec<u8>) -> Result<(), NoMemory>
    ensures { OnOk result (text.new.items ≡ text.old.items ++ cover_line [] name.now None) }
{
    text.extend_from_slice(b"COVER ")?;
    text.extend_from_slice(name.bytes())?;
    text.extend_from_slice(b"\n")?;
    Ok(())
}

fn put_not(
    alloc: Global,
    schema: &Schema,
    name: &Name,
    event: &Event,
    text: &mut Vec<u8>,
) -> Result<(), NoMemory>
    requires { event_lies schema.now event.now ≡ true }
    ensures { OnOk result (text.new.items ≡ text.old.items ++ cover_line schema.now name.now (Some event.now)) }
{
    let event = write_event(alloc, schema, event)?;
    text.extend_from_slice(b"NOT ")?;
    text.extend_from_slice(name.bytes())?;
    text.extend_from_slice(b" ")?;
    text.extend_from_slice(event.as_slice())?;
    text.extend_from_slice(b"\n")?;
    Ok(())
}
