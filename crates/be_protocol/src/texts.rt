//! Replies that tell of rows and changes, which take room.

ghost use Rattle.std.specs.Prelude.{◌≡◌, ◌+◌, ◌<◌, ◌^◌, ◌++◌, ◌∷◌, [], List, length, true, map, All, OnOk, codes};
ghost use Rattle.std.specs.List.{flat_map};
ghost use Rattle.be_base.specs.Text.{Text};
ghost use Rattle.be_model.specs.Entries.{entry_of};
ghost use Rattle.be_model.specs.Lies.{entry_lies, row_lies};
ghost use Rattle.be_model.specs.Rows.{rows_in};
ghost use Rattle.be_model.specs.Schemas.{Attributes};
ghost use Rattle.be_change.specs.Entries.{entries_in};
ghost use Rattle.be_change.specs.Requests.{dumped, hit, tailed};
ghost use Rattle.be_change.specs.Sound.{all_lie};
ghost use Rattle.be_expr.specs.Changes.{change_text};
ghost use Rattle.be_protocol.specs.Replies.{part, number, names_text, row_line, change_lines, reply_text, with_lf};
ghost use Rattle.be_protocol.specs.Texts.{names_in, naming, head_of};

use be_base::NoMemory;
use be_expr::{append_change, append_expr};
use be_model::{Change, Row, Schema};
use itoa::Buffer;
use std::sync::Arc;

/// Which live rows a reply names.
#[derive(Clone, Copy)]
pub enum Naming {
    /// Those that an event satisfies.
    Hit,
    /// Those of a session.
    List,
}

impl Naming {
    // The first word of the reply.
    fn head(self) -> &'static str
        ensures { result.now ≡ head_of self }
    {
        match self {
            Naming::Hit => "HIT",
            Naming::List => "LIST",
        }
    }
}

/// Puts the reply that tells so many hits, among `n` changes, with the text of their names.
pub fn write_hits(reply: &mut Vec<u8>, n: u64, count: usize, names: &[u8]) -> Result<(), NoMemory>
    requires { reply.old.items ≡ [] }
    ensures { (s : Attributes) (hits : List Text) → length hits ≡ count → names_text hits ≡ names.now → OnOk result (reply.new.items ≡ reply_text s (hit n hits)) }
{
    push_head(reply, Naming::Hit.head(), n, count)?;
    reply.extend_from_slice(names)?;
    push_lf(reply)
}

/// Puts the reply that names these rows, among `n` changes.
#[tactic(auto)]
pub fn write_names(
    reply: &mut Vec<u8>,
    which: Naming,
    n: u64,
    rows: &[Arc<Row>],
) -> Result<(), NoMemory>
    requires { reply.old.items ≡ [] }
    ensures { (s : Attributes) → OnOk result (reply.new.items ≡ reply_text s (naming which n (names_in (rows_in rows.now)))) }
{
    push_head(reply, which.head(), n, rows.len())?;
    push_names(reply, rows)?;
    push_lf(reply)
}

// Puts the names of the rows last, each after a space.
fn push_names(text: &mut Vec<u8>, rows: &[Arc<Row>]) -> Result<(), NoMemory>
    ensures { OnOk result (text.new.items ≡ text.old.items ++ names_text (names_in (rows_in rows.now))) }
{
    for row in rows {
        push_part(text, row.name.bytes())?;
    }
    Ok(())
}

/// Puts the reply with all these rows, live after `n` changes.
pub fn write_rows(
    reply: &mut Vec<u8>,
    schema: &Schema,
    n: u64,
    rows: &[Arc<Row>],
) -> Result<(), NoMemory>
    requires start { reply.old.items ≡ [] }
    requires lies { All (λ row. row_lies schema.now row ≡ true) (rows_in rows.now) }
    ensures { OnOk result (reply.new.items ≡ reply_text schema.now (dumped n (rows_in rows.now))) }
{
    push_rows(reply, schema, rows)?;
    push_head(reply, "# DUMP", n, rows.len())?;
    push_lf(reply)
}

// Puts the lines of the rows last.
fn push_rows(text: &mut Vec<u8>, schema: &Schema, rows: &[Arc<Row>]) -> Result<(), NoMemory>
    requires { All (λ row. row_lies schema.now row ≡ true) (rows_in rows.now) }
    ensures { OnOk result (text.new.items ≡ text.old.items ++ flat_map with_lf (map (row_line schema.now) (rows_in rows.now))) }
{
    for row in rows {
        push_row(text, schema, row)?;
    }
    Ok(())
}

// Puts the line of a row last.
fn push_row(text: &mut Vec<u8>, schema: &Schema, row: &Row) -> Result<(), NoMemory>
    requires { row_lies schema.now row.now ≡ true }
    ensures { OnOk result (text.new.items ≡ text.old.items ++ with_lf (row_line schema.now row.now)) }
{
    text.extend_from_slice(b"ROW")?;
    push_part(text, row.name.bytes())?;
    text.extend_from_slice(b" ")?;
    append_expr(schema, &row.conj, text)?;
    push_lf(text)
}

/// Puts the reply with these of `n` changes, the first of which stands at the place.
pub fn write_changes(
    reply: &mut Vec<u8>,
    schema: &Schema,
    n: u64,
    place: u64,
    changes: &[Arc<Change>],
) -> Result<(), NoMemory>
    requires start { reply.old.items ≡ [] }
    requires places { place + length changes.now < 2 ^ 64 }
    requires lies { all_lie schema.now (entries_in changes.now) ≡ true }
    ensures { OnOk result (reply.new.items ≡ reply_text schema.now (tailed n place (entries_in changes.now))) }
{
    push_changes(reply, schema, place, changes)?;
    push_head(reply, "TAILED", n, changes.len())?;
    push_lf(reply)
}

// Puts the lines of the changes last.
fn push_changes(
    text: &mut Vec<u8>,
    schema: &Schema,
    place: u64,
    changes: &[Arc<Change>],
) -> Result<(), NoMemory>
    requires places { place + length changes.now < 2 ^ 64 }
    requires lies { all_lie schema.now (entries_in changes.now) ≡ true }
    ensures { OnOk result (text.new.items ≡ text.old.items ++ flat_map with_lf (change_lines schema.now place (entries_in changes.now))) }
{
    for (i, change) in changes.iter().enumerate() {
        push_change(text, schema, place + i as u64, change)?;
    }
    Ok(())
}

// Puts the line of a change last.
fn push_change(
    text: &mut Vec<u8>,
    schema: &Schema,
    place: u64,
    change: &Change,
) -> Result<(), NoMemory>
    requires { entry_lies schema.now (entry_of change.now) ≡ true }
    ensures { OnOk result (text.new.items ≡ text.old.items ++ with_lf ((codes "AT" ++ number place) ++ part (change_text schema.now (entry_of change.now)))) }
{
    text.extend_from_slice(b"AT")?;
    push_number(text, place)?;
    text.extend_from_slice(b" ")?;
    append_change(schema, change, text)?;
    push_lf(text)
}

// Puts a word, the number of changes and a number of rows or changes last.
fn push_head(text: &mut Vec<u8>, head: &str, n: u64, count: usize) -> Result<(), NoMemory>
    ensures { OnOk result (text.new.items ≡ text.old.items ++ ((head.now ++ number n) ++ number count)) }
{
    text.extend_from_slice(head.as_bytes())?;
    push_number(text, n)?;
    push_number(text, count as u64)
}

fn push_number(text: &mut Vec<u8>, n: u64) -> Result<(), NoMemory>
    ensures { OnOk result (text.new.items ≡ text.old.items ++ number n) }
{
    let mut digits = Buffer::new();
    push_part(text, digits.format(n).as_bytes())
}

// Puts a space and a part of a line last.
fn push_part(text: &mut Vec<u8>, part: &[u8]) -> Result<(), NoMemory>
    ensures { OnOk result (text.new.items ≡ text.old.items ++ 32 ∷ part.now) }
{
    text.extend_from_slice(b" ")?;
    text.extend_from_slice(part)?;
    Ok(())
}

fn push_lf(text: &mut Vec<u8>) -> Result<(), NoMemory>
    ensures { OnOk result (text.new.items ≡ with_lf text.old.items) }
{
    text.extend_from_slice(b"\n")?;
    Ok(())
}
