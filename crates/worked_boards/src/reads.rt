//! Reads of a board.

ghost use Rattle.std.specs.Prelude.{◌≡◌};

use be_board::Board;
use be_event::read_event;
use be_model::{Change, Cost, Found, Row, Schema};
use std::alloc::Global;
use std::sync::Arc;

pub fn find<B: Board>(alloc: Global, schema: &Schema, board: &mut B, rest: &str) -> Option<String>
    requires { (B.state board.old).schema ≡ schema.now }
    ensures { (B.state board.new).schema ≡ (B.state board.old).schema }
{
    let event = read_event(alloc, schema, rest.as_bytes()).ok()?;
    let mut found = Found::make(alloc);
    let n = board.find(&event, &mut found).ok()?;
    rows_text(alloc, n, found.rows())
}

pub fn cost<B: Board>(
    alloc: Global,
    schema: &Schema,
    board: &mut B,
    rest: &str,
) -> Option<(u64, Cost)>
    requires { (B.state board.old).schema ≡ schema.now }
    ensures { (B.state board.new).schema ≡ (B.state board.old).schema }
{
    let event = read_event(alloc, schema, rest.as_bytes()).ok()?;
    board.cost(&event).ok()
}

pub fn mine<B: Board>(alloc: Global, board: &mut B) -> Option<String>
    ensures { (B.state board.new).schema ≡ (B.state board.old).schema }
{
    let mut found = Found::make(alloc);
    let n = board.mine(&mut found).ok()?;
    rows_text(alloc, n, found.rows())
}

pub fn all<B: Board>(alloc: Global, board: &mut B) -> Option<String>
    ensures { (B.state board.new).schema ≡ (B.state board.old).schema }
{
    let mut found = Found::make(alloc);
    let n = board.all(&mut found).ok()?;
    rows_text(alloc, n, found.rows())
}

pub fn tail<B: Board>(alloc: Global, board: &mut B, rest: &str) -> Option<String>
    ensures { (B.state board.new).schema ≡ (B.state board.old).schema }
{
    let (from, max) = rest.split_once(' ')?;
    let mut changes = Vec::new(alloc);
    let n = board
        .tail(from.parse().ok()?, max.parse().ok()?, &mut changes)
        .ok()?;
    changes_text(alloc, n, changes.as_slice())
}

// The number, and then the session and the name of each row.
fn rows_text(alloc: Global, n: u64, rows: &[Arc<Row>]) -> Option<String> {
    let mut text = format!(in alloc; "{n}").ok()?;
    for row in rows {
        let part = format!(in alloc; " {}.{}", row.session.0, row.name).ok()?;
        text.push_str(part.as_str()).ok()?;
    }
    Some(text)
}

// The number, and then the name of each row that came or went.
fn changes_text(alloc: Global, n: u64, changes: &[Arc<Change>]) -> Option<String> {
    let mut text = format!(in alloc; "{n}").ok()?;
    for change in changes {
        text.push_str(change_text(alloc, change)?.as_str()).ok()?;
    }
    Some(text)
}

fn change_text(alloc: Global, change: &Change) -> Option<String> {
    match change {
        Change::Sub { row, .. } => format!(in alloc; " +{}", row.name).ok(),
        Change::Unsub { name, .. } => format!(in alloc; " -{name}").ok(),
        Change::Bye { .. } => String::from_str(alloc, " bye").ok(),
    }
}
