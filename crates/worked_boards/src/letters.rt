//! Letters that a board sends and fetches.

ghost use Rattle.std.specs.Prelude.{◌≡◌};

use be_board::{Board, Sent};
use be_event::read_event;
use be_model::{Found, Schema};
use std::alloc::Global;

pub fn send<B: Board>(alloc: Global, schema: &Schema, board: &mut B, rest: &str) -> Option<Sent>
    requires { (B.state board.old).schema ≡ schema.now }
    ensures { (B.state board.new).schema ≡ (B.state board.old).schema }
{
    let event = read_event(alloc, schema, rest.as_bytes()).ok()?;
    let mut found = Found::make(alloc);
    board.send(alloc, &event, &mut found).ok()
}

/// Sends an event so often, and says how many letters were put and dropped.
pub fn send_often<B: Board>(
    alloc: Global,
    schema: &Schema,
    board: &mut B,
    rest: &str,
) -> Option<(u64, u64)>
    requires { (B.state board.old).schema ≡ schema.now }
    ensures { (B.state board.new).schema ≡ (B.state board.old).schema }
{
    let (times, event) = rest.split_once(' ')?;
    let times: u64 = times.parse().ok()?;
    let mut put = 0u64;
    let mut dropped = 0u64;
    for _ in 0..times {
        let sent = send(alloc, schema, board, event)?;
        put = put.saturating_add(sent.put);
        dropped = dropped.saturating_add(sent.dropped);
    }
    Some((put, dropped))
}

/// Takes as many letters, and says how many there were.
pub fn count<B: Board>(board: &mut B, rest: &str) -> Option<u64>
    ensures { (B.state board.new).schema ≡ (B.state board.old).schema }
{
    let max: u64 = rest.parse().ok()?;
    let mut count = 0u64;
    for _ in 0..max {
        if board.fetch().is_some() {
            count = count.saturating_add(1);
        }
    }
    Some(count)
}

/// Takes as many letters. Of each it gives the number of changes and the name.
pub fn fetch<B: Board>(alloc: Global, board: &mut B, rest: &str) -> Option<String>
    ensures { (B.state board.new).schema ≡ (B.state board.old).schema }
{
    let max: u64 = rest.parse().ok()?;
    let mut text = String::from_str(alloc, "letters").ok()?;
    for _ in 0..max {
        if let Some(letter) = board.fetch() {
            let part = format!(in alloc; " {}.{}", letter.n, letter.row.name).ok()?;
            text.push_str(part.as_str()).ok()?;
        }
    }
    Some(text)
}
