//! Tests of sessions, as rows: it serves sessions over boards. A line of its input is a kind of session and the session's
//! lines, parted by `; `, and each line of the output is the same with the replies, what was seen of the session, and the list
//! of changes that it left. The rows stand in `stdin`, and with what is to be seen, worked by hand from the rules, in `stdout`;
//! the gate compares. The board is one for session 1 over a plain index. Of a `session` a read, a write, or the first calls of
//! `leave` may be refused; of one that `gathers` so many bytes before a write the write of a number is refused; of `searches`
//! the index counts its searches. `sessions.rt` says what is seen.
#![tactic(auto)]

mod balky;
mod gate;
mod serving;
mod sessions;

use be_model::Schema;
use std::alloc::Global;
use std::io;
use std::sync::Arc;
use worked_help::answer_each_in;

const SCHEMA: &[u8] = b"int price 0 1000\n";

fn seen(alloc: Global, schema: &Arc<Schema>, row: &str) -> Option<String> {
    let (kind, lines) = row.split_once(": ").unwrap_or((row, ""));
    let (kind, refused) = kind.split_once(' ').unwrap_or((kind, ""));
    match kind {
        "session" => sessions::refused(alloc, schema, refused, lines).ok(),
        "gathers" => sessions::gathered(alloc, schema, refused, lines).ok(),
        "searches" => sessions::counted(alloc, schema, lines).ok(),
        _ => None,
    }
}

fn main(rt: HostRuntime) -> io::Result<()> {
    let alloc = rt.alloc();
    answer_each_in(&rt, alloc, SCHEMA, |schema, row| seen(alloc, schema, row))
}
