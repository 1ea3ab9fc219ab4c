//! Tests of the program, as rows: it serves rows by the program's one call, over doors, files and outputs in memory. A line of
//! the input is a row: the words of the call, and behind each ` | ` one thing that it finds, as `row.rt` has them. Each line of
//! the output is the same with what came of it: what was written, what each link of the door holds behind its session's number,
//! and the status; where workers are held, also how often, and whether for too long. A row whose outcome depends on the
//! schedule names each that may be, and what is told is that it was one of these; or it names the one that it comes to once readers are
//! shown all that was read, and is served again until it does. The rows stand in `stdin`, and with their outcomes, worked by hand from
//! the rules, in `stdout`; the gate compares.
#![tactic(auto)]

mod gate;
mod input;
mod lines;
mod links;
mod row;
mod shown;
mod stage;

use crate::row::Row;
use crate::shown::Shown;
use crate::stage::Stage;
use be_door::Metered;
use be_server::{Status, be_main};
use std::alloc::Global;
use std::io;
use std::sync::Wait;
use std::thread::Threads;
use std::time::Clock;
use worked_help::answer_each;

/// A row is served at most so often, where it names the outcome that it comes to.
const ATTEMPTS: u64 = 100;

/// With each attempt workers wait so many turns longer.
const TURNS_MORE: u64 = 100;

fn call<R: Threads + Wait + Clock + Sync>(rt: &R, alloc: Global, stage: &mut Stage<R>) -> Status {
    be_main::<_, _, _, _, Metered<links::Peer>, _, _>(
        rt,
        alloc,
        stage.words.as_slice(),
        &mut stage.shelf,
        &mut stage.input,
        &mut stage.out,
        &mut stage.door,
        &stage.gate,
    )
}

// What came of a row.
fn served<R: Threads + Wait + Clock + Sync + Copy>(
    rt: R,
    alloc: Global,
    line: &str,
) -> Option<String> {
    let row = row::read_row(alloc, line)?;
    for attempt in 1..ATTEMPTS {
        let shown = served_once(rt, alloc, &row, attempt * TURNS_MORE)?;
        if shown.is_due {
            return Some(shown.text);
        }
    }
    let shown = served_once(rt, alloc, &row, ATTEMPTS * TURNS_MORE)?;
    Some(shown.text)
}

// The same, where workers that wait for a read wait so many turns more.
fn served_once<R: Threads + Wait + Clock + Sync + Copy>(
    rt: R,
    alloc: Global,
    row: &Row<'_>,
    turns_more: u64,
) -> Option<Shown> {
    let mut stage = stage::stage_of(rt, alloc, row, turns_more)?;
    let status = call(&rt, alloc, &mut stage);
    shown::show(alloc, row, &stage, &status)
}

fn main(rt: HostRuntime) -> io::Result<()> {
    let alloc = rt.alloc();
    answer_each(&rt, alloc, |line| served(rt, alloc, line))
}
