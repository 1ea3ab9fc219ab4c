//! Tests of hubs, as rows: it serves files by workers over one hub. A line of the input is how many calls the maintainer makes,
//! and the files, parted by ` || `, of which each has lines parted by `; `. Each line of the output is the same with the
//! transcripts, the calls that the maintainer made, how many changes the list has when the hub is closed, and how many searches
//! its trees were asked for. Where there is more than one file, the numbers of changes depend on the schedule, and each is
//! printed as `n`. A line `door: FILE` is served as a link of a door, and its answer is how often its worker tended the desk
//! (door.rt). The rows stand in `stdin`, and with their transcripts and numbers, worked by hand from the rules, in `stdout`;
//! the gate compares.
#![tactic(auto)]

mod closing;
mod door;
mod files;
mod hubs;
mod shown;

use be_model::Schema;
use std::alloc::Global;
use std::io;
use std::sync::{Arc, Wait};
use std::thread::Threads;
use std::time::Clock;
use worked_help::answer_each_in;

const SCHEMA: &[u8] = b"int price 0 1000\nint qty -5 5\n";

// What came of a line.
fn served<R: Threads + Wait + Clock + Sync>(
    rt: &R,
    alloc: Global,
    schema: &Arc<Schema>,
    line: &str,
) -> Option<String> {
    let script = files::read_script(alloc, line)?;
    hubs::served(rt, alloc, schema, script)
}

fn main(rt: HostRuntime) -> io::Result<()> {
    let alloc = rt.alloc();
    answer_each_in(
        &rt,
        alloc,
        SCHEMA,
        |schema, line| served(&rt, alloc, schema, line),
    )
}
