//! Tests of desks, as rows: it asks desks what its input says. A line is a kind of desk, how many seats it has, and what is
//! asked there, parted by `; `, and each line of the output is the same with the answers and the list that the desk left. The
//! rows stand in `stdin`, and with their answers, worked by hand from the rules, in `stdout`; the gate compares. `desks.rt` has
//! the kinds of desks, `commands.rt` what is asked, `seats.rt` what a seat asks.
#![tactic(auto)]

mod commands;
mod desks;
mod seats;
mod texts;

use be_model::Schema;
use std::alloc::Global;
use std::io;
use std::sync::{Arc, Wait};
use worked_help::answer_each_in;

const SCHEMA: &[u8] = b"int price 0 1000\n";

fn answers<R: Wait>(rt: &R, alloc: Global, schema: &Arc<Schema>, line: &str) -> Option<String> {
    let (desk, script) = line.split_once(": ")?;
    let (kind, seats) = desk.split_once(' ')?;
    desks::answers(rt, alloc, schema, kind, seats.parse().ok()?, script)
}

fn main(rt: HostRuntime) -> io::Result<()> {
    let alloc = rt.alloc();
    answer_each_in(
        &rt,
        alloc,
        SCHEMA,
        |schema, line| answers(&rt, alloc, schema, line),
    )
}
