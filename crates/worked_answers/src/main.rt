//! Tests of what needs no runtime, as rows: each line of the input is a command and a text, and each line of the output is the
//! same with the answer. The rows stand in `stdin`, and with their answers, worked by hand from the rules, in `stdout`; the
//! gate compares. A table in a test would be proved as code; these rows are data. `rows.rt` says how a text is written, and
//! `commands.rt` has the commands.
#![tactic(auto)]

mod acts;
mod commands;
mod log;
mod names;
mod outside;
mod rows;
mod small;
mod tables;
mod texts;
mod values;
mod writes;

use be_model::Schema;
use std::alloc::Global;
use std::io;
use worked_help::answer_each_in;

// Has the attributes of all rows.
const SCHEMA: &[u8] =
    b"int price 0 1000\nint qty -5 5\nsym side buy sell hold\nsym joint and in\nint cents -1000 1000\n";

fn answer(alloc: Global, schema: &Schema, line: &str) -> Option<String> {
    let (command, row) = line.split_once(' ').unwrap_or((line, ""));
    let text = rows::text_of(alloc, row).ok()?;
    commands::answer(alloc, schema, command, text.as_str()).ok()
}

fn main(rt: HostRuntime) -> io::Result<()> {
    let alloc = rt.alloc();
    answer_each_in(
        &rt,
        alloc,
        SCHEMA,
        |schema, line| answer(alloc, schema, line),
    )
}
