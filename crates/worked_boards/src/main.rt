//! Tests of boards, as rows: it asks boards what its input says. A line is a kind of board and what a new one is asked, parted
//! by `; `, and each line of the output is the same with the answers. The rows stand in `stdin`, and with their answers, worked
//! by hand from the rules, in `stdout`; the gate compares. `boards.rt` has the kinds of boards, `commands.rt` what they are
//! asked.
#![tactic(auto)]

mod boards;
mod changes;
mod commands;
mod letters;
mod reads;

use be_model::Schema;
use std::alloc::Global;
use std::io;
use std::sync::Arc;
use worked_help::answer_each_in;

const SCHEMA: &[u8] = b"int price 0 1000\n";

fn answers(alloc: Global, schema: &Arc<Schema>, line: &str) -> Option<String> {
    let (kind, script) = line.split_once(": ").unwrap_or((line, ""));
    boards::answers(alloc, schema, kind, script).ok()
}

fn main(rt: HostRuntime) -> io::Result<()> {
    let alloc = rt.alloc();
    answer_each_in(
        &rt,
        alloc,
        SCHEMA,
        |schema, line| answers(alloc, schema, line),
    )
}
