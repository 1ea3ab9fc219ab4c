//! Tests of heats, as rows: it counts with a thread for each seat of a heat. A line of the input is how many words the heat
//! has, how often each seat goes through its words, and the words of each seat: `3 10: 0 0 2 | 1`. Each line of the output is
//! the same with what each seat has added, and then the totals, as `WORD=COUNT` for each word that isn't at 0. The lines are
//! the same whatever the schedule. The rows stand in `stdin`, and with their counts, worked by hand, in `stdout`; the gate
//! compares.
#![tactic(auto)]

mod counting;
mod scripts;
mod shown;

use std::alloc::Global;
use std::io;
use std::thread::Threads;
use worked_help::answer_each;

// What was counted for a line.
fn counted<R: Threads + Sync>(rt: &R, alloc: Global, line: &str) -> Option<String> {
    let Some(script) = scripts::read_script(alloc, line) else {
        return String::from_str(alloc, "no heat").ok();
    };
    counting::counts(rt, alloc, script)
}

fn main(rt: HostRuntime) -> io::Result<()> {
    let alloc = rt.alloc();
    answer_each(&rt, alloc, |line| counted(&rt, alloc, line))
}
