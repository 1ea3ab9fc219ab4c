//! Tests of followers, as rows: it feeds followers. A line of its input is how many bytes a piece of the feed has, the feed,
//! and the lines that are answered then: `3: AT 0 BYE 1 0; => PUB -; QUIT`, where `; ` stands for an LF. `3 100 2: ` gathers
//! 100 bytes of the replies before a write, and the second write fails. Each line of the output is the same with the replies,
//! the end and the length of the list, or with the first faulty line. The rows stand in `stdin`, and with what is to be seen,
//! worked by hand from the rules, in `stdout`; the gate compares.
#![tactic(auto)]

mod following;

use be_model::Schema;
use following::Setting;
use std::alloc::Global;
use std::io;
use std::sync::Arc;
use worked_help::answer_each_in;

const SCHEMA: &[u8] = b"int price 0 1000\nint qty 0 7\n";

// What is seen for a row.
fn seen(alloc: Global, schema: &Arc<Schema>, row: &str) -> Option<String> {
    let (numbers, texts) = row.split_once(": ")?;
    let (feed, lines) = texts.split_once("=> ").unwrap_or((texts, ""));
    following::followed(alloc, schema, setting(numbers)?, feed, lines).ok()
}

fn setting(numbers: &str) -> Option<Setting> {
    let (size, output) = numbers.split_once(' ').unwrap_or((numbers, ""));
    let (gathers, failing_write) = output.split_once(' ').unwrap_or((output, ""));
    Some(Setting {
        size: size.parse().ok()?,
        gathers: gathers.parse().unwrap_or(0),
        failing_write: failing_write.parse().unwrap_or(0),
    })
}

fn main(rt: HostRuntime) -> io::Result<()> {
    let alloc = rt.alloc();
    answer_each_in(&rt, alloc, SCHEMA, |schema, row| seen(alloc, schema, row))
}
