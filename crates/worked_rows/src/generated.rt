//! Generated scripts: the sums that are printed, and how the command ends.

use crate::full::Full;
use crate::setting::{SCHEMA, Setting, call, is, run};
use be_server::Status;
use std::alloc::Global;
use std::sync::Wait;
use std::thread::Threads;
use std::time::Clock;

// Three numbers, and what is printed. They were summed up outside.
const SUMS: &[([&str; 4], &str)] = &[
    (["gen", "7", "0", "0"], "GEN 0 0 0 0 0\n"),
    (
        ["gen", "7", "1000", "200"],
        "GEN 1000 200 10006 7212 63788\n",
    ),
    (
        ["gen", "42", "5000", "100"],
        "GEN 5000 100 26203 11627 108480\n",
    ),
];

const REFUSED: &[[&str; 4]] = &[
    ["gen", "7", "100001", "0"],
    ["gen", "7", "0", "10001"],
    ["gen", "x", "0", "0"],
    ["gen", "18446744073709551616", "0", "0"],
    ["gen", "7", "0", "-1"],
];

// The input has six bytes, and the first ask for a file would fail.
fn generated<'a>(words: &'a [&'a str], failing_write: u64) -> Setting<'a> {
    Setting {
        words,
        schema: SCHEMA,
        load: b"",
        script: b"PUB -\n",
        piece: 18,
        failing_read: 0,
        failing_write,
        failing_ask: 1,
    }
}

/// Whether the command ends so, writes this, leaves the input of six bytes alone, and the next ask for a file fails.
pub fn ends<R: Threads + Wait + Clock + Sync>(
    rt: &R,
    alloc: Global,
    setting: &Setting,
    wanted: (Status, &str),
) -> bool {
    let (status, out) = wanted;
    match run(rt, alloc, setting) {
        Some(ran) => {
            is(&ran.status, &status)
                && ran.out.as_slice() == out.as_bytes()
                && ran.left == 6
                && ran.is_next_ask_refused
        }
        None => false,
    }
}

#[test]
fn sums_are_printed(rt: HostRuntime) {
    let alloc = rt.alloc();
    for (words, line) in SUMS {
        let done = ends(&rt, alloc, &generated(words, 0), (Status::Done, line));
        let fails = ends(&rt, alloc, &generated(words, 1), (Status::WriteFault, ""));
        assert!(rt; done && fails, "{line}");
    }
}

#[test]
fn words_of_gen_are_refused(rt: HostRuntime) {
    let alloc = rt.alloc();
    for words in REFUSED {
        let [_, number, subs, events] = words;
        let refused = ends(&rt, alloc, &generated(words, 0), (Status::Words, ""));
        assert!(rt; refused, "{number} {subs} {events}");
    }
}

#[test]
fn the_output_has_no_memory(rt: HostRuntime) {
    let mut out = Full::make();
    let words = ["gen", "7", "3", "2"];
    let status = call(&rt, rt.alloc(), &generated(&words, 0), &mut out);
    let is_refused = match status {
        Some(status) => is(&status, &Status::NoMemory),
        None => false,
    };
    assert!(rt; is_refused && out.refusals == 1);
}
