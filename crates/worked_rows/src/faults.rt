//! Sessions whose input or output fails at a call.

ghost use Rattle.std.specs.Prelude.{◌<◌};

use crate::setting::{RUN, Ran, SCHEMA, Setting, is, run};
use be_server::Status;
use std::alloc::Global;
use std::sync::Wait;
use std::thread::Threads;
use std::time::Clock;

// Lines with their replies. The last line may have no LF.
struct Script {
    lines: &'static [(&'static str, &'static str)],
    has_last_lf: bool,
}

const SCRIPTS: &[Script] = &[
    Script {
        lines: &[
            ("SUB a price >= 10", "OK 1"),
            ("PUB price=10", "HIT 1 1 a"),
            ("PUB price=9", "HIT 1 0"),
        ],
        has_last_lf: true,
    },
    Script {
        lines: &[
            ("SUB b qty != -5", "OK 1"),
            ("SUB b qty > 0", "DUP 1 0"),
            ("", "BAD"),
            ("PUB qty=-5", "HIT 1 0"),
            ("UNSUB b", "OK 2"),
            ("LIST", "LIST 2 0"),
            ("PUB qty=5 side=sell", "HIT 2 0"),
        ],
        has_last_lf: true,
    },
    Script {
        lines: &[
            ("PUB one=7", "HIT 0 0"),
            ("SUB c one = 7", "OK 1"),
            ("PUB one=7", "HIT 1 1 c"),
        ],
        has_last_lf: false,
    },
];

fn text_of(alloc: Global, script: &Script) -> Option<Vec<u8>> {
    let mut text = Vec::new(alloc);
    for (line, _) in script.lines {
        text.extend_from_slice(line.as_bytes()).ok()?;
        text.push(b'\n').ok()?;
    }
    if !script.has_last_lf {
        let _ = text.pop();
    }
    Some(text)
}

// The end of each line, its LF included where it has one, with its reply. What lies behind the last byte
// ends nowhere.
fn ends(alloc: Global, script: &Script) -> Option<Vec<(usize, &'static str)>> {
    let mut ends = Vec::new(alloc);
    let mut end = 0usize;
    for (line, reply) in script.lines {
        end = end.saturating_add(line.len()).saturating_add(1);
        ends.push((end, *reply)).ok()?;
    }
    Some(ends)
}

// The replies to the lines that are whole within so many bytes.
fn replies_within(alloc: Global, script: &Script, given: usize) -> Option<String> {
    let mut replies = String::new(alloc);
    for (end, reply) in ends(alloc, script)? {
        if end <= given {
            replies.push_str(reply).ok()?;
            replies.push_str("\n").ok()?;
        }
    }
    Some(replies)
}

// What a run is to end with, and to leave.
#[derive(Drop)]
struct Wanted {
    status: Status,
    out: String,
    left: usize,
}

// Each read gives a piece until the text is at its end, and then nothing.
fn wanted_of_read(
    alloc: Global,
    script: &Script,
    len: usize,
    piece: usize,
    failing: usize,
) -> Option<Wanted>
    requires { 0 < piece }
{
    let given = len.min(failing.saturating_sub(1).saturating_mul(piece));
    if failing <= len.div_ceil(piece).saturating_add(1) {
        return Some(Wanted {
            status: Status::ReadFault,
            out: replies_within(alloc, script, given)?,
            left: len.saturating_sub(given),
        });
    }
    Some(Wanted {
        status: Status::Done,
        out: replies_within(alloc, script, usize::MAX)?,
        left: 0,
    })
}

// Each reply is one write, and no piece is read before a line needs it.
fn wanted_of_write(
    alloc: Global,
    script: &Script,
    len: usize,
    piece: usize,
    failing: usize,
) -> Option<Wanted>
    requires { 0 < piece }
{
    let mut out = String::new(alloc);
    let mut count = 0usize;
    for (end, reply) in ends(alloc, script)? {
        count = count.saturating_add(1);
        if count == failing {
            let given = end.div_ceil(piece).saturating_mul(piece);
            return Some(Wanted {
                status: Status::WriteFault,
                out,
                left: len.saturating_sub(given),
            });
        }
        out.push_str(reply).ok()?;
        out.push_str("\n").ok()?;
    }
    Some(Wanted {
        status: Status::Done,
        out,
        left: 0,
    })
}

fn over(text: &[u8], piece: usize, failing_read: usize, failing_write: usize) -> Setting<'_>
    requires { 0 < piece }
{
    Setting {
        words: RUN,
        schema: SCHEMA,
        load: b"",
        script: text,
        piece,
        failing_read: failing_read as u64,
        failing_write: failing_write as u64,
        failing_ask: 2,
    }
}

fn is_as_wanted(ran: &Ran, want: &Wanted) -> bool {
    is(&ran.status, &want.status)
        && ran.out.as_slice() == want.out.as_str().as_bytes()
        && ran.left == want.left as u64
}

// Whether a run in which this read fails is as it should be.
fn read_fails<R: Threads + Wait + Clock + Sync>(
    rt: &R,
    alloc: Global,
    script: &Script,
    piece: usize,
    failing: usize,
) -> Option<bool>
    requires { 0 < piece }
{
    let text = text_of(alloc, script)?;
    let want = wanted_of_read(alloc, script, text.len(), piece, failing)?;
    let ran = run(rt, alloc, &over(&text, piece, failing, 0))?;
    Some(is_as_wanted(&ran, &want))
}

// The same of a write.
fn write_fails<R: Threads + Wait + Clock + Sync>(
    rt: &R,
    alloc: Global,
    script: &Script,
    piece: usize,
    failing: usize,
) -> Option<bool>
    requires { 0 < piece }
{
    let text = text_of(alloc, script)?;
    let want = wanted_of_write(alloc, script, text.len(), piece, failing)?;
    let ran = run(rt, alloc, &over(&text, piece, 0, failing))?;
    Some(is_as_wanted(&ran, &want))
}

#[test]
fn reads_and_writes_fail(rt: HostRuntime) {
    let alloc = rt.alloc();
    for script in SCRIPTS {
        for piece in [1usize, 7, 18] {
            for failing in 1..7usize {
                let read = read_fails(&rt, alloc, script, piece, failing);
                let write = write_fails(&rt, alloc, script, piece, failing);
                let fail = read == Some(true) && write == Some(true);
                assert!(rt; fail, "call {failing} in pieces of {piece}");
            }
        }
    }
}
