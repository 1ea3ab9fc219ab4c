//! Lines about a limit.

ghost use Rattle.std.specs.Prelude.{◌<◌};

use crate::setting::{answers, plain};
use std::alloc::Global;
use std::sync::Wait;
use std::thread::Threads;
use std::time::Clock;

// A line of some bytes before its end, which is padded by one byte to a length.
struct Padded {
    before: &'static str,
    pad: u8,
    len: usize,
    after: &'static str,
    answer: &'static str,
}

const PADDED: &[Padded] = &[
    Padded {
        before: "",
        pad: b'x',
        len: 65536,
        after: "",
        answer: "BAD",
    },
    Padded {
        before: "",
        pad: b'x',
        len: 65537,
        after: "",
        answer: "LONG",
    },
    Padded {
        before: "",
        pad: b'x',
        len: 200_000,
        after: "",
        answer: "LONG",
    },
    Padded {
        before: "PUB price=5",
        pad: b' ',
        len: 65536,
        after: "",
        answer: "HIT 1 1 a",
    },
    Padded {
        before: "PUB price=5",
        pad: b' ',
        len: 65537,
        after: "",
        answer: "LONG",
    },
    Padded {
        before: "",
        pad: 0,
        len: 65537,
        after: "PUB price=5",
        answer: "LONG",
    },
    Padded {
        before: "",
        pad: b' ',
        len: 65525,
        after: "PUB price=5",
        answer: "HIT 1 1 a",
    },
    Padded {
        before: "",
        pad: b' ',
        len: 65526,
        after: "PUB price=5",
        answer: "LONG",
    },
    Padded {
        before: "PUB price=5 ",
        pad: b' ',
        len: 65535,
        after: "\r",
        answer: "HIT 1 1 a",
    },
    Padded {
        before: "PUB price=5 ",
        pad: b' ',
        len: 65536,
        after: "\r",
        answer: "LONG",
    },
    Padded {
        before: "SUB b price = ",
        pad: b'9',
        len: 60_000,
        after: "",
        answer: "DOM price",
    },
    Padded {
        before: "UNSUB ",
        pad: b'n',
        len: 70,
        after: "",
        answer: "NONE 1",
    },
    Padded {
        before: "UNSUB ",
        pad: b'n',
        len: 71,
        after: "",
        answer: "BAD",
    },
    Padded {
        before: "SUB b ",
        pad: b'n',
        len: 70,
        after: " = 1",
        answer: "ATTR nnnnnnnnnnnnnnnnnnnnnnnnnnnnnnnnnnnnnnnnnnnnnnnnnnnnnnnnnnnnnnnn",
    },
    Padded {
        before: "SUB b ",
        pad: b'n',
        len: 71,
        after: " = 1",
        answer: "BAD",
    },
    Padded {
        before: "SUB ",
        pad: b'n',
        len: 68,
        after: " price > 900",
        answer: "OK 2",
    },
    Padded {
        before: "SUB ",
        pad: b'n',
        len: 69,
        after: " price > 900",
        answer: "BAD",
    },
];

fn line_of(alloc: Global, line: &Padded) -> Option<Vec<u8>> {
    let pad = line.len.saturating_sub(line.before.len());
    let mut text = Vec::from_slice(alloc, line.before.as_bytes()).ok()?;
    text.extend_from_slice(&vec![in alloc; line.pad; pad].ok()?)
        .ok()?;
    text.extend_from_slice(line.after.as_bytes()).ok()?;
    Some(text)
}

// The line behind a subscription, and an event after it.
fn script_of(alloc: Global, line: &Padded) -> Option<Vec<u8>> {
    let mut script = Vec::from_slice(alloc, b"SUB a price >= 0\n").ok()?;
    script.extend_from_slice(&line_of(alloc, line)?).ok()?;
    script.extend_from_slice(b"\nPUB qty=1\n").ok()?;
    Some(script)
}

fn is_answered<R: Threads + Wait + Clock + Sync>(
    rt: &R,
    alloc: Global,
    line: &Padded,
    piece: usize,
) -> Option<bool>
    requires { 0 < piece }
{
    let script = script_of(alloc, line)?;
    let count = if line.answer == "OK 2" { 2 } else { 1 };
    let want = format!(in alloc; "OK 1\n{}\nHIT {count} 0\n", line.answer).ok()?;
    Some(answers(rt, alloc, &plain(&script, piece), want.as_bytes()))
}

#[test]
fn lines_about_a_limit(rt: HostRuntime) {
    let alloc = rt.alloc();
    for line in PADDED {
        for piece in [4096, 65535, 65536, 65537, 1_000_000usize] {
            let is_answered = is_answered(&rt, alloc, line, piece);
            assert!(rt;
                is_answered == Some(true),
                "{} bytes in pieces of {piece}",
                line.len
            );
        }
    }
}

// A part that stands some number of times between a beginning and an end, with the reply to the line.
struct Repeated {
    before: &'static str,
    first: &'static str,
    more: &'static str,
    times: usize,
    after: &'static str,
    answer: &'static str,
}

const REPEATED: &[Repeated] = &[
    Repeated {
        before: "SUB x ",
        first: "price >= 0",
        more: " and price >= 0",
        times: 32,
        after: "",
        answer: "OK 1",
    },
    Repeated {
        before: "SUB x ",
        first: "price >= 0",
        more: " and price >= 0",
        times: 33,
        after: "",
        answer: "MANY 33",
    },
    Repeated {
        before: "SUB x price in {",
        first: "1",
        more: ",1",
        times: 64,
        after: "}",
        answer: "OK 1",
    },
    Repeated {
        before: "SUB x price in {",
        first: "1",
        more: ",1",
        times: 65,
        after: "}",
        answer: "MANY 65",
    },
    Repeated {
        before: "SUB x price not in {",
        first: "1",
        more: " , 1",
        times: 1000,
        after: "}",
        answer: "MANY 1000",
    },
    Repeated {
        before: "PUB price={",
        first: "1",
        more: ",1",
        times: 64,
        after: "}",
        answer: "HIT 0 0",
    },
    Repeated {
        before: "PUB price={",
        first: "1",
        more: ",1",
        times: 65,
        after: "}",
        answer: "MANY 65",
    },
    Repeated {
        before: "PUB qty=0 price={",
        first: "1",
        more: " , 1",
        times: 1000,
        after: "} side={buy}",
        answer: "MANY 1000",
    },
    // the other refusals come first
    Repeated {
        before: "PUB price={",
        first: "1",
        more: ",1",
        times: 65,
        after: "} side=buy qty=6",
        answer: "DOM qty",
    },
    Repeated {
        before: "PUB price={",
        first: "1",
        more: ",1",
        times: 65,
        after: "} price=2",
        answer: "TWICE price",
    },
    Repeated {
        before: "PUB price={",
        first: "1",
        more: ",1",
        times: 65,
        after: "} volume=1001",
        answer: "ATTR volume",
    },
    Repeated {
        before: "SUB x price in {",
        first: "1",
        more: ",1",
        times: 65,
        after: ",1001}",
        answer: "DOM price",
    },
    Repeated {
        before: "SUB x ",
        first: "price >= 0",
        more: " and price >= 0",
        times: 40,
        after: " and volume = 1",
        answer: "ATTR volume",
    },
    Repeated {
        before: "SUB x ",
        first: "price >= 0",
        more: " and price >= 0",
        times: 40,
        after: " and",
        answer: "BAD",
    },
];

fn text_of(alloc: Global, line: &Repeated) -> Option<Vec<u8>> {
    let mut text = Vec::from_slice(alloc, line.before.as_bytes()).ok()?;
    text.extend_from_slice(line.first.as_bytes()).ok()?;
    for _ in 1..line.times {
        text.extend_from_slice(line.more.as_bytes()).ok()?;
    }
    text.extend_from_slice(line.after.as_bytes()).ok()?;
    Some(text)
}

fn are_counted<R: Threads + Wait + Clock + Sync>(
    rt: &R,
    alloc: Global,
    line: &Repeated,
) -> Option<bool> {
    let script = text_of(alloc, line)?;
    let want = format!(in alloc; "{}\n", line.answer).ok()?;
    Some(answers(rt, alloc, &plain(&script, 65536), want.as_bytes()))
}

#[test]
fn predicates_and_values_about_their_limits(rt: HostRuntime) {
    let alloc = rt.alloc();
    for line in REPEATED {
        let are_counted = are_counted(&rt, alloc, line);
        assert!(rt; are_counted == Some(true), "{}", line.answer);
    }
}
