//! Sessions, lines, replies and files of great size, with memory enough.

use crate::setting::{RUN, Setting, answers, is, plain, run};
use be_server::Status;
use std::alloc::Global;
use std::sync::Wait;
use std::thread::Threads;
use std::time::Clock;

// A script, and the transcript that it is to have.
#[derive(Drop)]
struct Session {
    script: String,
    wanted: String,
}

impl Session {
    fn make(alloc: Global) -> Session {
        Session {
            script: String::new(alloc),
            wanted: String::new(alloc),
        }
    }

    fn ask(&mut self, line: &str, reply: &str) -> Option<()> {
        put_line(&mut self.script, line)?;
        put_line(&mut self.wanted, reply)
    }

    fn is_answered<R: Threads + Wait + Clock + Sync>(&self, rt: &R, alloc: Global) -> bool {
        let setting = plain(self.script.as_bytes(), 65536);
        answers(rt, alloc, &setting, self.wanted.as_bytes())
    }
}

fn put_line(text: &mut String, line: &str) -> Option<()> {
    text.push_str(line).ok()?;
    text.push('\n').ok()
}

const CHANGES: u64 = 2000;

// The names of the changes up to this one that ask for its value.
fn found_at(alloc: Global, i: u64) -> Option<String> {
    let mut found = String::new(alloc);
    for earlier in 0..=i {
        if earlier % 500 == i % 500 {
            let name = format!(in alloc; " s{earlier}").ok()?;
            found.push_str(name.as_str()).ok()?;
        }
    }
    Some(found)
}

// A change, and an event that finds it and those that were made 500 changes before it.
fn change_and_event(alloc: Global, session: &mut Session, i: u64) -> Option<()> {
    let (value, n, count) = (i % 500, i.saturating_add(1), i / 500 + 1);
    let line = format!(in alloc; "SUB s{i} price = {value}\nPUB price={value}").ok()?;
    let found = found_at(alloc, i)?;
    let reply = format!(in alloc; "OK {n}\nHIT {n} {count}{found}").ok()?;
    session.ask(line.as_str(), reply.as_str())
}

fn changes_and_events(alloc: Global) -> Option<Session> {
    let mut session = Session::make(alloc);
    for i in 0..CHANGES {
        change_and_event(alloc, &mut session, i)?;
    }
    Some(session)
}

#[test]
fn two_thousand_changes(rt: HostRuntime) {
    let alloc = rt.alloc();
    let session = changes_and_events(alloc).expect(&rt, "memory");
    assert!(rt; session.is_answered(&rt, alloc));
}

// As many letters as a box holds, one more that is dropped, and then a fetch of all.
fn of_letters(alloc: Global) -> Option<Session> {
    let mut session = Session::make(alloc);
    session.ask("SUB a all", "OK 1")?;
    for _ in 0..1024 {
        session.ask("SEND -", "SENT 1 1 0")?;
    }
    session.ask("SEND -", "SENT 1 0 1")?;
    put_line(&mut session.script, "FETCH 2000")?;
    for _ in 0..1024 {
        put_line(&mut session.wanted, "NOTE 1 a -")?;
    }
    put_line(&mut session.wanted, "END 1024")?;
    session.ask("FETCH 5", "END 0")?;
    Some(session)
}

#[test]
fn a_full_box(rt: HostRuntime) {
    let alloc = rt.alloc();
    let session = of_letters(alloc).expect(&rt, "memory");
    assert!(rt; session.is_answered(&rt, alloc));
}

// As many names of 64 bytes as make a reply of 70,000 bytes, and of 1,000,000 bytes.
const NAMES: [u64; 2] = [1077, 15385];

fn change_of_a_long_name(
    alloc: Global,
    session: &mut Session,
    names: &mut String,
    n: u64,
) -> Option<()> {
    let name = format!(in alloc; " {n:064}").ok()?;
    names.push_str(name.as_str()).ok()?;
    let line = format!(in alloc; "SUB{name} all").ok()?;
    let reply = format!(in alloc; "OK {n}").ok()?;
    session.ask(line.as_str(), reply.as_str())
}

fn long_lists(alloc: Global, session: &mut Session, names: &str, n: u64) -> Option<()> {
    let reply = format!(in alloc; "HIT {n} {n}{names}\nLIST {n} {n}{names}").ok()?;
    session.ask("PUB -\nLIST", reply.as_str())
}

// The session, and how long the names of its last list are.
fn with_long_names(alloc: Global) -> Option<(Session, usize)> {
    let mut session = Session::make(alloc);
    let mut names = String::new(alloc);
    for n in 1..NAMES[1] + 1 {
        change_of_a_long_name(alloc, &mut session, &mut names, n)?;
        if n == NAMES[0] || n == NAMES[1] {
            long_lists(alloc, &mut session, names.as_str(), n)?;
        }
    }
    Some((session, names.len()))
}

#[test]
fn long_replies(rt: HostRuntime) {
    let alloc = rt.alloc();
    let (session, len) = with_long_names(alloc).expect(&rt, "memory");
    assert!(rt; len > 1_000_000 && session.is_answered(&rt, alloc));
}

// 64 numbers of 29 digits.
fn long_set(alloc: Global) -> Option<String> {
    let mut set = String::new(alloc);
    for value in 0..64 {
        let comma = if value == 0 { "" } else { "," };
        set.push_str(format!(in alloc; "{comma}{value:029}").ok()?.as_str())
            .ok()?;
    }
    Some(set)
}

// 32 predicates, each with such a set.
fn long_condition(alloc: Global) -> Option<String> {
    let set = long_set(alloc)?;
    let mut condition = String::new(alloc);
    for i in 0..32 {
        let joiner = if i == 0 { "" } else { " and " };
        let pred = format!(in alloc; "{joiner}price in {{{set}}}").ok()?;
        condition.push_str(pred.as_str()).ok()?;
    }
    Some(condition)
}

fn zeros(alloc: Global) -> Option<String> {
    let mut zeros = String::new(alloc);
    for _ in 0..60_000 {
        zeros.push('0').ok()?;
    }
    Some(zeros)
}

// The session, and how long the condition in it is.
fn of_long_lines(alloc: Global) -> Option<(Session, usize)> {
    let mut session = Session::make(alloc);
    let condition = long_condition(alloc)?;
    let zeros = zeros(alloc)?;
    let lines = format!(in alloc;
        "SUB a {condition}\nPUB price={zeros}63\nPUB price={zeros}64"
    ).ok()?;
    session.ask(lines.as_str(), "OK 1\nHIT 1 1 a\nHIT 1 0")?;
    Some((session, condition.len()))
}

#[test]
fn long_lines(rt: HostRuntime) {
    let alloc = rt.alloc();
    let (session, len) = of_long_lines(alloc).expect(&rt, "memory");
    assert!(rt; len > 60_000 && session.is_answered(&rt, alloc));
}

// Whether a run over a schema that is a comment alone, without attributes, ends so.
fn ends<R: Threads + Wait + Clock + Sync>(
    rt: &R,
    alloc: Global,
    schema: &[u8],
    wanted: (Status, &[u8], u64),
) -> bool {
    let setting = Setting {
        words: RUN,
        schema,
        load: b"",
        script: b"PUB -\n",
        piece: 18,
        failing_read: 0,
        failing_write: 0,
        failing_ask: 2,
    };
    let (status, out, left) = wanted;
    match run(rt, alloc, &setting) {
        Some(ran) => is(&ran.status, &status) && ran.out.as_slice() == out && ran.left == left,
        None => false,
    }
}

#[test]
fn files_about_the_limit(rt: HostRuntime) {
    let alloc = rt.alloc();
    let schema = vec![in alloc; b'#'; 67_108_865].expect(&rt, "memory");
    let longer = schema.as_slice();
    assert!(rt; ends(&rt, alloc, longer, (Status::LongFile, b"", 6)));
    let whole = longer.split_last().map_or(longer, |(_, rest)| rest);
    assert!(rt; ends(&rt, alloc, whole, (Status::Done, b"HIT 0 0\n", 0)));
}
