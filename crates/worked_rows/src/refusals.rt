//! What is refused before the first line, and the codes and texts of statuses.

use crate::setting::{RUN, Ran, SCHEMA, Setting, answers, is, run};
use be_event::SchemaKind;
use be_load_files::TableKind;
use be_server::Status;
use std::alloc::Global;
use std::sync::Wait;
use std::thread::Threads;
use std::time::Clock;

const SCRIPT: &[u8] = b"SUB a price >= 10\nPUB price=10\nPUB price=9\n";

fn faulty(line: u64, kind: SchemaKind) -> Status {
    Status::SchemaBad { line, kind }
}

// A setting in which the input would be answered, if it were read.
fn refused<'a>(words: &'a [&'a str], schema: &'a [u8], failing_ask: u64) -> Setting<'a> {
    Setting {
        words,
        schema,
        load: b"",
        script: SCRIPT,
        piece: 18,
        failing_read: 0,
        failing_write: 0,
        failing_ask,
    }
}

// Whether nothing was written and nothing was read.
fn is_untouched(ran: &Ran) -> bool {
    ran.out.is_empty() && ran.left == SCRIPT.len() as u64
}

const WITHOUT_READING: &[&[&str]] = &[
    &[],
    &["run"],
    &["S"],
    &["run", "S", "S"],
    &["run", "a", "b"],
    &["run", "S", ""],
    &["fly", "S"],
    &["RUN", "S"],
    &["Run", "S"],
    &["run ", "S"],
    &["", "S"],
    &["S", "run"],
    &["--help"],
    &["--", "run", "S"],
    &["run", "-x"],
    &["run", "S", "-x"],
    &["run", "--help"],
    &["run", "-h"],
    &["run", "--"],
    &["run", "S", "T"],
    &["run", "-", "-"],
    &["run", "--", "S", "--"],
    &["run", "--load", "S"],
    &["run", "S", "--load"],
    &["run", "S", "--load", "-x"],
    &["run", "S", "--load", "--"],
    &["run", "S", "--load=S", "--load=S"],
    &["run", "S", "--loads=S"],
    &["run", "S", "---"],
];

// A run whose load file is its schema.
const LOADS_SCHEMA: &[&str] = &["run", "S", "--load", "S"];

// A run whose load file is missing.
const LOADS_NOTHING: &[&str] = &["run", "--load=-x", "S"];

// Whether the run ends so, untouched, and whether the next ask for the file is refused.
fn ends<R: Threads + Wait + Clock + Sync>(
    rt: &R,
    alloc: Global,
    setting: &Setting,
    status: Status,
) -> Option<bool> {
    let ran = run(rt, alloc, setting)?;
    if !is(&ran.status, &status) || !is_untouched(&ran) {
        return None;
    }
    Some(ran.is_next_ask_refused)
}

// No file is asked for.
#[test]
fn words_without_a_reading(rt: HostRuntime) {
    let alloc = rt.alloc();
    for words in WITHOUT_READING {
        let ends = ends(&rt, alloc, &refused(words, SCHEMA, 1), Status::Words);
        assert!(rt; ends == Some(true), "{words:?}");
    }
}

// Both files are asked for.
#[test]
fn load_files_without_rows(rt: HostRuntime) {
    let alloc = rt.alloc();
    let form = Status::LoadBad {
        line: 1,
        kind: TableKind::Form,
    };
    let faulty = ends(&rt, alloc, &refused(LOADS_SCHEMA, SCHEMA, 3), form);
    assert!(rt; faulty == Some(true), "a schema is no load file");
    let missing = ends(
        &rt,
        alloc,
        &refused(LOADS_NOTHING, SCHEMA, 3),
        Status::ReadFault,
    );
    assert!(rt; missing == Some(true), "the load file is missing");
}

// Schemas with the first line that has a fault, and its first kind.
const FAULTY: &[(&str, u64, SchemaKind)] = &[
    (
        "int price 10 1\nint qty -5 5\nint one 7 7\n",
        1,
        SchemaKind::Range,
    ),
    ("int a 0 1\nint a 0 2\n", 2, SchemaKind::Twice),
    ("int all 0 1\n", 1, SchemaKind::Reserved),
    ("int a 0\n", 1, SchemaKind::Form),
    ("int\n", 1, SchemaKind::Form),
    ("int a 0 1 2\n", 1, SchemaKind::Form),
    ("int a 0 x\n", 1, SchemaKind::Form),
    ("int a,0,1\n", 1, SchemaKind::Form),
    ("Int a 0 1\n", 1, SchemaKind::Form),
    ("sym a\n", 1, SchemaKind::Form),
    ("sym a x y x\n", 1, SchemaKind::Twice),
    ("\n# a comment\n  \nsym a x,y\n", 4, SchemaKind::Form),
    ("int between 0 1\n", 1, SchemaKind::Reserved),
    ("int a 0 2147483648\n", 1, SchemaKind::Range),
    ("int a -2147483649 0\n", 1, SchemaKind::Range),
    ("int a 0 99999999999999999999\n", 1, SchemaKind::Range),
    ("int all 5 1\nint a 0\n", 1, SchemaKind::Reserved),
    ("int a 0 1\r\n\r\nint b 1 0\r\n", 3, SchemaKind::Range),
    ("int a 0 1\nint \0 0 1\n", 2, SchemaKind::Form),
    (
        "int price 0 1000\nint qty -5 5\nint one 7",
        3,
        SchemaKind::Form,
    ),
    (
        "int price 0 1000\nint qty -5 5\nint price 8 7\n",
        3,
        SchemaKind::Twice,
    ),
];

// Words that name a file that isn't there.
const MISSING: &[&[&str]] = &[
    &["run", "missing"],
    &["run", "s"],
    &["run", ""],
    &["run", "-"],
    &["run", "--", "-x"],
    &["run", "--", "--"],
    &["run", "-", "--"],
];

// Words that are served.
const SERVED: &[&[&str]] = &[&["run", "S", "--"], &["run", "--", "S"]];

// One file is asked for.
#[test]
fn files_without_a_schema(rt: HostRuntime) {
    let alloc = rt.alloc();
    for (schema, line, kind) in FAULTY {
        let setting = refused(RUN, schema.as_bytes(), 2);
        let ends = ends(&rt, alloc, &setting, faulty(*line, *kind));
        assert!(rt; ends == Some(true), "{schema:?}");
    }
}

#[test]
fn files_that_are_missing(rt: HostRuntime) {
    let alloc = rt.alloc();
    for words in MISSING {
        let ends = ends(&rt, alloc, &refused(words, SCHEMA, 2), Status::ReadFault);
        assert!(rt; ends == Some(true), "{words:?}");
    }
    let once = ends(&rt, alloc, &refused(RUN, SCHEMA, 1), Status::ReadFault);
    assert!(rt; once == Some(false), "the shelf failed once");
}

#[test]
fn words_that_are_served(rt: HostRuntime) {
    let alloc = rt.alloc();
    let replies = b"ATTR price\nATTR price\nATTR price\n";
    for words in SERVED {
        assert!(rt;
            answers(&rt, alloc, &refused(words, b"", 2), replies),
            "{words:?}"
        );
    }
}

#[test]
fn a_schema_without_attributes(rt: HostRuntime) {
    let replies = b"ATTR price\nATTR price\nATTR price\n";
    let is_right = answers(&rt, rt.alloc(), &refused(RUN, b"", 2), replies);
    assert!(rt; is_right);
}

fn has(alloc: Global, status: &Status, code: u8, text: &str) -> Option<bool> {
    let shown = format!(in alloc; "{status}").ok()?;
    Some(status.code() == code && shown.as_str() == text)
}

#[test]
fn codes_and_texts(rt: HostRuntime) {
    let alloc = rt.alloc();
    let rows: [(Status, u8, &str); 13] = [
        (Status::Done, 0, ""),
        (Status::Words, 2, "words refused"),
        (
            Status::SchemaBad {
                line: 1,
                kind: SchemaKind::Form,
            },
            3,
            "schema line 1: Form",
        ),
        (
            Status::SchemaBad {
                line: 3,
                kind: SchemaKind::Reserved,
            },
            3,
            "schema line 3: Reserved",
        ),
        (
            Status::SchemaBad {
                line: 4,
                kind: SchemaKind::Twice,
            },
            3,
            "schema line 4: Twice",
        ),
        (
            Status::SchemaBad {
                line: 5,
                kind: SchemaKind::Range,
            },
            3,
            "schema line 5: Range",
        ),
        (
            Status::SchemaBad {
                line: 6,
                kind: SchemaKind::Many,
            },
            3,
            "schema line 6: Many",
        ),
        (
            Status::LoadBad {
                line: 6,
                kind: TableKind::Many,
            },
            3,
            "load line 6: Many",
        ),
        (Status::ReadFault, 4, "read fault"),
        (Status::LongFile, 4, "file over 67108864 bytes"),
        (Status::WriteFault, 5, "write fault"),
        (Status::NoMemory, 6, "out of memory"),
        (Status::Spent, 8, "input over 1099511627776 bytes"),
    ];
    for (status, code, text) in &rows {
        assert!(rt; has(alloc, status, *code, text) == Some(true), "{text}");
    }
}
