//! Sessions over an opening table, and load files that are refused.

use crate::setting::{Setting, is, loading, run};
use be_server::Status;
use std::alloc::Global;
use std::sync::Wait;
use std::thread::Threads;
use std::time::Clock;

// Load files, scripts, and transcripts.
const LOADED: &[(&str, &str, &str)] = &[
    (
        "# t\nROW a all\nROW b price < 5\n",
        "PUB price=1\nSUB a all\nUNSUB b\nSUB c all\nLIST\nSEND price=9\nDUMP\nQUIT\n",
        "HIT 2 2 a b\nDUP 2 0\nOTHER 2 1\nOK 3\nLIST 3 1 c\nSENT 3 1 1\nROW a all\nROW b price < 5\nROW c all\n# DUMP 3 3\nBYE 4\n",
    ),
    // what a DUMP printed is a load file of the same rows
    (
        "ROW a all\nROW b price < 5\nROW c all\n# DUMP 3 3\n",
        "DUMP\nSEND price=9\nFETCH 5\nLIST\nTAIL 1 1\nUNSUB c\n",
        "ROW a all\nROW b price < 5\nROW c all\n# DUMP 3 3\nSENT 3 0 2\nEND 0\nLIST 3 0\nAT 1 SUB 0 1 b price < 5\nTAILED 3 1\nOTHER 3 2\n",
    ),
    ("", "DUMP\nQUIT\n", "# DUMP 0 0\nBYE 1\n"),
];

// Load files, with the text of the status.
const REFUSED: &[(&str, &str)] = &[
    ("ROW a all\nROW a all\n", "load line 2: Twice"),
    ("SUB a all\n", "load line 1: Form"),
    ("ROW a volume = 1\n", "load line 1: Attr"),
    ("ROW a price = 1001\n", "load line 1: Dom"),
    // the first line that has a fault
    ("ROW a all\n# t\nROW b\nROW a all\n", "load line 3: Form"),
];

const SCRIPT: &[u8] = b"PUB price=1\n";

// Whether a run is refused with this code and text, before anything is read or written.
fn is_refused<R: Threads + Wait + Clock + Sync>(
    rt: &R,
    alloc: Global,
    setting: &Setting,
    code: u8,
    text: &str,
) -> Option<bool> {
    let ran = run(rt, alloc, setting)?;
    let shown = format!(in alloc; "{}", ran.status).ok()?;
    let is_untouched = ran.out.is_empty() && ran.left == setting.script.len() as u64;
    Some(is_untouched && ran.status.code() == code && shown.as_str() == text)
}

#[test]
fn sessions_over_a_table(rt: HostRuntime) {
    let alloc = rt.alloc();
    for (load, script, want) in LOADED {
        let setting = loading(load.as_bytes(), script.as_bytes());
        let is_right = match run(&rt, alloc, &setting) {
            Some(ran) => is(&ran.status, &Status::Done)
                && ran.out.as_slice() == want.as_bytes()
                && ran.left == 0
                && ran.is_next_ask_refused,
            None => false,
        };
        assert!(rt; is_right, "{load:?}: {script}");
    }
}

#[test]
fn load_files_with_a_fault(rt: HostRuntime) {
    let alloc = rt.alloc();
    for (load, text) in REFUSED {
        let setting = loading(load.as_bytes(), SCRIPT);
        let is_refused = is_refused(&rt, alloc, &setting, 3, text);
        assert!(rt; is_refused == Some(true), "{load:?}");
    }
}

// The schema is asked for first, and then the load file, which is judged only where the schema has no fault.
#[test]
fn asks_for_two_files(rt: HostRuntime) {
    let alloc = rt.alloc();
    for failing in 1..3u64 {
        let mut setting = loading(b"ROW a all\n", SCRIPT);
        setting.failing_ask = failing;
        let is_refused = is_refused(&rt, alloc, &setting, 4, "read fault");
        assert!(rt; is_refused == Some(true), "ask {failing}");
    }
    let mut setting = loading(b"SUB a all\n", SCRIPT);
    setting.schema = b"int a 0\n";
    let is_refused = is_refused(&rt, alloc, &setting, 3, "schema line 1: Form");
    assert!(rt; is_refused == Some(true), "both have a fault");
}
