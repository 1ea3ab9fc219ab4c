//! What the words after the program's name ask for, as a table.

use be_command_line::{Request, WordsFault, read_words};
use std::alloc::Global;
use std::test::Fail;

// A request, but for those that name several files.
#[derive(Clone, Copy)]
enum Wanted {
    Run {
        schema: &'static str,
        load: Option<&'static str>,
    },
    Gen {
        number: u64,
        subs: u64,
        events: u64,
    },
}

// Whether it is this one.
fn is(request: &Request<'_>, wanted: Wanted) -> bool {
    match (request, wanted) {
        (Request::Run { schema, load }, Wanted::Run { schema: s, load: l }) => {
            *schema == s && *load == l
        }
        (
            Request::Gen {
                number,
                subs,
                events,
            },
            Wanted::Gen {
                number: n,
                subs: s,
                events: e,
            },
        ) => *number == n && *subs == s && *events == e,
        _ => false,
    }
}

const READ: &[(&str, Wanted)] = &[
    (
        "run S",
        Wanted::Run {
            schema: "S",
            load: None,
        },
    ),
    (
        "run S --",
        Wanted::Run {
            schema: "S",
            load: None,
        },
    ),
    (
        "run -- S",
        Wanted::Run {
            schema: "S",
            load: None,
        },
    ),
    (
        "run -",
        Wanted::Run {
            schema: "-",
            load: None,
        },
    ),
    (
        "run -- -x",
        Wanted::Run {
            schema: "-x",
            load: None,
        },
    ),
    (
        "run -- --",
        Wanted::Run {
            schema: "--",
            load: None,
        },
    ),
    (
        "run - --",
        Wanted::Run {
            schema: "-",
            load: None,
        },
    ),
    (
        "run ",
        Wanted::Run {
            schema: "",
            load: None,
        },
    ),
    (
        "run S --load T",
        Wanted::Run {
            schema: "S",
            load: Some("T"),
        },
    ),
    (
        "run --load T S",
        Wanted::Run {
            schema: "S",
            load: Some("T"),
        },
    ),
    (
        "run --load=T -- S",
        Wanted::Run {
            schema: "S",
            load: Some("T"),
        },
    ),
    (
        "run S --load -",
        Wanted::Run {
            schema: "S",
            load: Some("-"),
        },
    ),
    (
        "run S --load=-x",
        Wanted::Run {
            schema: "S",
            load: Some("-x"),
        },
    ),
    (
        "run S --load=--",
        Wanted::Run {
            schema: "S",
            load: Some("--"),
        },
    ),
    (
        "run S --load=",
        Wanted::Run {
            schema: "S",
            load: Some(""),
        },
    ),
    (
        "run S --load ",
        Wanted::Run {
            schema: "S",
            load: Some(""),
        },
    ),
    (
        "gen 7 100000 10000",
        Wanted::Gen {
            number: 7,
            subs: 100000,
            events: 10000,
        },
    ),
    (
        "gen -- 9223372036854775807 007 0",
        Wanted::Gen {
            number: 9223372036854775807,
            subs: 7,
            events: 0,
        },
    ),
];

#[test]
fn words_are_read(rt: HostRuntime) -> Result<(), Fail> {
    let alloc = rt.alloc();
    for (words, wanted) in READ {
        let strings = split(alloc, words)?;
        let is_read = match read_words(alloc, strings.as_slice()) {
            Ok(request) => is(&request, *wanted),
            Err(_) => false,
        };
        assert!(rt; is_read, "{words}");
    }
    Ok(())
}

#[test]
fn words_are_refused(rt: HostRuntime) -> Result<(), Fail> {
    let alloc = rt.alloc();
    for words in [
        "",
        "run",
        "fly S",
        "-- run S",
        "run -x",
        "run S T",
        "run S -x",
        "run -- S --",
        "run S --load",
        "run --load S",
        "run S --load -x",
        "run S --load --",
        "run S --load --load",
        "run S --load T --load T",
        "run S --load=T --load T",
        "run S --load=T --load=T",
        "run S --Load T",
        "run S --loads T",
        "run S --=T",
        "run S --help",
        "run S -h",
        "run S -V",
        "run S ---",
        "gen 7 0",
        "gen 7 0 0 0",
        "gen x 0 0",
        "gen 7 100001 0",
        "gen 7 0 10001",
        "gen 18446744073709551616 0 0",
        "gen 9223372036854775808 0 0",
        "gen -1 0 0",
        "gen 7 0 0 --load T",
        "gen 7  0",
        "help run",
    ] {
        let strings = split(alloc, words)?;
        let is_refused = match read_words(alloc, strings.as_slice()) {
            Err(WordsFault::Refused) => true,
            _ => false,
        };
        assert!(rt; is_refused, "{words}");
    }
    Ok(())
}

// The parts between single blanks.
fn split(alloc: Global, words: &str) -> Result<Vec<String>, Fail> {
    let mut strings = Vec::new(alloc);
    if words.is_empty() {
        return Ok(strings);
    }
    for word in words.split(' ') {
        strings.push(String::from_str(alloc, word)?)?;
    }
    Ok(strings)
}
