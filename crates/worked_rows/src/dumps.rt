//! Sessions that send and fetch letters, and sessions that print the live rows or the list of changes.

use crate::rows::{PIECES, is_bad, is_session};

// Scripts with their transcripts.
pub(crate) const SESSIONS: &[(&str, &str)] = &[
    // letters are fetched once, in their order
    (
        "SUB a all\nSEND price=1\nSUB b price < 5\nSEND side=buy price=1\nSEND price=7\nFETCH 2\nFETCH 5\nFETCH 5\n",
        "OK 1\nSENT 1 1 0\nOK 2\nSENT 2 2 0\nSENT 2 1 0\nNOTE 1 a price=1\nNOTE 2 a price=1 side=buy\nEND 2\nNOTE 2 b price=1 side=buy\nNOTE 2 a price=7\nEND 2\nEND 0\n",
    ),
    // a letter outlasts its row
    (
        "SUB a all\nSEND -\nUNSUB a\nSEND -\nFETCH 9\n",
        "OK 1\nSENT 1 1 0\nOK 2\nSENT 2 0 0\nNOTE 1 a -\nEND 1\n",
    ),
    (
        "SEND volume=1\nSEND price=1001\nSEND price=1 price=2\nSEND -\nFETCH 0\nFETCH 1000000\n",
        "ATTR volume\nDOM price\nTWICE price\nSENT 0 0 0\nEND 0\nEND 0\n",
    ),
    // each live row in the order of acceptance, its condition in its one form
    (
        "DUMP\nSUB b price<5 and side in {sell,buy,buy}\nSUB a all\nDUMP\nUNSUB b\nDUMP\n",
        "# DUMP 0 0\nOK 1\nOK 2\nROW b price < 5 and side in {buy,sell}\nROW a all\n# DUMP 2 2\nOK 3\nROW a all\n# DUMP 3 1\n",
    ),
    // the list from a place on
    (
        "SUB a all\nSUB b price < 5\nTAIL 1 5\nUNSUB a\nTAIL 0 2\nTAIL 9 1\nQUIT\n",
        "OK 1\nOK 2\nAT 1 SUB 1 1 b price < 5\nTAILED 2 1\nOK 3\nAT 0 SUB 1 0 a all\nAT 1 SUB 1 1 b price < 5\nTAILED 3 2\nTAILED 3 0\nBYE 4\n",
    ),
    (
        "SUB a all\nUNSUB a\nTAIL 0 0\nTAIL 1 1000000\nTAIL 9223372036854775807 1\n",
        "OK 1\nOK 2\nTAILED 2 0\nAT 1 UNSUB 1 1 a\nTAILED 2 1\nTAILED 2 0\n",
    ),
];

// Lines without a reading.
const HOSTILE: &[&str] = &[
    "SEND price",
    "SEND price=1 -",
    "send -",
    "FETCH a",
    "FETCH -1",
    "FETCH +1",
    "FETCH 1 2 3",
    "FETCH 1 60001",
    "FETCH 1 =",
    "FETCH 1000001",
    "FETCH {1}",
    "DUMP 1",
    "DUMP -",
    "dump",
    "TAIL",
    "TAIL 1",
    "TAIL 1 2 3 4",
    "TAIL 1 2 60001",
    "TAIL 0 1000001",
    "TAIL -1 1",
    "TAIL 0 -1",
    "TAIL a 1",
    "TAIL 9223372036854775808 1",
    "tail 0 1",
];

#[test]
fn sessions_with_letters_and_lists(rt: HostRuntime) {
    let alloc = rt.alloc();
    for (script, want) in SESSIONS {
        for piece in PIECES {
            let is_session = is_session(&rt, alloc, script, want, piece);
            assert!(rt; is_session, "in pieces of {piece}: {script}");
        }
    }
}

#[test]
fn lines_of_letters_and_lists_without_a_reading(rt: HostRuntime) {
    let alloc = rt.alloc();
    for line in HOSTILE {
        assert!(rt; is_bad(&rt, alloc, line.as_bytes()), "after {line:?}");
    }
}
