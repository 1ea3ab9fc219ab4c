//! Covering: which rows of a load file another one covers, and what tells it from the others.

use crate::generated::ends;
use crate::setting::{SCHEMA, Setting};
use be_server::Status;

const PRICES: &str = "ROW a price < 5\nROW b price < 10\nROW c price < 5 and qty = 0\nROW d all\n\
    ROW f price > 7 and price < 3\n";

const SIDES: &str = "ROW s side in {buy,hold}\nROW t side != sell\nROW u side not in {sell}\n\
    ROW v side = buy\nROW w qty between -4 and 5 and qty != 0\nROW x qty not in {-5,0}\n";

// A load file, a name, and what is printed.
const COVERS: &[(&str, &str, &str)] = &[
    (
        PRICES,
        "a",
        "COVER b\nNOT c price=0\nCOVER d\nNOT f price=0\n",
    ),
    (
        PRICES,
        "b",
        "NOT a price=5\nNOT c price=5\nCOVER d\nNOT f price=0\n",
    ),
    (
        PRICES,
        "c",
        "COVER a\nCOVER b\nCOVER d\nNOT f price=0 qty=0\n",
    ),
    (PRICES, "d", "NOT a -\nNOT b -\nNOT c -\nNOT f -\n"),
    (PRICES, "f", "COVER a\nCOVER b\nCOVER c\nCOVER d\n"),
    (PRICES, "x", "UNKNOWN\n"),
    ("ROW a price < 5\n", "a", ""),
    (
        SIDES,
        "s",
        "COVER t\nCOVER u\nNOT v side=hold\nNOT w side=buy\nNOT x side=buy\n",
    ),
    (
        SIDES,
        "x",
        "NOT s qty=-4\nNOT t qty=-4\nNOT u qty=-4\nNOT v qty=-4\nCOVER w\n",
    ),
];

fn covering<'a>(words: &'a [&'a str], load: &'a str, failing_write: u64) -> Setting<'a> {
    Setting {
        words,
        schema: SCHEMA,
        load: load.as_bytes(),
        script: b"PUB -\n",
        piece: 18,
        failing_read: 0,
        failing_write,
        failing_ask: 3,
    }
}

#[test]
fn covered_rows_are_printed(rt: HostRuntime) {
    let alloc = rt.alloc();
    for (load, name, out) in COVERS {
        let words = ["cover", "S", "L", *name];
        let done = ends(&rt, alloc, &covering(&words, load, 0), (Status::Done, out));
        assert!(rt; done, "{name}: {out}");
    }
}
