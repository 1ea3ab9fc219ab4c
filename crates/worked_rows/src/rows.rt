//! Sessions that are read to their end.

ghost use Rattle.std.specs.Prelude.{◌<◌};

use crate::setting::{answers, is, plain, run};
use be_server::Status;
use std::alloc::Global;
use std::sync::Wait;
use std::thread::Threads;
use std::time::Clock;

pub(crate) const PIECES: [usize; 4] = [1, 7, 18, 65536];

// Scripts with their transcripts.
pub(crate) const SESSIONS: &[(&str, &str)] = &[
    ("", ""),
    (
        "SUB a price >= 10\nPUB price=10\nPUB price=9\n",
        "OK 1\nHIT 1 1 a\nHIT 1 0\n",
    ),
    // a name that is live
    (
        "SUB a all\nSUB a all\nPUB -\n",
        "OK 1\nDUP 1 0\nHIT 1 1 a\n",
    ),
    (
        "SUB a price < 5\nSUB b price < 6\nSUB b price > 7\nSUB a price = 8\nSUB c price < 7\nPUB price=8\nPUB price=5\nPUB price=4\n",
        "OK 1\nOK 2\nDUP 2 1\nDUP 2 0\nOK 3\nHIT 3 0\nHIT 3 2 b c\nHIT 3 3 a b c\n",
    ),
    // unequal, at both ends of a domain
    (
        "SUB b qty != -5\nPUB qty=-5\nPUB qty=5\nPUB price=1\n",
        "OK 1\nHIT 1 0\nHIT 1 1 b\nHIT 1 0\n",
    ),
    ("SUB o one != 7\nPUB one=7\n", "OK 1\nHIT 1 0\n"),
    // conditions that no value satisfies
    (
        "SUB c qty between 3 and -3\nSUB d price < 0\nSUB f price > 1000\nPUB price=0 qty=0\nPUB price=1000 qty=3\n",
        "OK 1\nOK 2\nOK 3\nHIT 3 0\nHIT 3 0\n",
    ),
    (
        "SUB h price > 500 and price < 400\nPUB price=450\n",
        "OK 1\nHIT 1 0\n",
    ),
    // an event gives a set of values, and each predicate asks for one of them
    (
        "SUB h price > 500 and price < 400\nPUB price={100, 900}\nPUB price=450\n",
        "OK 1\nHIT 1 1 h\nHIT 1 0\n",
    ),
    (
        "SUB a price < 5 and price > 900\nSUB b price != 5\nPUB price={3,950}\nPUB price={3, 4}\nPUB price={5,5}\nPUB price={}\nPUB price={1,1001}\n",
        "OK 1\nOK 2\nHIT 2 2 a b\nHIT 2 1 b\nHIT 2 0\nBAD\nDOM price\n",
    ),
    (
        "SUB a side in {hold} and qty = 0\nSUB b side not in {hold}\nPUB side={hold,hold} qty={-5 , -0}\nPUB qty={1,2,3} side={ hold,buy }\nPUB side={hold,cash}\nPUB price={1} price={2}\nPUB cost={1} price={1001}\n",
        "OK 1\nOK 2\nHIT 2 1 a\nHIT 2 1 b\nDOM side\nTWICE price\nATTR cost\n",
    ),
    // symbols, and sets that hold of what they don't name
    (
        "SUB g side not in {buy, sell}\nPUB side=hold\nPUB side=buy\nPUB qty=0\n",
        "OK 1\nHIT 1 1 g\nHIT 1 0\nHIT 1 0\n",
    ),
    (
        "SUB s side in {sell,buy,buy}\nSUB o side >= sell\nPUB side=buy\nPUB side=sell\nPUB side=hold\n",
        "OK 1\nOK 2\nHIT 2 1 s\nHIT 2 2 s o\nHIT 2 1 o\n",
    ),
    // several predicates, and an event of several items in any order
    (
        "SUB m price between 10 and 20 and side = buy and qty != 0\nPUB qty=1 side=buy price=15\nPUB qty=0 side=buy price=15\nPUB price=15 side=buy\nPUB side=sell qty=1 price=15\n",
        "OK 1\nHIT 1 1 m\nHIT 1 0\nHIT 1 0\nHIT 1 0\n",
    ),
    // the six comparisons, in the order of acceptance
    (
        "SUB lt price < 5\nSUB le price <= 5\nSUB eq price = 5\nSUB ne price != 5\nSUB ge price >= 5\nSUB gt price > 5\nPUB price=4\nPUB price=5\nPUB price=6\n",
        "OK 1\nOK 2\nOK 3\nOK 4\nOK 5\nOK 6\nHIT 6 3 lt le ne\nHIT 6 3 le eq ge\nHIT 6 3 ne ge gt\n",
    ),
    (
        "SUB z price < 5\nSUB y price < 5\nSUB x price < 5\nPUB price=4\n",
        "OK 1\nOK 2\nOK 3\nHIT 3 3 z y x\n",
    ),
    // each refusal, and the first of two
    (
        "SUB x price = 1001\nSUB x price = 99999999999999999999\nSUB x side = 3\nSUB x volume = 1\nSUB x price = 1001 and volume = 1\nSUB x price == 5\nPUB price=1 price=2\nPUB price=1001 price=2\n",
        "DOM price\nDOM price\nDOM side\nATTR volume\nATTR volume\nBAD\nTWICE price\nDOM price\n",
    ),
    (
        "SUB x 5 = price\nPUB 5=5\nSUB x qty = 6 and price = -1\nPUB qty=6 price=-1\nPUB volume=1 price=1001\nPUB price=1 qty=0 price=3 qty=9\nPUB price=1 qty=0 qty=0 price=1\n",
        "ATTR 5\nATTR 5\nDOM qty\nDOM qty\nATTR volume\nDOM qty\nTWICE qty\n",
    ),
    // removal, and a name that is used again
    (
        "SUB a all\nUNSUB a\nUNSUB a\nSUB a all\nSUB a all\nPUB -\n",
        "OK 1\nOK 2\nNONE 2\nOK 3\nDUP 3 2\nHIT 3 1 a\n",
    ),
    (
        "SUB ab all\nSUB a all\nSUB abc all\nUNSUB ab\nUNSUB x\nLIST\nPUB -\nUNSUB abc\nUNSUB a\nLIST\n",
        "OK 1\nOK 2\nOK 3\nOK 4\nNONE 4\nLIST 4 2 a abc\nHIT 4 2 a abc\nOK 5\nOK 6\nLIST 6 0\n",
    ),
    // a list, and what follows a QUIT
    (
        "SUB a all\nSUB b price < 5\nLIST\nUNSUB a\nLIST\nQUIT\nPUB -\n",
        "OK 1\nOK 2\nLIST 2 2 a b\nOK 3\nLIST 3 1 b\nBYE 4\n",
    ),
    ("QUIT", "BYE 1\n"),
    ("LIST\n QUIT \nQUIT\n", "LIST 0 0\nBYE 1\n"),
    // an event without the attribute satisfies nothing of it
    (
        "SUB a price >= 0\nSUB b qty >= -5\nSUB c one = 7\nPUB qty=0\nPUB one=7\nPUB -\n",
        "OK 1\nOK 2\nOK 3\nHIT 3 1 b\nHIT 3 1 c\nHIT 3 0\n",
    ),
    // blanks, and numbers in longer forms
    (
        "\tSUB  a\tprice>=10 and qty<=1 and side in{buy ,hold}\nPUB price = 010 qty=-0 side=hold\n PUB\tprice=0010\t\n",
        "OK 1\nHIT 1 1 a\nHIT 1 0\n",
    ),
    // names may be any words, and so may values
    (
        "SUB SUB price > 5\nSUB all price > 5\nSUB -5 price > 5\nSUB A_b.c-9 price > 5\nPUB price=6\nUNSUB all\nUNSUB -5\nLIST\n",
        "OK 1\nOK 2\nOK 3\nOK 4\nHIT 4 4 SUB all -5 A_b.c-9\nOK 5\nOK 6\nLIST 6 2 SUB A_b.c-9\n",
    ),
    (
        "SUB a side = and\nSUB a side between and and all\nPUB side=in\n",
        "DOM side\nDOM side\nDOM side\n",
    ),
    // CR before LF, and a last line without LF
    (
        "SUB a all\r\nPUB -\r\nLIST\r\nPUB -",
        "OK 1\nHIT 1 1 a\nLIST 1 1 a\nHIT 1 1 a\n",
    ),
    ("SUB a all\nPUB -\r", "OK 1\nBAD\n"),
    ("SUB a all\r\r\nPUB -\n", "BAD\nHIT 0 0\n"),
    (
        "PUB price=1\n\n\r\nPUB price=2\n",
        "HIT 0 0\nBAD\nBAD\nHIT 0 0\n",
    ),
    ("\n", "BAD\n"),
];

// Lines without a reading.
const HOSTILE: &[&str] = &[
    "",
    " ",
    "SUB",
    "SUB b",
    "SUB b price",
    "SUB b price >=",
    "SUB b price >= 5 5",
    "SUB b price >= 5 ,",
    "SUB price >= 5",
    "SUBb price >= 5",
    "SUB bprice >= 5",
    "sub b price >= 5",
    "Sub b price >= 5",
    "XUB b price >= 5",
    "b price >= 5",
    "SUB = price >= 5",
    "SUB { price >= 5",
    "SUB b >= price 5",
    "SUB b price == 5",
    "SUB b price => 5",
    "SUB b price =< 5",
    "SUB b price <> 5",
    "SUB b price > = 5",
    "SUB b price ! = 5",
    "SUB b price ! 5",
    "SUB b price !5",
    "SUB b price , 5",
    "SUB b price { 5",
    "SUB b price is 5",
    "SUB b price >= +5",
    "SUB b price >= 5 price <= 7",
    "SUB b price >= 5\0",
    "\0SUB b price >= 5",
    "SUB b\0price >= 5",
    "\0",
    "SUB \u{e9} price >= 5",
    "SUB b price >= 5;",
    "SUB b price >= 5 # all",
    "# SUB b price >= 5",
    "SUB b price >= \"5\"",
    "PUB",
    "PUB price",
    "PUB price=",
    "PUB =5",
    "PUB price=5,",
    "PUB price=5 -",
    "PUB price==5",
    "PUB price<=5",
    "PUB price!=5",
    "PUB price 5",
    "PUB price={",
    "PUB price={}",
    "PUB price={5",
    "PUB price=5}",
    "PUB price={5,}",
    "PUB price={,5}",
    "PUB price={5 6}",
    "PUB price={{5}}",
    "PUB price {5}",
    "PUB price in {5}",
    "PUB price={5}{6}",
    "PUB {5}=price",
    "PUB {-}",
    "PUBprice=5",
    "pub price=5",
    "SUB b all all",
    "SUB b all and price >= 5",
    "SUB b price >= 5 and",
    "SUB b and price >= 5",
    "SUB b price >= 5 and and qty = 0",
    "SUB b price >= 5 or qty = 0",
    "SUB b all >= 5",
    "SUB b in in {5}",
    "SUB b price between 1",
    "SUB b price between 1 and",
    "SUB b price between 1 2",
    "SUB b price between 1 , 2",
    "SUB b price in",
    "SUB b price in 5",
    "SUB b price in {}",
    "SUB b price in {5",
    "SUB b price in 5}",
    "SUB b price in {5,}",
    "SUB b price in {,5}",
    "SUB b price in {5 6}",
    "SUB b price in {5,,6}",
    "SUB b price in {{5}}",
    "SUB b price not {5}",
    "SUB b price not 5",
    "SUB b price in not {5}",
    "SUB b price notin {5}",
    "SUB b price >= 5\r\r",
    "PUB - -",
    "PUB - price=5",
    "PUB price=5 qty",
    "PUB price=5 qty=",
    "PUB all=5",
    "PUB in=5",
    "PUB price=5, qty=1",
    "UNSUB",
    "UNSUB a a",
    "UNSUB =",
    "UNSUB a,",
    "UNSUBa",
    "unsub a",
    "LIST a",
    "LIST -",
    "LIST,",
    "list",
    "LISTS",
    "QUIT 1",
    "QUIT!",
    "quit",
    "QUITQUIT",
    "BYE",
    "OK 1",
    "COST",
    "COST -x",
    "COSTS -",
    "SEND",
    "FETCH",
];

// The same, of bytes that are no text.
const HOSTILE_BYTES: &[&[u8]] = &[b"SUB b price >= 5\xff", b"SUB b pric\xe9 >= 5", b"\xff\xfe"];

// Whether a session has this transcript; after a QUIT the rest stays unread.
pub(crate) fn is_session<R: Threads + Wait + Clock + Sync>(
    rt: &R,
    alloc: Global,
    script: &str,
    want: &str,
    piece: usize,
) -> bool
    requires { 0 < piece }
{
    let Some(ran) = run(rt, alloc, &plain(script.as_bytes(), piece)) else {
        return false;
    };
    let is_read = script.contains("QUIT") || ran.left == 0;
    is(&ran.status, &Status::Done)
        && ran.out.as_slice() == want.as_bytes()
        && is_read
        && ran.is_next_ask_refused
}

#[test]
fn sessions_read_to_the_end(rt: HostRuntime) {
    let alloc = rt.alloc();
    for (script, want) in SESSIONS {
        for piece in PIECES {
            let is_session = is_session(&rt, alloc, script, want, piece);
            assert!(rt; is_session, "in pieces of {piece}: {script}");
        }
    }
}

// The line behind a subscription, and an event after it.
fn around(alloc: Global, line: &[u8]) -> Option<Vec<u8>> {
    let mut script = Vec::from_slice(alloc, b"SUB a price >= 0\n").ok()?;
    script.extend_from_slice(line).ok()?;
    script.extend_from_slice(b"\nPUB price=5\n").ok()?;
    Some(script)
}

pub(crate) fn is_bad<R: Threads + Wait + Clock + Sync>(rt: &R, alloc: Global, line: &[u8]) -> bool {
    match around(alloc, line) {
        Some(script) => answers(rt, alloc, &plain(&script, 7), b"OK 1\nBAD\nHIT 1 1 a\n"),
        None => false,
    }
}

#[test]
fn lines_without_a_reading(rt: HostRuntime) {
    let alloc = rt.alloc();
    for line in HOSTILE {
        assert!(rt; is_bad(&rt, alloc, line.as_bytes()), "after {line:?}");
    }
}

#[test]
fn bytes_without_a_reading(rt: HostRuntime) {
    let alloc = rt.alloc();
    for line in HOSTILE_BYTES {
        assert!(rt; is_bad(&rt, alloc, line), "after {line:?}");
    }
}

const TRADES: &[u8] =
    b"# trades\nsym symbol ACME BOLT CORE DYNE\nsym side buy sell\nint price_cents 1 100000000\nint size 1 1000000\nsym venue NYX LDN TKO\n";

const TRADES_SCRIPT: &str =
    "SUB acme-cheap symbol = ACME and price_cents <= 25000\nSUB big-sells side = sell and size >= 10000\nSUB not-ldn symbol in {BOLT,CORE} and venue != LDN\nPUB symbol=ACME side=sell price_cents=24950 size=12000 venue=LDN\nPUB symbol=CORE side=buy price_cents=100 size=5\nPUB symbol=CORE side=buy price_cents=100 size=5 venue=TKO\nUNSUB big-sells\nPUB symbol=ACME side=sell price_cents=24950 size=12000 venue=LDN\nQUIT\n";

const TRADES_REPLIES: &str =
    "OK 1\nOK 2\nOK 3\nHIT 3 2 acme-cheap big-sells\nHIT 3 0\nHIT 3 1 not-ldn\nOK 4\nHIT 4 1 acme-cheap\nBYE 5\n";

#[test]
fn a_trading_day(rt: HostRuntime) {
    let alloc = rt.alloc();
    for piece in PIECES {
        let mut setting = plain(TRADES_SCRIPT.as_bytes(), piece);
        setting.schema = TRADES;
        let is_right = match run(&rt, alloc, &setting) {
            Some(ran) => is(&ran.status, &Status::Done)
                && ran.out.as_slice() == TRADES_REPLIES.as_bytes(),
            None => false,
        };
        assert!(rt; is_right, "in pieces of {piece}");
    }
}

const MIXED: &str =
    "SUB a price >= 10 and side in {buy,hold}\r\nSUB a all\n\r\n  SUB b\tprice between 5 and 15 and qty != 0\nSUB x volume = 1\nPUB side=buy price=12 qty=3\r\nPUB price=1001\nLIST\nUNSUB a\r\nUNSUB a\nPUB price=12 price=13\nPUB -\nPUB qty=-5 price=5\nSUB a not in {1}\nSUB c one in {7,7} and side not in {sell}\nPUB one=7 side=hold price=7 qty=-1\nLIST\nCOST -\nQUIT\nLIST\n";

const MIXED_REPLIES: &str =
    "OK 1\nDUP 1 0\nBAD\nOK 2\nATTR volume\nHIT 2 2 a b\nDOM price\nLIST 2 2 a b\nOK 3\nNONE 3\nTWICE price\nHIT 3 0\nHIT 3 1 b\nBAD\nOK 4\nHIT 4 2 b c\nLIST 4 2 b c\nCOST 4 1 2\nBYE 5\n";

// A first line as long as the script makes each piece that ends within the script the first of two reads.
fn mixed_script(alloc: Global) -> Option<Vec<u8>> {
    let mut script = vec![in alloc; b'x'; MIXED.len()].ok()?;
    script.push(b'\n').ok()?;
    script.extend_from_slice(MIXED.as_bytes()).ok()?;
    Some(script)
}

// The first place at which a cut changes something.
fn wrong_cut<R: Threads + Wait + Clock + Sync>(rt: &R, alloc: Global) -> Option<Option<usize>> {
    let script = mixed_script(alloc)?;
    let want = format!(in alloc; "BAD\n{MIXED_REPLIES}").ok()?;
    for piece in MIXED.len() + 1..script.len() + 1 {
        let ran = run(rt, alloc, &plain(&script, piece))?;
        if !is(&ran.status, &Status::Done) || ran.out.as_slice() != want.as_bytes() {
            return Some(Some(piece));
        }
    }
    Some(None)
}

#[test]
fn a_mixed_script_cut_at_every_place(rt: HostRuntime) {
    let wrong = wrong_cut(&rt, rt.alloc());
    assert!(rt; wrong == Some(None), "cut at {wrong:?}");
}
