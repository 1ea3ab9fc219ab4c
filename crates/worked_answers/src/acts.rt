//! Acts of sessions over one list of changes, a letter each, and their replies.

ghost use Rattle.std.specs.Prelude.{◌≡◌};
ghost use Rattle.std.specs.List.{list_any};
ghost use Rattle.be_core.specs.Acts.{deed_of, deeds_of, is_by};

use be_base::{Id, Name, NoMemory, SessionNo};
use be_core::{Act, CoreReply, World};
use be_model::{Change, Conj, Event, Row};
use std::alloc::Global;
use std::sync::Arc;

fn is_by_nobody(act: &Act) -> bool
    ensures { result ≡ is_by 0 (deed_of act.now) }
{
    match act {
        Act::Ask { session, .. } => session.0 == 0,
        Act::Publish => false,
        Act::Reshape => false,
        Act::Read { session, .. } => session.0 == 0,
        Act::Tell { session } => session.0 == 0,
        Act::Leave { session } => session.0 == 0,
    }
}

fn are_by_nobody(acts: &[Act]) -> bool
    ensures { result ≡ list_any (is_by 0) (deeds_of acts.now) }
{
    for act in acts {
        if is_by_nobody(act) {
            return true;
        }
    }
    false
}

fn run(alloc: Global, acts: &[Act]) -> Result<Vec<CoreReply>, NoMemory> {
    if are_by_nobody(acts) {
        return Err(NoMemory);
    }
    World::make(alloc).run(alloc, acts)
}

fn ask(alloc: Global, session: u64, change: Change) -> Option<Act> {
    let change = Arc::new(alloc, change).ok()?;
    Some(Act::Ask {
        session: SessionNo(session),
        change,
    })
}

fn sub(alloc: Global, session: u64, serial: u64) -> Option<Act> {
    let name = Name::read(b"a").ok()?;
    let session_no = SessionNo(session);
    let row = Row {
        id: Id(serial),
        session: session_no,
        name,
        conj: Conj::make(alloc),
    };
    let row = Arc::new(alloc, row).ok()?;
    let change = Change::Sub {
        session: session_no,
        serial,
        row,
    };
    ask(alloc, session, change)
}

fn unsub(alloc: Global, session: u64, serial: u64, name: &[u8]) -> Option<Act> {
    let name = Name::read(name).ok()?;
    let change = Change::removal(alloc, SessionNo(session), serial, name).ok()?;
    ask(alloc, session, change)
}

fn read(alloc: Global, session: u64, n: u64) -> Act {
    Act::Read {
        session: SessionNo(session),
        n,
        event: Event::make(alloc),
    }
}

// The act of a letter: session 1 has those of the first five, session 2 the next four, and `s`, `v` and `g` are of the acts in
// fours of which `round` counts.
fn act(alloc: Global, letter: u8, round: u64) -> Option<Act> {
    let (one, two) = (SessionNo(1), SessionNo(2));
    match letter {
        b'a' => sub(alloc, 1, 0),
        b't' => Some(Act::Tell { session: one }),
        b'h' => Some(read(alloc, 1, 1)),
        b'l' => Some(Act::Leave { session: one }),
        b'b' => sub(alloc, 2, 0),
        b'u' => unsub(alloc, 2, 0, b"a"),
        b'n' => unsub(alloc, 2, 0, b"n"),
        b'w' => Some(Act::Tell { session: two }),
        b's' => sub(alloc, 1, round),
        b'v' => unsub(alloc, 1, round, b"a"),
        b'g' => Some(read(alloc, 2, round.saturating_add(1))),
        b'p' => Some(Act::Publish),
        _ => Some(Act::Reshape),
    }
}

fn acts(alloc: Global, letters: &[u8]) -> Option<Vec<Act>> {
    let mut acts = Vec::new(alloc);
    let mut count = 0u64;
    for letter in letters {
        acts.push(act(alloc, *letter, count / 4)?).ok()?;
        count = count.saturating_add(1);
    }
    Some(acts)
}

// The letter of a reply.
fn letter(reply: &CoreReply) -> char {
    match reply {
        CoreReply::Taken { .. } => 'T',
        CoreReply::Held { .. } => 'H',
        CoreReply::Dup { .. } => 'D',
        CoreReply::NoName { .. } => 'N',
        CoreReply::Other { .. } => 'O',
        CoreReply::Left { .. } => 'L',
        CoreReply::Hits { .. } => 'F',
        CoreReply::Split { .. } => 'S',
        CoreReply::Nothing => '-',
    }
}

/// The letters of the replies to acts.
pub fn replies(alloc: Global, text: &[u8]) -> Option<String> {
    let acts = acts(alloc, text)?;
    let replies = run(alloc, acts.as_slice()).ok()?;
    let mut letters = String::new(alloc);
    for reply in replies.as_slice() {
        letters.push(letter(reply)).ok()?;
    }
    Some(letters)
}

// The number of changes of a reply that has names, with how many they are and the place of `a`.
fn hits(reply: &CoreReply) -> (u64, usize, Option<usize>) {
    match reply {
        CoreReply::Taken { n } => (*n, 0, None),
        CoreReply::Hits { n, names } => (*n, names.len(), names.place(b"a")),
        _ => (0, 0, None),
    }
}

/// What the last reply found.
pub fn found(alloc: Global, text: &[u8]) -> Option<(u64, usize, Option<usize>)> {
    let acts = acts(alloc, text)?;
    let replies = run(alloc, acts.as_slice()).ok()?;
    Some(hits(replies.last()?))
}
