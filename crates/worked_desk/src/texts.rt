//! The texts of what came of a call.

use be_change::ChangeLog;
use be_desk::Maintained;
use be_model::{Change, Path, Step};
use std::alloc::Global;

/// What a maintainer did.
pub fn maintained(alloc: Global, done: &Maintained) -> Option<String> {
    match done {
        Maintained::Freed { n } => format!(in alloc; "freed {n}").ok(),
        Maintained::Stepped { step } => step_text(alloc, step),
        Maintained::Idle => String::from_str(alloc, "idle").ok(),
        Maintained::Shut => String::from_str(alloc, "shut").ok(),
        Maintained::NoMemory => String::from_str(alloc, "no memory").ok(),
    }
}

fn step_text(alloc: Global, step: &Step) -> Option<String> {
    match step {
        Step::SplitPart { path, .. } => path_text(alloc, "part", path),
        Step::SplitHalf { path, .. } => path_text(alloc, "half", path),
        Step::Merge { path } => path_text(alloc, "merge", path),
        Step::Shift { path, .. } => path_text(alloc, "shift", path),
    }
}

// The kind of a step, and the hops of its path.
fn path_text(alloc: Global, kind: &str, path: &Path) -> Option<String> {
    let mut text = String::from_str(alloc, kind).ok()?;
    for hop in path.hops() {
        let part = format!(in alloc; " {hop:?}").ok()?;
        text.push_str(part.as_str()).ok()?;
    }
    Some(text)
}

/// The changes from a place on, in order.
pub fn log_text(alloc: Global, log: &ChangeLog, from: u64) -> Option<String> {
    let mut text = String::new(alloc);
    for place in from..log.len() {
        let part = change_text(alloc, log.at(place))?;
        text.push_str(part.as_str()).ok()?;
    }
    Some(text)
}

// A session with its serial, and the name that came, with its id, or went.
fn change_text(alloc: Global, change: &Change) -> Option<String> {
    match change {
        Change::Sub {
            session,
            serial,
            row,
        } => {
            let (session, id) = (session.0, row.id.0);
            format!(in alloc; " {session}.{serial}+{}@{id}", row.name).ok()
        }
        Change::Unsub {
            session,
            serial,
            name,
        } => format!(in alloc; " {}.{serial}-{name}", session.0).ok(),
        Change::Bye { session, serial } => format!(in alloc; " {}.{serial} bye", session.0).ok(),
    }
}
