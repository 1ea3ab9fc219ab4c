//! What came of a row, as it is printed.

use crate::gate::HoldingGate;
use crate::links::Peer;
use crate::row::Row;
use crate::stage::Stage;
use be_base::SessionNo;
use be_door::Metered;
use be_server::Status;
use std::alloc::Global;

/// What came of a row, as it is printed, and whether it is the outcome that the row comes to, where it names one.
#[derive(Drop)]
pub struct Shown {
    pub text: String,
    pub is_due: bool,
}

/// What was written and what each link holds, or that it is one of the row's outcomes; the status; and how workers were held, where
/// they are to be.
pub fn show<R: Copy>(
    alloc: Global,
    row: &Row<'_>,
    stage: &Stage<R>,
    status: &Status,
) -> Option<Shown> {
    let outcome = outcome(alloc, stage.out.bytes(), stage.door.kept())?;
    let is_due = match row.due {
        Some(due) => due == outcome.as_str(),
        None => true,
    };
    let mut out = String::new(alloc);
    if is_one_of(outcome.as_str(), row.outcomes.as_slice()) {
        out.push_str("one of these").ok()?;
    } else {
        out.push_str(outcome.as_str()).ok()?;
    }
    put_status(alloc, &mut out, status)?;
    if !row.holds.is_empty() {
        put_holds(alloc, &mut out, &stage.gate)?;
    }
    Some(Shown { text: out, is_due })
}

fn is_one_of(outcome: &str, outcomes: &[&str]) -> bool {
    for other in outcomes {
        if *other == outcome {
            return true;
        }
    }
    false
}

// What was written, and behind each ` || ` a session's number and what its link holds.
fn outcome(alloc: Global, written: &[u8], kept: &[(SessionNo, Metered<Peer>)]) -> Option<String> {
    let mut out = String::new(alloc);
    put_lines(&mut out, written)?;
    for (session, link) in kept {
        let number = session.0;
        out.push_str(format!(in alloc; " || {number}: ").ok()?.as_str())
            .ok()?;
        put_lines(&mut out, link.link().sink.bytes())?;
    }
    Some(out)
}

// Lines, parted by `; `, where there are some.
fn put_lines(out: &mut String, bytes: &[u8]) -> Option<()> {
    if bytes.is_empty() {
        return out.push_str("nothing").ok();
    }
    let mut is_first = true;
    for line in str::from_utf8(bytes).ok()?.lines() {
        if !is_first {
            out.push_str("; ").ok()?;
        }
        is_first = false;
        out.push_str(line).ok()?;
    }
    Some(())
}

// The code, and the text where there is one.
fn put_status(alloc: Global, out: &mut String, status: &Status) -> Option<()> {
    let code = status.code();
    out.push_str(format!(in alloc; " | {code}").ok()?.as_str())
        .ok()?;
    let text = format!(in alloc; "{status}").ok()?;
    if text.is_empty() {
        return Some(());
    }
    out.push_str(" ").ok()?;
    out.push_str(text.as_str()).ok()
}

// How often a worker was held, and whether for too long.
fn put_holds(alloc: Global, out: &mut String, gate: &HoldingGate) -> Option<()> {
    let held = gate.held();
    let limit = if gate.is_limit_met() {
        "a limit met"
    } else {
        "no limit met"
    };
    let text = format!(in alloc; " | held {held}, {limit}").ok()?;
    out.push_str(text.as_str()).ok()
}
