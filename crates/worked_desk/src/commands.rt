//! What is asked at a desk.

ghost use Rattle.std.specs.Prelude.{◌≡◌};

use crate::{seats, texts};
use be_desk::{Broom, Desk, Maintained, Seat, TendCount};
use be_mail::BoxNames;
use be_model::Schema;
use be_published::{Naming, Sheet};
use std::alloc::Global;
use std::sync::Wait;

// A maintainer that came so often gives up.
const CALLS: u32 = 16;

/// The answers to commands, parted as they are.
pub fn answers<T: Sheet<J>, J: Naming + BoxNames, R: Wait>(
    rt: &R,
    alloc: Global,
    schema: &Schema,
    desk: &mut Desk<T, J>,
    seats: &mut Vec<Seat<T, J>>,
    script: &str,
) -> Option<String>
    requires { schema.now ≡ J.schema }
{
    let mut counts = Counts {
        broom: Broom::make(),
        tended: TendCount::make(),
    };
    let mut answers = String::new(alloc);
    for command in script.split("; ") {
        if !answers.is_empty() {
            answers.push_str("; ").ok()?;
        }
        match answer(rt, alloc, schema, desk, seats, &mut counts, command) {
            Some(answer) => answers.push_str(answer.as_str()).ok()?,
            None => answers.push_str("none").ok()?,
        }
    }
    Some(answers)
}

// How often a desk was maintained, and tended.
#[derive(Drop)]
struct Counts {
    broom: Broom,
    tended: TendCount,
}

fn answer<T: Sheet<J>, J: Naming + BoxNames, R: Wait>(
    rt: &R,
    alloc: Global,
    schema: &Schema,
    desk: &mut Desk<T, J>,
    seats: &mut Vec<Seat<T, J>>,
    counts: &mut Counts,
    command: &str,
) -> Option<String>
    requires { schema.now ≡ J.schema }
{
    let (word, rest) = command.split_once(' ').unwrap_or((command, ""));
    match word {
        "A" => seats::answer(rt, alloc, schema, desk, seats.get_mut(0)?, rest),
        "B" => seats::answer(rt, alloc, schema, desk, seats.get_mut(1)?, rest),
        "MAINTAIN" => texts::maintained(alloc, &desk.maintain(rt, &mut counts.broom)),
        "TEND" => tended(rt, alloc, desk, &mut counts.tended, rest.parse().ok()?),
        "REST" => rested(rt, alloc, desk, &mut counts.broom),
        "FREE" => freed(rt, alloc, desk),
        "STATE" => {
            let calls = counts.broom.calls().saturating_add(counts.tended.calls());
            format!(in alloc; "{} {calls}", desk.len()).ok()
        }
        _ => None,
    }
}

// Tends the desk so many times, or until something was due.
fn tended<T: Sheet<J>, J: Naming + BoxNames, R: Wait>(
    rt: &R,
    alloc: Global,
    desk: &mut Desk<T, J>,
    tended: &mut TendCount,
    times: u32,
) -> Option<String> {
    for before in 0..times {
        if let Some(done) = desk.tend(rt, tended) {
            let done = texts::maintained(alloc, &done)?;
            return format!(in alloc; "{before} not due, {done}").ok();
        }
    }
    format!(in alloc; "{times} not due").ok()
}

fn freed<T: Sheet<J>, J: Naming + BoxNames, R: Wait>(
    rt: &R,
    alloc: Global,
    desk: &mut Desk<T, J>,
) -> Option<String> {
    match desk.free(rt) {
        Ok(()) => String::from_str(alloc, "free").ok(),
        Err(_) => String::from_str(alloc, "no memory").ok(),
    }
}

// Maintains the desk until there is nothing to do.
fn rested<T: Sheet<J>, J: Naming + BoxNames, R: Wait>(
    rt: &R,
    alloc: Global,
    desk: &mut Desk<T, J>,
    broom: &mut Broom,
) -> Option<String> {
    let mut text = String::from_str(alloc, "rest").ok()?;
    for _ in 0..CALLS {
        let done = desk.maintain(rt, broom);
        text.push_str(" ").ok()?;
        text.push_str(texts::maintained(alloc, &done)?.as_str())
            .ok()?;
        if is_idle(&done) {
            return Some(text);
        }
    }
    None
}

fn is_idle(done: &Maintained) -> bool {
    match done {
        Maintained::Idle => true,
        _ => false,
    }
}
