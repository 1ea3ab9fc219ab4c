//! What a seat asks of the desk.

ghost use Rattle.std.specs.Prelude.{◌≡◌, true};
ghost use Rattle.be_desk.specs.Asks.{ask_lies};

use be_base::Name;
use be_board::Answer;
use be_desk::{Ask, Desk, SESSIONS_END, Seat};
use be_expr::read_expr;
use be_mail::BoxNames;
use be_model::Schema;
use be_published::{Naming, Sheet};
use std::alloc::Global;
use std::sync::Wait;

/// The answer to what a seat asks, or to what it is asked.
pub fn answer<T: Sheet<J>, J: Naming + BoxNames, R: Wait>(
    rt: &R,
    alloc: Global,
    schema: &Schema,
    desk: &mut Desk<T, J>,
    seat: &mut Seat<T, J>,
    command: &str,
) -> Option<String>
    requires { schema.now ≡ J.schema }
{
    let (word, rest) = command.split_once(' ').unwrap_or((command, ""));
    match word {
        "SUB" => told(alloc, subscribe(rt, alloc, schema, desk, seat, rest)),
        "UNSUB" => told(alloc, unsubscribe(rt, alloc, desk, seat, rest)),
        "QUIT" => told(alloc, ask(rt, alloc, desk, seat, Ask::Leave)),
        "ENTER" => entered(alloc, desk, seat),
        "SHOW" => shown(rt, alloc, desk, seat),
        _ => None,
    }
}

fn subscribe<T: Sheet<J>, J: Naming + BoxNames, R: Wait>(
    rt: &R,
    alloc: Global,
    schema: &Schema,
    desk: &mut Desk<T, J>,
    seat: &mut Seat<T, J>,
    rest: &str,
) -> Option<Answer>
    requires { schema.now ≡ J.schema }
{
    let (name, conj) = rest.split_once(' ')?;
    let name = Name::read(name.as_bytes()).ok()?;
    let conj = read_expr(alloc, schema, conj.as_bytes()).ok()?;
    ask(rt, alloc, desk, seat, Ask::Subscribe { name, conj })
}

fn unsubscribe<T: Sheet<J>, J: Naming + BoxNames, R: Wait>(
    rt: &R,
    alloc: Global,
    desk: &mut Desk<T, J>,
    seat: &mut Seat<T, J>,
    rest: &str,
) -> Option<Answer> {
    let name = Name::read(rest.as_bytes()).ok()?;
    ask(rt, alloc, desk, seat, Ask::Unsubscribe { name })
}

// A session that has left asks nothing.
fn ask<T: Sheet<J>, J: Naming + BoxNames, R: Wait>(
    rt: &R,
    alloc: Global,
    desk: &mut Desk<T, J>,
    seat: &mut Seat<T, J>,
    ask: Ask,
) -> Option<Answer>
    requires { ask_lies J.schema ask ≡ true }
{
    if seat.left() {
        return None;
    }
    Some(desk.change(rt, alloc, seat, ask))
}

fn told(alloc: Global, answer: Option<Answer>) -> Option<String> {
    format!(in alloc; "{:?}", answer?).ok()
}

// The seat's next session.
fn entered<T: Sheet<J>, J: Naming + BoxNames>(
    alloc: Global,
    desk: &Desk<T, J>,
    seat: &mut Seat<T, J>,
) -> Option<String> {
    if seat.session().0 >= SESSIONS_END {
        return None;
    }
    desk.enter(seat);
    format!(in alloc; "session {}", seat.session().0).ok()
}

// Whether the seat knows more than is published, and what it was told of two numbers that differ.
fn shown<T: Sheet<J>, J: Naming + BoxNames, R: Wait>(
    rt: &R,
    alloc: Global,
    desk: &Desk<T, J>,
    seat: &mut Seat<T, J>,
) -> Option<String> {
    desk.show(rt, seat);
    let (ahead, rift) = (desk.ahead(seat), seat.rift());
    format!(in alloc; "{ahead:?} {rift:?}").ok()
}
