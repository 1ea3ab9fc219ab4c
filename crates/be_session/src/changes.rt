//! SUB, UNSUB and QUIT: changes that are asked for.

ghost use Rattle.std.specs.Prelude.{◌≡◌, true, false};
ghost use Rattle.be_model.specs.Lies.{conj_lies};
ghost use Rattle.be_change.specs.Requests as asked;
ghost use Rattle.be_board.specs.Changes.{Asked};
ghost use Rattle.be_board.specs.State.{is_gone};
ghost use Rattle.be_session.specs.Changes.{reply_of, quit_reply};
ghost use Rattle.be_protocol.specs.Short.{plain_reply};
ghost use Rattle.be_session.specs.Steps.{Replies};

use be_base::Name;
use be_board::{Answer, Board};
use be_protocol::{Short, Subscription};
use std::alloc::Global;

/// How often a session asks to leave while memory is wanting.
const LEAVES: u32 = 8;

// The reply to a change that was asked for.
fn reply_of(answer: Answer) -> Short
    ensures { plain_reply result ≡ reply_of answer }
{
    match answer {
        Answer::Done { n } => Short::Ok { n },
        Answer::Held { n } => Short::Held { n },
        Answer::Dup { m, id } => Short::Dup { m, id },
        Answer::NoName { m } => Short::NoName { m },
        Answer::Other { m, id } => Short::Other { m, id },
        Answer::Split { seen, written } => Short::Split { seen, written },
        Answer::NoMemory => Short::NoMemory,
    }
}

// The reply to a QUIT.
fn quit_reply(answer: Answer) -> Short
    ensures { plain_reply result ≡ quit_reply answer }
{
    match answer {
        Answer::Done { n } => Short::Bye { n },
        answer => reply_of(answer),
    }
}

pub fn subscribe<B: Board>(alloc: Global, board: &mut B, subscription: Subscription) -> Short
    requires present { is_gone (B.state board.old) ≡ false }
    requires lies { conj_lies (B.state board.old).schema subscription.conj ≡ true }
    ensures replies { Replies (B.state board.old).schema
        (asked.subscribe subscription.name subscription.conj, plain_reply result) (B.state board.old) (B.state board.new) }
{
    reply_of(board.subscribe(alloc, subscription.name, subscription.conj))
}

pub fn unsubscribe<B: Board>(alloc: Global, board: &mut B, name: Name) -> Short
    requires present { is_gone (B.state board.old) ≡ false }
    ensures replies { Replies (B.state board.old).schema
        (asked.unsubscribe name, plain_reply result) (B.state board.old) (B.state board.new) }
{
    reply_of(board.unsubscribe(alloc, &name))
}

/// The session leaves, and is told how.
pub fn quit<B: Board>(alloc: Global, board: &mut B) -> Short
    requires present { is_gone (B.state board.old) ≡ false }
    ensures replies { Replies (B.state board.old).schema
        (asked.quit, plain_reply result) (B.state board.old) (B.state board.new) }
{
    quit_reply(leave(alloc, board))
}

/// Asks to leave, and again while memory is wanting, at most eight times in all. The answer is the last one.
pub fn leave<B: Board>(alloc: Global, board: &mut B) -> Answer
    requires present { is_gone (B.state board.old) ≡ false }
    ensures asked { Asked (B.state board.old) (B.state board.new) asked.quit result }
{
    ask_to_leave(alloc, board, LEAVES)
}

fn ask_to_leave<B: Board>(alloc: Global, board: &mut B, times: u32) -> Answer
    requires present { is_gone (B.state board.old) ≡ false }
    ensures asked { Asked (B.state board.old) (B.state board.new) asked.quit result }
{
    match board.leave(alloc) {
        Answer::NoMemory if times > 1 => ask_to_leave(alloc, board, times - 1),
        answer => answer,
    }
}
