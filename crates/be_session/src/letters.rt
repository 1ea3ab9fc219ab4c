//! SEND and FETCH: letters to the sessions of live rows.

ghost use Rattle.std.specs.Prelude.{◌≡◌, true, None};
ghost use Rattle.be_model.specs.Lies.{event_lies};
ghost use Rattle.be_io.specs.Outside.{sink_state};
ghost use Rattle.be_change.specs.Requests as asked;
ghost use Rattle.be_protocol.specs.Short.{plain_reply};
ghost use Rattle.be_protocol.specs.Conduct.{GivesReply};
ghost use Rattle.be_session.specs.Steps.{Replies, session_conduct};

use crate::room::Room;
use crate::waiting::await_letter;
use be_board::{Board, Sent};
use be_io::{Sink, SinkFault};
use be_model::{Event, Schema};
use be_protocol::{Short, say_end, send_note};
use std::alloc::Global;

impl Room {
    /// Sends the event to the session of each live row that it satisfies.
    pub fn send<B: Board>(&mut self, alloc: Global, board: &mut B, event: &Event) -> Short
        requires lies { event_lies (B.state board.old).schema event.now ≡ true }
        ensures replies { Replies (B.state board.old).schema
            (asked.sending event.now, plain_reply result) (B.state board.old) (B.state board.new) }
    {
        match board.send(alloc, event, &mut self.found) {
            Ok(Sent { n, put, dropped }) => Short::Sent { n, put, dropped },
            Err(refused) => Short::from(refused),
        }
    }
}

/// Writes the session's next letters, at most `max`, once one lies in its mailbox, or so many milliseconds have passed.
pub fn fetch_within<B: Board, K: Sink>(
    schema: &Schema,
    board: &mut B,
    max: u64,
    millis: u64,
    out: &mut K,
) -> Result<(), SinkFault>
    requires schema { (B.state board.old).schema ≡ schema.now }
    ensures answered { GivesReply (session_conduct schema.now) (asked.fetching max) (B.state board.old) (B.state board.new)
        (sink_state K.Sink out.old) (sink_state K.Sink out.new) None result }
    ensures beside { K.kept_by_write out.new ≡ K.kept_by_write out.old }
{
    await_letter(board, if max == 0 { 0 } else { millis }, out)?;
    fetch(schema, board, max, out)
}

// Writes the session's next letters, at most `max`, each as soon as it is taken.
fn fetch<B: Board, K: Sink>(
    schema: &Schema,
    board: &mut B,
    max: u64,
    out: &mut K,
) -> Result<(), SinkFault>
    requires schema { (B.state board.old).schema ≡ schema.now }
    ensures answered { GivesReply (session_conduct schema.now) (asked.fetching max) (B.state board.old) (B.state board.new)
        (sink_state K.Sink out.old) (sink_state K.Sink out.new) None result }
    ensures beside { K.kept_by_write out.new ≡ K.kept_by_write out.old }
{
    let mut count: u64 = 0;
    'letters: loop {
        if count == max {
            return say_end(out, count);
        }
        let Some(letter) = board.fetch() else {
            return say_end(out, count);
        };
        send_note(out, schema, &letter)?;
        count += 1;
    }
}
