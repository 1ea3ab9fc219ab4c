//! One session: a reply for each line, until a QUIT, the end of the input, a SPLIT or a fault.

ghost use Rattle.std.specs.Prelude.{◌≡◌, ◌≤◌, [], true, false, None, OnOk, IfErr, vec_capacity};
ghost use Rattle.be_io.specs.Lines as line;
ghost use Rattle.be_change.specs.Requests as asked;
ghost use Rattle.be_io.specs.Outside.{link_state, sink_state};
ghost use Rattle.be_board.specs.State.{is_gone};
ghost use Rattle.be_board.specs.Word.{own_in};
ghost use Rattle.be_protocol.specs.Conduct.{GivesReply};
ghost use Rattle.be_protocol.specs.Conversation.{TakesWithin, KeepsBeside};
ghost use Rattle.be_protocol.specs.Readings.{reading};
ghost use Rattle.be_protocol.specs.Requests.{plain_request, request_lies};
ghost use Rattle.be_protocol.specs.Short.{plain_reply};
ghost use Rattle.be_session.specs.declared.room.TheConstants.{REPLY_KEPT};
ghost use Rattle.be_session.specs.Served.{SessionEnds, BoardLeft};
ghost use Rattle.be_session.specs.Steps.{session_conduct};
ghost use Rattle.be_session.specs.Saying.{short_end, Says, SaysText};

use crate::changes::{leave, quit, subscribe, unsubscribe};
use crate::letters::fetch_within;
use crate::reads::cost;
use crate::room::Room;
use crate::waiting::{await_change, wait_of};
use be_base::NoMemory;
use be_board::Board;
use be_io::{Gate, Link, Sink, write_all};
use be_model::Schema;
use be_protocol::{Refusal, Replier, Request, SessionEnd, Short, Turn, converse, read_line, say};
use std::alloc::Global;

/// Serves the board's session over a link, until a QUIT, the end of the input, a SPLIT or a fault. Unless a reply ended it, or memory
/// was wanting before the first line, the session leaves at its end. Replies are handed on before a read that may wait, and at the end.
/// The gate is called by the worker's number before and after each line, and the board is asked to tend after every sixteenth reply that
/// goes on. A line that may wait doesn't where more of the input was read ahead, unless `waits_ahead` says so, as of a file, all of
/// which is there from the beginning.
pub fn serve_link<B: Board, L: Link, G: Gate>(
    alloc: Global,
    schema: &Schema,
    board: &mut B,
    link: &mut L,
    waits_ahead: bool,
    gate: &G,
    worker: u32,
) -> SessionEnd
    // The session has no accepted change yet.
    requires first { own_in (B.state board.old).word ≡ [] }
    requires schema { (B.state board.old).schema ≡ schema.now }
    // Each end with its cause, and with what was read and written, and what the board's word says of it.
    ensures ends { SessionEnds ((link.new ≡ link.old) × (board.new ≡ board.old)) schema.now
        (link_state L.Source L.Sink link.old) (link_state L.Source L.Sink link.new)
        (B.state board.old) (B.state board.new) result }
    ensures within { TakesWithin (L.taken link.old) (L.taken link.new) }
    // The board is the session's, and goes on, at each end.
    ensures board { BoardLeft (B.state board.old) (B.state board.new) }
    // All bytes that the link gives from first to last, and the objects that it borrows, are the same ones.
    ensures beside { KeepsBeside (L.kept_by_read link.old) (L.kept_by_read link.new) }
{
    // Called for its clauses that the session is somebody's, and that the list is well formed.
    let _left = board.left();
    let mut room = Room::make(alloc);
    let mut session = Session {
        alloc,
        schema,
        board,
        room: &mut room,
        waits_ahead,
    };
    converse(alloc, &mut session, link, gate, worker)
}

// A session that answers lines over its board, with the room for its replies.
#[derive(Drop)]
struct Session<'a, B: Board> {
    alloc: Global,
    schema: &'a Schema,
    board: &'a mut B,
    room: &'a mut Room,
    waits_ahead: bool,
}

impl<'a, B: Board> Replier for Session<'a, B> {
    ghost use Rattle.std.specs.Prelude.{◌≡◌, ◌∷◌, [], false};
    ghost use Rattle.be_board.specs.State.{BoardState, is_gone};
    ghost use Rattle.be_session.specs.Steps.{session_conduct};

    ghost State = { BoardState };

    ghost state = { λ a. B.state a.board.now };

    ghost kept = { λ a. record { schema = a.schema.now; references = a.board.ghost_name ∷ [] } };

    ghost conduct = { session_conduct };

    // It hasn't left.
    ghost IsReady = { λ a. (is_gone (B.state a.board.now) ≡ false) × ((B.state a.board.now).schema ≡ a.schema.now) };

    fn answer<K: Sink>(&mut self, text: &[u8], ahead: bool, out: &mut K) -> Turn {
        answer_text(
            self.alloc,
            self.schema,
            self.board,
            self.room,
            text,
            ahead && !self.waits_ahead,
            out,
        )
    }

    fn refuse_long<K: Sink>(&mut self, out: &mut K) -> Turn {
        tell(out, Short::Refused(Refusal::Long), false)
    }

    fn tend(&mut self) {
        self.board.tend();
    }

    fn leave(&mut self) {
        leave(self.alloc, self.board);
    }
}

// Answers a line of text. It may wait before it does, unless more of the input was read ahead. Then it lets room go that is too large to be kept for the next one.
fn answer_text<B: Board, K: Sink>(
    alloc: Global,
    schema: &Schema,
    board: &mut B,
    room: &mut Room,
    text: &[u8],
    ahead: bool,
    out: &mut K,
) -> Turn
    requires present { is_gone (B.state board.old) ≡ false }
    requires schema { (B.state board.old).schema ≡ schema.now }
    ensures gives { GivesReply (session_conduct schema.now) (reading schema.now (line.text text.now)) (B.state board.old) (B.state board.new)
        (sink_state K.Sink out.old) (sink_state K.Sink out.new) result.by result.written }
    ensures beside { K.kept_by_write out.new ≡ K.kept_by_write out.old }
    ensures room { vec_capacity room.new.reply ≤ REPLY_KEPT }
{
    let turn = answer_line(alloc, schema, board, room, text, ahead, out);
    room.let_go(alloc);
    turn
}

// Reads a line as a request, and answers it.
fn answer_line<B: Board, K: Sink>(
    alloc: Global,
    schema: &Schema,
    board: &mut B,
    room: &mut Room,
    text: &[u8],
    ahead: bool,
    out: &mut K,
) -> Turn
    requires present { is_gone (B.state board.old) ≡ false }
    requires schema { (B.state board.old).schema ≡ schema.now }
    ensures gives { GivesReply (session_conduct schema.now) (reading schema.now (line.text text.now)) (B.state board.old) (B.state board.new)
        (sink_state K.Sink out.old) (sink_state K.Sink out.new) result.by result.written }
    ensures beside { K.kept_by_write out.new ≡ K.kept_by_write out.old }
{
    match read_line(alloc, schema, text) {
        Ok(request) => answer(alloc, schema, board, room, request, ahead, out),
        Err(NoMemory) => tell(out, Short::NoMemory, false),
    }
}

// Answers a request.
fn answer<B: Board, K: Sink>(
    alloc: Global,
    schema: &Schema,
    board: &mut B,
    room: &mut Room,
    request: Request,
    ahead: bool,
    out: &mut K,
) -> Turn
    requires present { is_gone (B.state board.old) ≡ false }
    requires schema { (B.state board.old).schema ≡ schema.now }
    requires lies { request_lies schema.now request ≡ true }
    ensures gives { GivesReply (session_conduct schema.now) (plain_request request) (B.state board.old) (B.state board.new)
        (sink_state K.Sink out.old) (sink_state K.Sink out.new) result.by result.written }
    ensures beside { K.kept_by_write out.new ≡ K.kept_by_write out.old }
{
    match request {
        Request::Subscribe(subscription) => tell(out, subscribe(alloc, board, subscription), false),
        Request::Unsubscribe(name) => tell(out, unsubscribe(alloc, board, name), false),
        Request::Publish(event) => {
            let built = room.hits(board, &event);
            tell_built(out, room, built)
        }
        Request::Costing(event) => tell(out, cost(board, &event), false),
        Request::Listing => {
            let built = room.listed(board);
            tell_built(out, room, built)
        }
        Request::Sending(event) => tell(out, room.send(alloc, board, &event), false),
        Request::Fetching { max, millis } => Turn {
            by: None,
            written: fetch_within(schema, board, max, wait_of(millis, ahead), out),
        },
        Request::Dumping => {
            let built = room.dumped(schema, board);
            tell_built(out, room, built)
        }
        Request::Tailing { place, max, millis } => {
            tail_within(schema, board, room, place, max, wait_of(millis, ahead), out)
        }
        Request::Quit => tell(out, quit(alloc, board), true),
        Request::Refused(refusal) => tell(out, Short::Refused(refusal), false),
    }
}

// Answers a TAIL, once the list has more changes than the place, or so many milliseconds have passed.
fn tail_within<B: Board, K: Sink>(
    schema: &Schema,
    board: &mut B,
    room: &mut Room,
    place: u64,
    max: u64,
    millis: u64,
    out: &mut K,
) -> Turn
    requires schema { (B.state board.old).schema ≡ schema.now }
    ensures gives { GivesReply (session_conduct schema.now) (asked.tailing place max) (B.state board.old) (B.state board.new)
        (sink_state K.Sink out.old) (sink_state K.Sink out.new) result.by result.written }
    ensures beside { K.kept_by_write out.new ≡ K.kept_by_write out.old }
{
    match await_change(board, place, millis, out) {
        Ok(()) => {
            let built = room.tail(schema, board, place, max);
            tell_built(out, room, built)
        }
        Err(fault) => Turn {
            by: None,
            written: Err(fault),
        },
    }
}

// How a reply that takes no room ends its session, where it does.
fn short_end(quits: bool, reply: &Short) -> Option<SessionEnd>
    ensures { result ≡ short_end quits reply.now }
{
    match *reply {
        Short::Split { seen, written } => Some(SessionEnd::Split { seen, written }),
        _ if quits => Some(SessionEnd::Quit),
        _ => None,
    }
}

// Writes a reply that takes no room.
fn tell<K: Sink>(out: &mut K, reply: Short, quits: bool) -> Turn
    ensures says { Says (short_end quits reply) (plain_reply reply) (sink_state K.Sink out.old) (sink_state K.Sink out.new) result }
    ensures beside { K.kept_by_write out.new ≡ K.kept_by_write out.old }
{
    Turn {
        by: short_end(quits, &reply),
        written: say(out, reply),
    }
}

// Writes the reply that was built, or says why there is none.
fn tell_built<K: Sink>(out: &mut K, room: &Room, built: Result<(), Short>) -> Turn
    ensures built { OnOk built (SaysText None room.now.reply.items (sink_state K.Sink out.old) (sink_state K.Sink out.new) result) }
    ensures refused { IfErr built (λ short. Says (short_end false short) (plain_reply short) (sink_state K.Sink out.old) (sink_state K.Sink out.new) result) }
    ensures beside { K.kept_by_write out.new ≡ K.kept_by_write out.old }
{
    match built {
        Ok(()) => Turn {
            by: None,
            written: write_all(out, room.reply.as_slice()),
        },
        Err(short) => tell(out, short, false),
    }
}
