//! A conversation over a link: a reply for each line, until a reply, the end of the input or a fault ends it.

ghost use Rattle.std.specs.Prelude.{◌≡◌, ◌+◌, ◌<◌, ◌≤◌, ℕ, length, None, IfOk, OnOk, OnErr};
ghost use Rattle.be_base.specs.declared.limits.TheConstants.{SOURCE_BYTES};
ghost use Rattle.be_io.specs.Lines as line;
ghost use Rattle.be_io.specs.Outside.{link_state, sink_state};
ghost use Rattle.be_io.specs.Lines.{has_lf};
ghost use Rattle.be_protocol.specs.Conduct.{GivesReply, is_sixteenth, leading, LeavesIf, TendsIf};
ghost use Rattle.be_protocol.specs.Conversation.{ConversationEnds, TakesWithin, KeepsBeside};
ghost use Rattle.be_protocol.specs.Ends.{has_not_ended};
ghost use Rattle.be_protocol.specs.Turns.{TurnState, IsReading, TakesAlike, Turned, Given, GivenOn, HandsOver, is_due};

use crate::ends::{SessionEnd, end_of};
use crate::replier::{Replier, Turn};
use be_base::LINE_BYTES;
use be_io::{Gate, Line, LineFault, LineReader, Link, Sink, hand_on};
use std::alloc::Global;

/// A replier is tended behind each so many replies.
pub const REPLIES_TENDED: u64 = 16;

// Where a worker stands: at a line of its conversation, counted from 1.
#[derive(Drop)]
struct Station<'a, G: Gate> {
    gate: &'a G,
    worker: u32,
    line: u64,
}

impl<G: Gate> Station<'_, G> {
    fn before(&self) {
        self.gate.before(self.worker, self.line);
    }

    fn after(&self) {
        self.gate.after(self.worker, self.line);
    }
}

/// Answers the lines of a link until a reply, the end of the input or a fault ends the conversation. Where no reply ended it, the
/// replier leaves, unless memory was wanting before the first line. Replies are handed on before a read that may wait, and at the end. The gate is called by the worker's number before
/// and after each line. The replier is tended behind every sixteenth reply, unless that ends the conversation or the output breaks off
/// at it.
pub fn converse<A: Replier, L: Link, G: Gate>(
    alloc: Global,
    replier: &mut A,
    link: &mut L,
    gate: &G,
    worker: u32,
) -> SessionEnd
    requires ready { A.IsReady replier.old }
    // Each end with its cause, with what was read and written, and with what the exchanges made of the replier's state.
    ensures ends { ConversationEnds ((link.new ≡ link.old) × (replier.new ≡ replier.old))
        (leading (A.conduct (A.kept replier.old).schema) (A.state replier.old) (A.state replier.new))
        (link_state L.Source L.Sink link.old) (link_state L.Source L.Sink link.new) result }
    ensures within { TakesWithin (L.taken link.old) (L.taken link.new) }
    ensures kept { A.kept replier.new ≡ A.kept replier.old }
    // All bytes that the link gives from first to last, and the objects that it borrows, are the same ones.
    ensures beside { KeepsBeside (L.kept_by_read link.old) (L.kept_by_read link.new) }
{
    let Ok(mut reader) = LineReader::make(alloc, LINE_BYTES) else {
        return SessionEnd::NoMemory;
    };
    let mut lines: u64 = 0;
    'lines: loop {
        let station = Station {
            gate,
            worker,
            line: lines + 1,
        };
        match next_turn(replier, &mut reader, link, &station) {
            Err(end) => {
                replier.leave();
                return end;
            }
            Ok(turn) => match turn.written {
                Err(fault) => {
                    leave_unless(replier, turn.by);
                    return end_of(fault);
                }
                Ok(()) => match turn.by {
                    Some(end) => return end,
                    None => {
                        lines += 1;
                        tend_behind(replier, lines);
                    }
                },
            },
        }
    }
}

// Leaves, unless the last reply ends the conversation so.
fn leave_unless<A: Replier>(replier: &mut A, by: Option<SessionEnd>)
    requires ready { by ≡ None → A.IsReady replier.old }
    ensures leaves { LeavesIf (A.conduct (A.kept replier.old).schema) (has_not_ended by) (A.state replier.old) (A.state replier.new) }
    ensures kept { A.kept replier.new ≡ A.kept replier.old }
{
    if by.is_none() {
        replier.leave();
    }
}

// Tends behind every sixteenth reply, of which so many were given.
fn tend_behind<A: Replier>(replier: &mut A, lines: u64)
    requires ready { A.IsReady replier.old }
    ensures tends { TendsIf (A.conduct (A.kept replier.old).schema) (is_sixteenth lines) (A.state replier.old) (A.state replier.new) }
    ensures ready { A.IsReady replier.new }
    ensures kept { A.kept replier.new ≡ A.kept replier.old }
{
    if lines % REPLIES_TENDED == 0 {
        replier.tend();
    }
}

// Takes a turn and hands on what was written, where that is due. Where no line is read, says how the conversation ends.
fn next_turn<A: Replier, L: Link, G: Gate>(
    replier: &mut A,
    reader: &mut LineReader,
    link: &mut L,
    station: &Station<'_, G>,
) -> Result<Turn, SessionEnd>
    requires reads { IsReading reader.old }
    requires ready { A.IsReady replier.old }
    ensures turned { let before : TurnState A.State = record { reader = reader.old; link = link_state L.Source L.Sink link.old; state = A.state replier.old } in
        let after : TurnState A.State = record { reader = reader.new; link = link_state L.Source L.Sink link.new; state = A.state replier.new } in
        Turned (GivenOn (A.conduct (A.kept replier.old).schema) before after) before after result }
    ensures ready { IfOk result (λ turn. turn.by ≡ None → A.IsReady replier.new) }
    ensures over { OnErr result (A.IsReady replier.new) }
    ensures kept { A.kept replier.new ≡ A.kept replier.old }
    ensures alike { TakesAlike reader.old.taken reader.new.taken (L.taken link.old) (L.taken link.new) }
    ensures progress { OnOk result (length reader.new.unread + reader.old.taken < length reader.old.unread + reader.new.taken) }
    ensures bound { reader.new.taken ≤ SOURCE_BYTES }
    ensures beside { KeepsBeside (L.kept_by_read link.old) (L.kept_by_read link.new) }
{
    match take_turn(replier, reader, link, station) {
        Ok(turn) => Ok(hand_over(link, reader.has_line(), turn)),
        Err(end) => Err(end),
    }
}

// Reads the next line and answers it.
fn take_turn<A: Replier, L: Link, G: Gate>(
    replier: &mut A,
    reader: &mut LineReader,
    link: &mut L,
    station: &Station<'_, G>,
) -> Result<Turn, SessionEnd>
    requires reads { IsReading reader.old }
    requires ready { A.IsReady replier.old }
    ensures turned { let before : TurnState A.State = record { reader = reader.old; link = link_state L.Source L.Sink link.old; state = A.state replier.old } in
        let after : TurnState A.State = record { reader = reader.new; link = link_state L.Source L.Sink link.new; state = A.state replier.new } in
        Turned (Given (A.conduct (A.kept replier.old).schema) before after) before after result }
    ensures ready { IfOk result (λ turn. turn.by ≡ None → A.IsReady replier.new) }
    ensures over { OnErr result (A.IsReady replier.new) }
    ensures kept { A.kept replier.new ≡ A.kept replier.old }
    ensures alike { TakesAlike reader.old.taken reader.new.taken (L.taken link.old) (L.taken link.new) }
    ensures progress { OnOk result (length reader.new.unread + reader.old.taken < length reader.old.unread + reader.new.taken) }
    ensures bound { reader.new.taken ≤ SOURCE_BYTES }
    ensures beside { KeepsBeside (L.kept_by_read link.old) (L.kept_by_read link.new) }
{
    match reader.next(link) {
        Ok(Line::Text) => {
            let ahead = reader.has_more();
            Ok(answer_text(replier, reader.text(), ahead, link, station))
        }
        Ok(Line::Long { .. }) => Ok(refuse_long(replier, link, station)),
        Ok(Line::End) => Err(SessionEnd::Eof),
        Err(LineFault::ReadFault) => Err(SessionEnd::ReadFault),
        Err(LineFault::Spent) => Err(SessionEnd::Spent),
    }
}

// Answers a line of text.
fn answer_text<A: Replier, K: Sink, G: Gate>(
    replier: &mut A,
    text: &[u8],
    ahead: bool,
    out: &mut K,
    station: &Station<'_, G>,
) -> Turn
    requires ready { A.IsReady replier.old }
    ensures gives { let m = A.conduct (A.kept replier.old).schema in
        GivesReply m (m.asks (line.text text.now)) (A.state replier.old) (A.state replier.new)
        (sink_state K.Sink out.old) (sink_state K.Sink out.new) result.by result.written }
    ensures ready { result.by ≡ None → A.IsReady replier.new }
    ensures kept { A.kept replier.new ≡ A.kept replier.old }
    ensures beside { K.kept_by_write out.new ≡ K.kept_by_write out.old }
{
    station.before();
    let turn = replier.answer(text, ahead, out);
    station.after();
    turn
}

// Refuses a line over the limit.
fn refuse_long<A: Replier, K: Sink, G: Gate>(
    replier: &mut A,
    out: &mut K,
    station: &Station<'_, G>,
) -> Turn
    requires ready { A.IsReady replier.old }
    ensures gives { (n : ℕ) → let m = A.conduct (A.kept replier.old).schema in
        GivesReply m (m.asks (line.long n)) (A.state replier.old) (A.state replier.new)
        (sink_state K.Sink out.old) (sink_state K.Sink out.new) result.by result.written }
    ensures ready { result.by ≡ None → A.IsReady replier.new }
    ensures kept { A.kept replier.new ≡ A.kept replier.old }
    ensures beside { K.kept_by_write out.new ≡ K.kept_by_write out.old }
{
    station.before();
    let turn = replier.refuse_long(out);
    station.after();
    turn
}

// What was written is to be handed on.
fn is_due(ahead: bool, by: Option<SessionEnd>) -> bool
    ensures { result ≡ is_due ahead by }
{
    by.is_some() || !ahead
}

// Hands on what was written, where that is due. A read doesn't wait where a whole line was read ahead.
fn hand_over<K: Sink>(out: &mut K, ahead: bool, turn: Turn) -> Turn
    ensures by { result.by ≡ turn.by }
    ensures handed { HandsOver (is_due ahead turn.by) (sink_state K.Sink out.old) (sink_state K.Sink out.new) turn.written result.written }
    ensures beside { K.kept_by_write out.new ≡ K.kept_by_write out.old }
{
    match turn.written {
        Ok(()) if is_due(ahead, turn.by) => Turn {
            by: turn.by,
            written: hand_on(out),
        },
        _ => turn,
    }
}
