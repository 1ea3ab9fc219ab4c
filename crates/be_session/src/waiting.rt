//! Waits before a reply. What was written before is handed on first, so that no reply waits for the next one.

ghost use Rattle.std.specs.Prelude.{◌≡◌, None, OnErr, if◌then◌else◌};
ghost use Rattle.be_io.specs.Outside.{sink_state};
ghost use Rattle.be_session.specs.Waiting.{HandsOn};

use be_board::Board;
use be_io::{Sink, SinkFault, hand_on};

/// How many milliseconds a line waits: none where more of the input was read ahead.
pub fn wait_of(millis: u64, ahead: bool) -> u64
    ensures { result ≡ (if ahead then 0 else millis) }
{
    if ahead { 0 } else { millis }
}

/// Waits until a letter lies in the session's mailbox, or so many milliseconds have passed. It takes none.
#[tactic(auto, using(crate::proofs::WaitingOn::handed))]
pub fn await_letter<B: Board, K: Sink>(
    board: &mut B,
    millis: u64,
    out: &mut K,
) -> Result<(), SinkFault>
    ensures same { B.state board.new ≡ B.state board.old }
    ensures handed { HandsOn (sink_state K.Sink out.old) (sink_state K.Sink out.new) result }
    // A board that tells its box doesn't wait.
    ensures untold { OnErr result ((B.state board.old).box ≡ None) }
    ensures beside { K.kept_by_write out.new ≡ K.kept_by_write out.old }
{
    if millis == 0 {
        return Ok(());
    }
    if !board.may_wait() {
        return Ok(());
    }
    hand_on(out)?;
    board.await_letter(millis, &*out);
    Ok(())
}

/// Waits until reads see more changes than `place`, or so many milliseconds have passed.
#[tactic(auto, using(crate::proofs::WaitingOn::handed))]
pub fn await_change<B: Board, K: Sink>(
    board: &mut B,
    place: u64,
    millis: u64,
    out: &mut K,
) -> Result<(), SinkFault>
    ensures same { B.state board.new ≡ B.state board.old }
    ensures handed { HandsOn (sink_state K.Sink out.old) (sink_state K.Sink out.new) result }
    ensures beside { K.kept_by_write out.new ≡ K.kept_by_write out.old }
{
    if millis == 0 {
        return Ok(());
    }
    if !board.may_wait() {
        return Ok(());
    }
    hand_on(out)?;
    board.await_change(place, millis, &*out);
    Ok(())
}
