//! The close of a hub whose files are served.

ghost use Rattle.std.specs.Prelude.{◌≡◌, ℕ, length, map, slice_get, Some, All, IfSome};
ghost use Rattle.be_desk.specs.Seats.{IsKeptSeat};

use be_desk::Seat;
use be_hub::{FileEnd, FileRun, Hub};
use be_mail::{BoxNames, Post};
use be_published::{Naming, Sheet};
use std::alloc::Global;
use std::sync::Wait;

/// How many changes the list has at its end, where it keeps the words of all seats.
pub fn changes_of<T: Sheet<J>, J: Naming + BoxNames, S: Post, R: Wait>(
    rt: &R,
    alloc: Global,
    hub: Hub<T, J, S>,
    run: FileRun<T, J>,
) -> Option<u64>
    requires count { length run.ends.items ≡ length J.boxes }
    requires places { (i : ℕ) (end : _) → slice_get run.ends.items i ≡ Some end → end.seat.passes.seat ≡ i }
{
    let FileRun { ends, broom: _ } = run;
    let Some(seats) = seats_of(alloc, ends) else {
        hub.end(rt);
        return None;
    };
    match hub.close(rt, alloc, seats) {
        Ok(closed) => Some(closed.log.len()),
        Err(_) => None,
    }
}

// The seats that came back, in the order of the files.
fn seats_of<T: Sheet<J>, J: Naming + BoxNames>(
    alloc: Global,
    ends: Vec<FileEnd<T, J>>,
) -> Option<Vec<Seat<T, J>>>
    ensures seats { IfSome result (λ seats. seats.items ≡ map (λ end. end.seat) ends.items) }
    ensures kept { IfSome result (λ seats. All (IsKeptSeat J.boxes) seats.items) }
{
    let mut seats = Vec::new(alloc);
    for end in ends {
        let FileEnd {
            seat,
            transcript: _,
            end: _,
            asked: _,
        } = end;
        // Called for what its type keeps.
        let _ = seat.session();
        if seats.push(seat).is_err() {
            return None;
        }
    }
    Some(seats)
}
