//! Whether the records of all seats keep the list.

ghost use Rattle.std.specs.Prelude.{◌≡◌, ◌≢◌, ℕ, ◌<◌, ◌≤◌, Some, None, length, slice_get, option_map, All, Any, IfOk, MatchBool, MatchOption};
ghost use Rattle.std.specs.Arc.{arc_value};
ghost use Rattle.be_change.specs.Entries.{entry_of};
ghost use Rattle.be_change.specs.History.{Entry, session_of};
ghost use Rattle.be_mail.specs.Letters.{seat_of};
ghost use Rattle.be_desk.specs.Seats.{SeatState};
ghost use Rattle.be_desk.specs.Closing.{AreAllSeats, AreKept, IsStray, HasPlace, IsNextPlace, IsFirstPlace, entry_at, IsBeside, IsKeptAt, AreKeptBelow, IsUnkeptAt, least_of};

use crate::desk::Desk;
use crate::seat::Seat;
use crate::stray::Stray;
use be_base::NoMemory;
use be_change::session_of;
use be_mail::BoxNames;
use be_model::Change;
use be_published::{Naming, Sheet};
use std::sync::Arc;

impl<T: Sheet<J>, J: Naming + BoxNames> Desk<T, J> {
    /// Compares the records of all seats, in any order, with the list.
    pub fn check_records(&self, seats: &[Seat<T, J>]) -> Result<Option<Stray>, NoMemory>
        requires all { AreAllSeats J.boxes seats.now }
        ensures { IfOk result (λ found. MatchOption found (AreKept J.boxes self.now.list seats.now) (λ stray. IsStray self.now.list seats.now stray)) }
    {
        self.meet_all(seats);
        let at = self.first_unkept(seats);
        let made = first_from(seats, at);
        if agree(at, self.ledger.len(), made) {
            return Ok(None);
        }
        let listed = self.change_at(Some(at))?;
        let change = self.change_at(made)?;
        Ok(Some(Stray {
            at,
            listed,
            made,
            change,
        }))
    }

    // The first place of the list that isn't in the record of its session's seat, or the list's length.
    fn first_unkept(&self, seats: &[Seat<T, J>]) -> u64
        ensures within { result ≤ length self.now.list }
        ensures before { AreKeptBelow result (length J.boxes) self.now.list seats.now }
        ensures here { result < length self.now.list → IsUnkeptAt (length J.boxes) self.now.list seats.now result }
    {
        let end = self.ledger.len();
        for place in 0..end {
            if !self.is_kept(seats, place) {
                return place;
            }
        }
        end
    }

    fn is_kept(&self, seats: &[Seat<T, J>], place: u64) -> bool
        requires { place < length self.now.list }
        ensures { MatchBool result
            ((e : Entry) → slice_get self.now.list place ≡ Some e → 0 < session_of e → IsKeptAt (length J.boxes) seats.now place e)
            (IsUnkeptAt (length J.boxes) self.now.list seats.now place) }
    {
        let session = session_of(self.ledger.log().at(place));
        session.0 == 0 || is_recorded(seats, (session.0 - 1) % u64::from(self.seats), place)
    }

    // The list's change at a place, where there are both.
    fn change_at(&self, place: Option<u64>) -> Result<Option<Arc<Change>>, NoMemory>
        ensures { IfOk result (λ change. option_map (λ c. entry_of (arc_value c)) change ≡ entry_at self.now.list place) }
    {
        let list = self.ledger.log();
        match place {
            Some(place) if place < list.len() => Ok(Some(Arc::try_clone(list.at(place))?)),
            _ => Ok(None),
        }
    }

    // Called for what holds of each record beside the list. It does nothing.
    fn meet_all(&self, seats: &[Seat<T, J>])
        ensures { All (IsBeside J.boxes self.now.list) seats.now }
    {
        for seat in seats {
            self.meet(seat);
        }
    }

    fn meet(&self, seat: &Seat<T, J>)
        ensures { IsBeside J.boxes self.now.list seat.now }
    {
        let Some(made) = &seat.made else {
            return;
        };
        let whole = self.press.whole();
        if made.len() <= whole.len() {
            made.begins(whole);
        } else {
            whole.begins(made);
        }
    }
}

impl<T: Sheet<J>, J: Naming + BoxNames> Seat<T, J> {
    fn number(&self) -> u64
        ensures { result ≡ self.now.passes.seat }
    {
        u64::from(self.passes.seat())
    }

    // The record's first place from this one on.
    fn next_from(&self, place: u64) -> Option<u64>
        ensures { IsNextPlace place self.now.own result }
    {
        let next = match self.places.binary_search(&place) {
            Ok(_) => return Some(place),
            Err(next) => next,
        };
        if next < self.places.len() {
            Some(self.places[next])
        } else {
            None
        }
    }

    fn has(&self, place: u64) -> bool
        ensures { MatchBool result (HasPlace place self.now.own) (All (λ p. p.0 ≢ place) self.now.own) }
    {
        match self.next_from(place) {
            Some(next) => next == place,
            None => false,
        }
    }
}

// Whether the seat of this number, where it is one of these, has the place in its record.
fn is_recorded<T: Sheet<J>, J: Naming + BoxNames>(
    seats: &[Seat<T, J>],
    number: u64,
    place: u64,
) -> bool
    ensures { MatchBool result
        (Any (λ s. (s.passes.seat ≡ number) × HasPlace place s.own) seats.now)
        (All (λ s. s.passes.seat ≡ number → All (λ p. p.0 ≢ place) s.own) seats.now) }
{
    for seat in seats {
        if seat.number() == number && seat.has(place) {
            return true;
        }
    }
    false
}

// The first place from this one on in any of the records.
fn first_from<T: Sheet<J>, J: Naming + BoxNames>(seats: &[Seat<T, J>], place: u64) -> Option<u64>
    ensures { IsFirstPlace place seats.now result }
{
    let mut first = None;
    for seat in seats {
        first = least(first, seat.next_from(place));
    }
    first
}

// The least of both, where there are two.
fn least(a: Option<u64>, b: Option<u64>) -> Option<u64>
    ensures { result ≡ least_of a b }
{
    match (a, b) {
        (Some(a), Some(b)) => Some(a.min(b)),
        (Some(a), None) => Some(a),
        (None, b) => b,
    }
}

// Whether the records and the list, which agree up to this place, both end there.
fn agree(at: u64, end: u64, made: Option<u64>) -> bool
    ensures { MatchBool result ((at ≡ end) × (made ≡ None)) (at ≡ end → made ≢ None) }
{
    at == end && made.is_none()
}
