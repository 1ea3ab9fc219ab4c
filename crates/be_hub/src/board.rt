//! A seat with the shared desk and the mail, as the board of its session.

ghost use Rattle.std.specs.Prelude.{◌≡◌, ◌≤◌, min, true, false};
ghost use Rattle.be_base.specs.Counts.{raised, RisesBy};
ghost use Rattle.be_board.specs.Changes.{Asked};
ghost use Rattle.be_desk.specs.Asks.{request_of, ask_lies};
ghost use Rattle.be_desk.specs.Boards.{board_of};
ghost use Rattle.be_desk.specs.Seats.{is_over};

use crate::hub::Hub;
use be_base::{Name, NoRead};
use be_board::{Answer, Board, Sent};
use be_desk::{Ask, Seat, TendCount};
use be_index::Ids;
use be_io::Sink;
use be_mail::{BoxNames, Post};
use be_model::{Change, Conj, Cost, Event, Found, Letter};
use be_published::{Naming, Sheet};
use be_waiting::SystemBed;
use std::alloc::Global;
use std::sync::{Arc, Wait};
use std::time::Clock;

/// A seat at the shared desk. Its reads and its letters take no lock; its changes take that of the desk. It is to tend the desk only
/// where `TENDS` isn't 0.
#[derive(Drop)]
pub struct DeskBoard<'a, T: Sheet<J>, J: Naming + BoxNames, S: Post, R: Wait, const TENDS: u8> {
    rt: &'a R,
    hub: &'a Hub<T, J, S>,
    seat: Seat<T, J>,
    // The tends that it and those before it were asked for, where it is to tend at all: else it counts none.
    calls: u64,
    // Those of them at which nobody else was at the desk.
    tended: TendCount,
    // It counts none where it isn't to tend.
    ghost still: { TENDS ≡ 0 → calls ≡ 0 },
    // No more of them reached the desk than it counts.
    ghost few: { tended ≤ calls },
}

impl<'a, T: Sheet<J>, J: Naming + BoxNames, S: Post, R: Wait, const TENDS: u8> DeskBoard<
    'a,
    T,
    J,
    S,
    R,
    TENDS,
> {
    pub(crate) fn make(
        rt: &'a R,
        hub: &'a Hub<T, J, S>,
        seat: Seat<T, J>,
        calls: u64,
        tended: TendCount,
    ) -> DeskBoard<'a, T, J, S, R, TENDS>
        requires still { TENDS ≡ 0 → calls ≡ 0 }
        requires few { tended ≤ calls }
        ensures seat { result.seat ≡ seat }
        ensures calls { result.calls ≡ calls }
    {
        DeskBoard {
            rt,
            hub,
            seat,
            calls,
            tended,
        }
    }

    pub(crate) fn take(self) -> (Seat<T, J>, u64, TendCount)
        ensures seat { result.0 ≡ self.entry.seat }
        ensures calls { result.1 ≡ self.entry.calls }
        ensures still { TENDS ≡ 0 → result.1 ≡ 0 }
        ensures few { result.2 ≤ result.1 }
    {
        let DeskBoard {
            rt: _,
            hub: _,
            seat,
            calls,
            tended,
        } = self;
        (seat, calls, tended)
    }

    // Takes a change under the lock.
    fn change(&mut self, alloc: Global, ask: Ask) -> Answer
        requires present { is_over self.old.seat ≡ false }
        requires lies { ask_lies J.schema ask ≡ true }
        ensures { Asked (board_of (min TENDS 1) J.schema self.old.calls self.old.seat) (board_of (min TENDS 1) J.schema self.new.calls self.new.seat) (request_of ask) result }
    {
        // Called for its clause that the count isn't past its type's end.
        let _ = self.seat.splits();
        let hub = self.hub;
        let mut guard = hub.desk.lock(self.rt);
        let answer = guard.change(self.rt, alloc, &mut self.seat, ask);
        hub.leave_desk(guard);
        answer
    }
}

impl<'a, T: Sheet<J>, J: Naming + BoxNames, S: Post, R: Wait + Clock, const TENDS: u8> Board
    for DeskBoard<'a, T, J, S, R, TENDS> {
    ghost use Rattle.std.specs.Prelude.{min};
    ghost use Rattle.be_desk.specs.Boards.{board_of};

    ghost state = { λ b. board_of (min TENDS 1) J.schema b.calls b.seat };

    fn subscribe(&mut self, alloc: Global, name: Name, conj: Conj) -> Answer {
        self.change(alloc, Ask::Subscribe { name, conj })
    }

    fn unsubscribe(&mut self, alloc: Global, name: &Name) -> Answer {
        self.change(alloc, Ask::Unsubscribe { name: *name })
    }

    fn leave(&mut self, alloc: Global) -> Answer {
        self.change(alloc, Ask::Leave)
    }

    fn left(&self) -> bool {
        let _ = self.seat.session();
        self.seat.left()
    }

    fn find(&mut self, event: &Event, found: &mut Found) -> Result<u64, NoRead> {
        self.seat.find(event, found)
    }

    fn hits(&mut self, event: &Event, ids: &mut Ids, names: &mut Vec<u8>) -> Result<u64, NoRead> {
        self.seat.hits(event, ids, names)
    }

    fn cost(&mut self, event: &Event) -> Result<(u64, Cost), NoRead> {
        self.seat.cost(event)
    }

    fn mine(&mut self, found: &mut Found) -> Result<u64, NoRead> {
        self.seat.mine(found)
    }

    fn all(&mut self, found: &mut Found) -> Result<u64, NoRead> {
        self.seat.all(found)
    }

    fn tail(&mut self, from: u64, max: u64, changes: &mut Vec<Arc<Change>>) -> Result<u64, NoRead> {
        self.seat.tail(from, max, changes)
    }

    fn send(&mut self, alloc: Global, event: &Event, found: &mut Found) -> Result<Sent, NoRead> {
        let hub = self.hub;
        self.seat.send(self.rt, alloc, &hub.mail, event, found)
    }

    fn fetch(&mut self) -> Option<Letter> {
        let hub = self.hub;
        self.seat.fetch(self.rt, &hub.mail)
    }

    fn may_wait(&self) -> bool {
        true
    }

    fn await_letter<K: Sink>(&mut self, millis: u64, out: &K) {
        let hub = self.hub;
        self.seat
            .await_letter(&SystemBed::make(self.rt, out), &hub.mail, millis);
    }

    fn await_change<K: Sink>(&mut self, place: u64, millis: u64, out: &K) {
        let hub = self.hub;
        let _ = hub
            .published
            .await_above(&SystemBed::make(self.rt, out), place, millis);
    }

    fn tend(&mut self) {
        if TENDS > 0 {
            self.calls = one_more(self.calls);
            // Whoever is at the desk isn't waited for: the next tend will do.
            let hub = self.hub;
            if let Some(guard) = hub.desk.try_lock() {
                let mut guard = guard;
                guard.tend(self.rt, &mut self.tended);
                hub.leave_desk(guard);
            }
        }
    }
}

// The count, one higher. At its type's end it stays there.
fn one_more(count: u64) -> u64
    ensures { (count ≤ result) × RisesBy 1 count result × (result ≡ raised 1 count) }
{
    count.saturating_add(1)
}
