//! The desk.

ghost use Rattle.std.specs.Prelude.{◌≡◌, ◌+◌, ◌<◌, ◌≤◌, ◌↔◌, Some, None, false, length, IfSome, MatchResult, OnErr};
ghost use Rattle.std.specs.Option.{is_some};
ghost use Rattle.be_base.specs.Lists.{BeginsWith};
ghost use Rattle.be_change.specs.Sound.{Sound};
ghost use Rattle.be_published.specs.Reads.{Meets};
ghost use Rattle.be_desk.specs.declared.desk.TheConstants.{SESSIONS_END};
ghost use Rattle.be_desk.specs.Desks.{freed, HasPending, IsOpened};
ghost use Rattle.be_desk.specs.Numbers.{numbers};
ghost use Rattle.be_desk.specs.Rifts.{numbers_of};
ghost use Rattle.be_desk.specs.Seats.{SeatState, is_over};
ghost use Rattle.be_desk.specs.Changes.{Continues, serial_in};

use crate::ledger::Ledger;
use crate::patience::Patience;
use crate::rift::Rift;
use crate::seat::Seat;
use be_base::{NoMemory, Reserve, SessionNo};
use be_change::ChangeLog;
use be_mail::BoxNames;
use be_published::{Glass, Naming, Press, Sheet};
use std::marker::Model;
use std::sync::Wait;

/// A seat's session from this number on has no next one: 2^62.
pub const SESSIONS_END: u64 = 4611686018427387904;

/// The desk. It stands behind a lock. It is not `Drop`: end it by `end`, or by `into_log`.
pub struct Desk<T: Sheet<J>, J: Naming + BoxNames> {
    pub(crate) press: Press<T, J>,
    // The reader that plans what the maintainer does.
    pub(crate) glass: Glass<T, J>,
    pub(crate) ledger: Ledger,
    // How many seats there are.
    pub(crate) seats: u32,
    // What was earned towards the next look for a step.
    pub(crate) patience: Patience,
    // For removals and leaves.
    pub(crate) held: Reserve,
}

impl<T: Sheet<J>, J: Naming + BoxNames> Model for Desk<T, J> {
    ghost use Rattle.std.specs.Prelude.{◌≡◌, ◌<◌, length};
    ghost use Rattle.be_desk.specs.Desks.{DeskState, IsHeld, IsOpened};

    ghost Value = { DeskState };

    ghost view = { λ d. record { published = d.press.published; list = d.press.list; reshaped = d.press.reshaped; steps = d.press.steps; glass = d.glass; patience = d.patience } };

    ghost invariant = { λ d. (d.ledger ≡ d.press.list) × IsHeld d.press.published d.press.list × (d.seats ≡ length J.boxes) × (0 < d.seats) × IsOpened J.opening d.press.list };
}

impl<T: Sheet<J>, J: Naming + BoxNames> Desk<T, J> {
    /// The published length.
    pub fn len(&self) -> u64
        ensures len { result ≡ length self.now.published }
        ensures sound { Sound J.schema self.now.list }
        ensures begins { BeginsWith self.now.list self.now.published }
        ensures held { length self.now.list ≤ result + 1 }
        ensures opened { IsOpened J.opening self.now.list }
    {
        self.press.len()
    }

    /// Publishes the change that is held and the steps that are pending, where there are any. It may wait for readers.
    pub fn free<R: Wait>(&mut self, rt: &R) -> Result<(), NoMemory>
        ensures { MatchResult result (λ _. self.new ≡ freed self.old) (λ _. (self.new ≡ self.old) × HasPending self.old) }
    {
        if self.press.is_settled() {
            return Ok(());
        }
        self.press.publish(rt)?;
        Ok(())
    }

    /// Begins the seat's next session.
    pub fn enter(&self, seat: &mut Seat<T, J>)
        requires { seat.old.session < SESSIONS_END }
        ensures next { seat.new ≡ record seat.old { session = seat.old.session + length J.boxes } }
        ensures serial { serial_in seat.new ≡ 0 }
        ensures present { is_over seat.new ≡ false }
    {
        seat.session = SessionNo(seat.session.0 + u64::from(self.seats));
        seat.serial = 0;
        seat.gone = false;
    }

    /// Whether what the seat knows is longer than what is published: then the two lengths.
    pub fn ahead(&self, seat: &Seat<T, J>) -> Option<Rift>
        ensures some { (result ≡ None) ↔ (length seat.now.glass.known ≤ length self.now.published) }
        ensures numbers { IfSome result (λ r. numbers_of r ≡ numbers (length seat.now.glass.known) (length self.now.published)) }
    {
        let front = seat.glass.front();
        let written = self.press.len();
        if front > written {
            Some(Rift::make(front, written))
        } else {
            None
        }
    }

    /// Tells the seat's reader what is published, and lets it look. It may wait.
    pub fn show<R: Wait>(&self, rt: &R, seat: &mut Seat<T, J>)
        ensures goes { Continues seat.old seat.new }
        ensures own { (seat.new.own ≡ seat.old.own) × (seat.new.splits ≡ seat.old.splits) × (seat.new.rift ≡ seat.old.rift) }
        ensures known { BeginsWith seat.new.glass.known self.now.published }
    {
        seat.glass.learn(self.press.tell());
        seat.glass.meet(rt);
    }

    /// Gives the list out, and all else up. It may wait for readers.
    pub fn into_log<R: Wait>(self, rt: &R) -> ChangeLog
        ensures { result.list ≡ self.list }
    {
        let Desk {
            press,
            glass: _,
            ledger,
            seats: _,
            patience: _,
            held: _,
        } = self;
        press.end(rt);
        ledger.into_log()
    }

    /// Gives it up, with what is held. It may wait for readers.
    pub fn end<R: Wait>(self, rt: &R) {
        drop(self.into_log(rt));
    }
}
