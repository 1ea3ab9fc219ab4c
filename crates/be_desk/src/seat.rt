//! One session's token after another.

ghost use Rattle.std.specs.Prelude.{◌≡◌, ◌+◌, ◌↔◌, None, Some, length, option_map};
ghost use Rattle.std.specs.Option.{is_some};
ghost use Rattle.be_base.specs.Counts.{raised};
ghost use Rattle.be_change.specs.Sound.{Sound};
ghost use Rattle.be_board.specs.Word.{top};
ghost use Rattle.be_mail.specs.Passes.{new_passes};
ghost use Rattle.be_published.specs.States.{new_glass};
ghost use Rattle.be_desk.specs.Rifts.{numbers_of};
ghost use Rattle.be_desk.specs.Seats.{list_in, is_over, new_seat, IsKeptSeat};

use crate::rift::Rift;
use be_base::SessionNo;
use be_mail::{BoxNames, MailPasses};
use be_published::{Front, Glass, Naming, Shade, Sheet};
use std::alloc::Global;
use std::marker::Model;

/// One session's token, and the next ones' after it. Contracts see what it has seen, what it had accepted, and its passes.
#[derive(Drop)]
pub struct Seat<T: Sheet<J>, J: Naming + BoxNames> {
    pub(crate) session: SessionNo,
    // How many changes the session had accepted.
    pub(crate) serial: u64,
    // Whether the session has left.
    pub(crate) gone: bool,
    pub(crate) glass: Glass<T, J>,
    // The beginning of the list that ends with the last accepted change, and the places of all of them.
    pub(crate) made: Option<Front<J>>,
    pub(crate) places: Vec<u64>,
    pub(crate) passes: MailPasses,
    pub(crate) splits: u64,
    pub(crate) rift: Option<Rift>,
}

impl<T: Sheet<J>, J: Naming + BoxNames> Model for Seat<T, J> {
    ghost use Rattle.std.specs.Prelude.{◌≡◌, ◌↔◌, None, option_map};
    ghost use Rattle.be_desk.specs.Rifts.{numbers_of};
    ghost use Rattle.be_desk.specs.Seats.{SeatState, IsSeat, IsRecord, placed_at, list_in};

    ghost Value = { SeatState };

    ghost view = { λ s. record {
      session = s.session.0;
      own = placed_at (list_in s.made) s.places.items;
      glass = s.glass;
      passes = s.passes;
      splits = s.splits;
      rift = option_map numbers_of s.rift;
    } };

    ghost invariant = { λ s.
        IsRecord (list_in s.made) s.places.items
        × IsSeat J.boxes s.serial s.gone (record {
          session = s.session.0;
          own = placed_at (list_in s.made) s.places.items;
          glass = s.glass;
          passes = s.passes;
          splits = s.splits;
          rift = option_map numbers_of s.rift;
        })
        × ((s.rift ≡ None) ↔ (s.splits ≡ 0)) };
}

impl<T: Sheet<J>, J: Naming + BoxNames> Seat<T, J> {
    /// The seat of a session that begins at a new desk.
    pub(crate) fn make(
        alloc: Global,
        session: SessionNo,
        glass: Glass<T, J>,
        passes: MailPasses,
    ) -> Seat<T, J>
        requires glass { glass ≡ new_glass glass.known }
        requires boxes { passes.boxes ≡ J.boxes }
        requires new { passes ≡ new_passes J.boxes passes.seat }
        requires session { session.0 ≡ passes.seat + 1 }
        ensures { result ≡ new_seat glass.known session.0 passes }
    {
        // Called for its clause that the seat is one of those that have a mailbox.
        let _ = passes.seat();
        Seat {
            session,
            serial: 0,
            gone: false,
            glass,
            made: None,
            places: Vec::new(alloc),
            passes,
            splits: 0,
            rift: None,
        }
    }

    /// The present session.
    pub fn session(&self) -> SessionNo
        ensures session { result.0 ≡ self.now.session }
        ensures kept { IsKeptSeat J.boxes self.now }
        ensures sound { Sound J.schema self.now.glass.known }
    {
        let _ = self.glass.front();
        self.session
    }

    /// Whether the present session has left.
    pub fn left(&self) -> bool
        ensures { result ≡ is_over self.now }
    {
        self.gone
    }

    /// How often the desk told it two numbers that differ. A count at the end of its type stays there.
    pub fn splits(&self) -> u64
        ensures { result ≡ self.now.splits }
    {
        self.splits
    }

    /// The numbers of the last Split, where there was one.
    pub fn rift(&self) -> Option<Rift>
        ensures rift { option_map numbers_of result ≡ self.now.rift }
        ensures none { (result ≡ None) ↔ (self.now.splits ≡ 0) }
    {
        self.rift
    }

    /// What shows that a read was refused an entry, where one was.
    pub fn shade(&self) -> Option<Shade>
        ensures { (result ≡ None) ↔ (self.now.glass.shuts ≡ 0) }
    {
        self.glass.shade()
    }

    /// Gives its passes up, and all else.
    pub fn into_passes(self) -> MailPasses
        ensures { result ≡ self.passes }
    {
        self.passes
    }

    // Where the last accepted change ends.
    pub(crate) fn top(&self) -> u64
        ensures { result ≡ top self.now.own }
    {
        match &self.made {
            Some(made) => made.len(),
            None => 0,
        }
    }
}
