//! What one worker has of a heat.

ghost use Rattle.std.specs.Prelude.{◌≡◌, ◌<◌, length};
ghost use Rattle.be_heat.specs.Seats.{at_word};

use crate::rule::Hand;
use atomic_table::Seat;
use std::marker::Model;

/// One worker's right to add, with what it has added to each word.
#[derive(Drop)]
pub struct HeatSeat {
    pub(crate) seat: Seat<(), Hand>,
    pub(crate) own: Vec<u64>,
}

impl Model for HeatSeat {
    ghost use Rattle.be_heat.specs.Seats.{SeatState};
    ghost use Rattle.be_heat.specs.Counted.{IsSeatOf};

    ghost Value = { SeatState };

    ghost view = { λ s. record { of = s.seat.table_id; own = s.own.items } };

    ghost invariant = { λ s. IsSeatOf s.seat.table_id s.seat.me s.own.items };
}

impl HeatSeat {
    /// What this seat has added to a word.
    pub fn own(&self, word: u32) -> u64
        requires word { word < length self.now.own }
        ensures exact { result ≡ at_word self.now.own word }
    {
        self.own[word as usize]
    }
}
