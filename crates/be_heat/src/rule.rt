//! The rule of counted words, and what each kind of step does to a view. Steps are fetch_add, split_seat and join_seat alone.

use atomic_table::{Join, Play, Split, TableRule};
use std::marker::Model;

/// How many words and how many seats a heat was made with.
#[derive(Clone, Copy)]
pub struct Size {
    pub words: u32,
    pub seats: u32,
}

/// What a seat of the table has: a share for each seat of the heat that it stands for, and what these have added. It stands in
/// proofs alone: no value of it is made.
pub struct Hand {}

impl Model for Hand {
    ghost use Rattle.std.specs.Prelude.{[]};
    ghost use Rattle.be_heat.specs.Counted.{HandState, hand};

    ghost Value = { HandState };

    ghost view = { λ h. hand 0 [] };
}

/// The rule of a heat's words.
pub struct Summed;

impl TableRule<(), Hand, Size> for Summed {
    ghost use Rattle.be_heat.specs.Counted.{Counted, first_hand};

    ghost holds = { Counted };

    ghost first = { first_hand };
}

/// One more, of a word and of the seat's own count.
pub struct Adds;

impl Play<(), Hand> for Adds {
    ghost use Rattle.be_heat.specs.Counted.{HasAdded};

    ghost then = { HasAdded };
}

/// One share is handed on, before anything was added.
pub struct OneShare;

impl Split<Hand> for OneShare {
    ghost use Rattle.be_heat.specs.Counted.{one_less, one_share};

    ghost left = { one_less };

    ghost right = { one_share };
}

/// A seat takes in another's share and counts, and leaves it nothing.
pub struct Both;

impl Join<Hand> for Both {
    ghost use Rattle.std.specs.Prelude.{[]};
    ghost use Rattle.be_heat.specs.Counted.{both, hand};

    ghost both = { both };

    ghost spent = { hand 0 [] };
}
