//! The passes of one seat.

ghost use Rattle.std.specs.Prelude.{◌≡◌};
ghost use Rattle.be_mail.specs.Passes.{AreOfSeat};

use crate::rule::BoxPass;
use std::marker::Model;

/// What one seat shows of each mailbox, with the counts of what it found full or empty. A count that has come to the end
/// of its type stays there.
#[derive(Drop)]
pub struct MailPasses {
    pub(crate) seat: u32,
    pub(crate) passes: Vec<BoxPass>,
    pub(crate) fulls: u64,
    pub(crate) empties: u64,
}

impl Model for MailPasses {
    ghost use Rattle.be_mail.specs.Passes.{Passes, passes_of, AreHandsOf};

    ghost Value = { Passes };

    ghost view = { λ m. passes_of m.seat m.passes.items m.fulls m.empties };

    ghost invariant = { λ m. AreHandsOf m.seat m.passes.items };
}

impl MailPasses {
    /// The seat whose passes these are, from 0.
    pub fn seat(&self) -> u32
        ensures seat { result ≡ self.now.seat }
        ensures form { AreOfSeat self.now }
    {
        self.seat
    }

    /// How often a put found a mailbox full.
    pub fn fulls(&self) -> u64
        ensures { result ≡ self.now.fulls }
    {
        self.fulls
    }

    /// How often a fetch found the seat's own mailbox empty.
    pub fn empties(&self) -> u64
        ensures { result ≡ self.now.empties }
    {
        self.empties
    }
}
