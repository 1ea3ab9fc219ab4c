//! How long a desk waits before it looks on for a step.

ghost use Rattle.std.specs.Prelude.{◌≡◌, ◌≤◌, ◌↔◌, IsTrue};
ghost use Rattle.be_base.specs.Counts.{raised};

use std::marker::Model;

/// A look for a step goes through about so many rows, and costs as much.
pub const LOOK_ROWS: u64 = 4096;

/// What an accepted change earns towards the next look: the looks that changes earn take about a tenth of the time that the
/// changes take.
pub const WORK_A_CHANGE: u64 = 8;

/// What a tend earns: without any change, a look comes after a quarter as many tends as a look goes through rows, where
/// enough rows are live for one.
pub const WORK_A_TEND: u64 = 4;

/// A tend looks for no step where fewer rows are live: a split made in a small tree stays while it grows, and makes it dear to
/// search.
pub const ROWS_RESHAPED: u64 = 4096;

/// What was earned since the last look. A count at the end of its type stays there.
#[derive(Drop)]
pub struct Patience {
    credit: u64,
}

impl Model for Patience {
    ghost use Rattle.std.specs.Prelude.{ℕ};

    ghost Value = { ℕ };

    ghost view = { λ p. p.credit };
}

impl Patience {
    /// Nothing was earned yet.
    pub fn make() -> Patience
        ensures { result ≡ 0 }
    {
        Patience { credit: 0 }
    }

    pub fn earn(&mut self, work: u64)
        ensures { self.new ≡ raised work self.old }
    {
        self.credit = self.credit.saturating_add(work);
    }

    /// Whether so many rows are enough for a look, and a look was earned.
    pub fn has_earned(&self, rows: u64) -> bool
        ensures { IsTrue result ↔ ((ROWS_RESHAPED ≤ rows) × (LOOK_ROWS ≤ self.now)) }
    {
        ROWS_RESHAPED <= rows && LOOK_ROWS <= self.credit
    }

    pub fn spend(&mut self)
        ensures { self.new ≡ 0 }
    {
        self.credit = 0;
    }
}
