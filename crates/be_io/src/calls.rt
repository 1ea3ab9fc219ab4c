//! The calls on an object in memory, of which some are to fail.

ghost use Rattle.std.specs.Prelude.{◌≡◌};
ghost use Rattle.be_io.specs.Calls.{CallState, no_calls, is_to_fail, after_call, after_fault};

use std::marker::Model;

#[derive(Drop)]
pub struct Calls {
    fails: Vec<u64>,
    made: u64,
    faults: u64,
}

impl Model for Calls {
    ghost Value = { CallState };

    ghost view = { λ c. record { fails = c.fails.items; made = c.made; faults = c.faults } };
}

impl Calls {
    pub fn make(fails: Vec<u64>) -> Calls
        ensures { result ≡ no_calls fails.items }
    {
        Calls {
            fails,
            made: 0,
            faults: 0,
        }
    }

    /// Whether the next call is to fail.
    pub fn is_next_to_fail(&self) -> bool
        ensures { result ≡ is_to_fail self.now }
    {
        self.fails.contains(&self.made.saturating_add(1))
    }

    /// Counts a call that didn't fail.
    pub fn add_call(&mut self)
        ensures { self.new ≡ after_call self.old }
    {
        self.made = self.made.saturating_add(1);
    }

    /// Counts a call that failed.
    pub fn add_fault(&mut self)
        ensures { self.new ≡ after_fault self.old }
    {
        self.made = self.made.saturating_add(1);
        self.faults = self.faults.saturating_add(1);
    }
}
