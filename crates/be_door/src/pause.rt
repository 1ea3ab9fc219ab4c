//! Pauses that grow.

ghost use Rattle.std.specs.Prelude.{◌≡◌, ◌*◌, ◌≤◌, min};

use std::thread;
use std::time::{Clock, Duration};

const FIRST: u64 = 10;

const LONGEST: u64 = 1_000;

/// How long the next pause is, in milliseconds.
#[derive(Drop)]
pub(crate) struct Pause {
    millis: u64,
}

impl Pause {
    pub(crate) fn first() -> Pause
        ensures { result.millis ≡ FIRST }
    {
        Pause { millis: FIRST }
    }

    /// Pauses. The next pause is twice as long, up to the longest.
    pub(crate) fn take(&mut self, clock: &impl Clock)
        ensures { self.new.millis ≡ min (self.old.millis * 2) LONGEST }
    {
        thread::sleep(clock, Duration::from_millis(self.millis));
        self.millis = self.millis.saturating_mul(2).min(LONGEST);
    }
}
