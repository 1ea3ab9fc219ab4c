//! An output for which memory is always wanting.

ghost use Rattle.std.specs.Prelude.{◌≡◌, Some, []};

use be_io::{Sink, SinkFault};

/// A sink that refuses each write for want of memory.
#[derive(Drop)]
pub struct Full {
    pub refusals: u64,
}

impl Full {
    pub fn make() -> Full
        ensures { result.refusals ≡ 0 }
    {
        Full { refusals: 0 }
    }
}

impl Sink for Full {
    ghost held = { λ s. Some [] };

    ghost write_faults = { λ s. 0 };

    ghost refusals = { λ s. s.refusals };

    ghost kept_back = { λ _. 0 };

    fn write(&mut self, _bytes: &[u8]) -> Result<usize, SinkFault> {
        self.refusals = self.refusals.saturating_add(1);
        Err(SinkFault::NoMemory)
    }

    fn flush(&mut self) -> Result<(), SinkFault> {
        Ok(())
    }
}
