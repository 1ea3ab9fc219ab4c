//! What counts how often a desk was tended.

ghost use Rattle.std.specs.Prelude.{◌≡◌};

use std::marker::Model;

/// How often the desk was tended by whoever holds it. Nothing else raises it. A count at the end of its type stays there.
#[derive(Drop)]
pub struct TendCount {
    pub(crate) calls: u64,
}

impl Model for TendCount {
    ghost use Rattle.std.specs.Prelude.{ℕ};

    ghost Value = { ℕ };

    ghost view = { λ t. t.calls };
}

impl TendCount {
    /// Nothing was tended yet.
    pub fn make() -> TendCount
        ensures { result ≡ 0 }
    {
        TendCount { calls: 0 }
    }

    /// How often the desk was tended.
    pub fn calls(&self) -> u64
        ensures { result ≡ self.now }
    {
        self.calls
    }
}
