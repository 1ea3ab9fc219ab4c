//! What counts how often a desk was maintained.

ghost use Rattle.std.specs.Prelude.{◌≡◌};

use std::marker::Model;

/// How often the desk was maintained by whoever holds it. Nothing else raises it. A count at the end of its type stays there.
#[derive(Drop)]
pub struct Broom {
    pub(crate) calls: u64,
}

impl Model for Broom {
    ghost use Rattle.std.specs.Prelude.{ℕ};

    ghost Value = { ℕ };

    ghost view = { λ b. b.calls };
}

impl Broom {
    /// A broom that was never used.
    pub fn make() -> Broom
        ensures { result ≡ 0 }
    {
        Broom { calls: 0 }
    }

    /// How often the desk was maintained by it.
    pub fn calls(&self) -> u64
        ensures { result ≡ self.now }
    {
        self.calls
    }
}
