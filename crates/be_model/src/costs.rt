//! What a search costs.

ghost use Rattle.std.specs.Prelude.{◌≡◌, ◌+◌, ◌^◌, ◌<◌};
ghost use Rattle.be_model.specs.Costs.{cost};

/// How many nodes a search visits, and how many rows it tests.
#[derive(Clone, Copy, Debug, PartialEq, Eq)]
pub struct Cost {
    pub visits: u64,
    pub tested: u64,
}

impl Cost {
    pub fn none() -> Cost
        ensures { result ≡ cost 0 0 }
    {
        Cost {
            visits: 0,
            tested: 0,
        }
    }

    pub fn plus(self, other: Cost) -> Cost
        requires visits { self.visits + other.visits < 2 ^ 64 }
        requires tested { self.tested + other.tested < 2 ^ 64 }
        ensures { result ≡ cost (self.visits + other.visits) (self.tested + other.tested) }
    {
        Cost {
            visits: self.visits + other.visits,
            tested: self.tested + other.tested,
        }
    }
}
