//! Why a text is no condition.

ghost use Rattle.std.specs.Prelude.{◌≡◌, ◌+◌, ◌<◌, ◌^◌, [], None};
ghost use Rattle.be_expr.specs.Faults.{joined_faults, first_fault};

use be_base::{AttrNo, Name, NoMemory, PREDICATES};
use thiserror::Error;

/// Why a text is no condition.
#[derive(Clone, Copy, Debug, PartialEq, Eq, Error)]
pub enum ExprFault {
    /// It has no reading.
    #[error("no reading")]
    Bad,
    /// The first attribute that the schema doesn't have.
    #[error("unknown attribute {name}")]
    Attr { name: Name },
    /// The attribute of the first value outside its domain.
    #[error("a value outside the domain of attribute {}", .attr.0)]
    Dom { attr: AttrNo },
    /// How many predicates there are, where there are too many, or else how many values the first set has that has too many.
    #[error("too many: {count}")]
    Many { count: u64 },
    #[error("out of memory")]
    NoMemory,
}

impl From<NoMemory> for ExprFault {
    ghost use Rattle.be_expr.specs.declared.faults.ExprFault.TheVariants.{NoMemory};

    ghost from_gives = { λ _ fault. fault ≡ NoMemory };

    fn from(_: NoMemory) -> ExprFault {
        ExprFault::NoMemory
    }
}

/// What a scan met: how many predicates, and of each kind the first fault.
#[derive(Clone, Copy)]
pub struct Faults {
    pub preds: u64,
    pub unknown: Option<ExprFault>,
    pub outside: Option<ExprFault>,
    pub large_set: Option<ExprFault>,
}

impl Faults {
    /// Nothing is met yet.
    pub const NONE: Faults = Faults {
        preds: 0,
        unknown: None,
        outside: None,
        large_set: None,
    };

    /// What is met in both parts of a text, the first part being this one.
    pub fn then(self, next: Faults) -> Faults
        requires { self.preds + next.preds < 2 ^ 64 }
        ensures { result ≡ joined_faults self next }
    {
        Faults {
            preds: self.preds + next.preds,
            unknown: self.unknown.or(next.unknown),
            outside: self.outside.or(next.outside),
            large_set: self.large_set.or(next.large_set),
        }
    }

    /// The first fault in the order of the kinds.
    pub fn first(self) -> Option<ExprFault>
        ensures { result ≡ first_fault self }
    {
        let many = if self.preds > PREDICATES as u64 {
            Some(ExprFault::Many { count: self.preds })
        } else {
            self.large_set
        };
        self.unknown.or(self.outside.or(many))
    }
}
