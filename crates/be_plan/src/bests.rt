//! The best step so far.

ghost use Rattle.std.specs.Prelude.{◌≡◌, ◌<◌, Some, None};

use be_model::Step;

/// The kinds of step, the most wanted first, and how many there are.
pub(crate) const MERGES: usize = 0;

pub(crate) const SHIFTS: usize = 1;

pub(crate) const PART_SPLITS: usize = 2;

pub(crate) const HALF_SPLITS: usize = 3;

pub(crate) const KINDS: usize = 4;

/// The best step so far, and how many kinds are still looked for: those before its own.
#[derive(Drop)]
pub(crate) struct Best {
    pub(crate) sought: usize,
    pub(crate) step: Option<Step>,
}

impl Best {
    ghost use Rattle.be_plan.specs.Best.{better};

    /// No step, so that every kind is looked for.
    pub(crate) fn none() -> Best
        ensures sought { result.sought ≡ KINDS }
        ensures step { result.step ≡ None }
    {
        Best {
            sought: KINDS,
            step: None,
        }
    }

    /// A step of a kind that is still looked for.
    pub(crate) fn put(&mut self, kind: usize, step: Step)
        requires { kind < self.old.sought }
        ensures { self.new ≡ better kind (Some step) self.old }
    {
        self.sought = kind;
        self.step = Some(step);
    }
}
