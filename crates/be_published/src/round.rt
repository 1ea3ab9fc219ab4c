//! How far a reader's looks for steps have come.

ghost use Rattle.std.specs.Prelude.{◌≡◌, true, IfOk, IfSome};

use crate::history::Naming;
use crate::sheet::Sheet;
use be_base::NoMemory;
use be_model::{Path, Step};

/// Looks that go on where the last one ended, from the first rows to the last, and then from the first again.
#[derive(Drop)]
pub(crate) struct Round {
    // Where the next look begins.
    from: Option<Path>,
    // The mark of the copy in which this round began, where no look of it found a step.
    began: Option<u64>,
    // The mark of the copy in which a whole round found no step. While the copy has this mark, a look finds none.
    bare: Option<u64>,
}

impl Round {
    pub(crate) fn new() -> Round {
        Round {
            from: None,
            began: None,
            bare: None,
        }
    }

    /// What the next look through about so many rows finds in the copy.
    pub(crate) fn look_on<T: Sheet<J>, J: Naming>(
        &mut self,
        copy: &T,
        most: u64,
    ) -> Result<Option<Step>, NoMemory>
        ensures { IfOk result (λ found. IfSome found (λ step. T.can_step copy.now step ≡ true)) }
    {
        let mark = copy.mark();
        if self.bare == Some(mark) {
            return Ok(None);
        }
        if self.from.is_none() {
            self.began = Some(mark);
        }
        let found = copy.look_on(&mut self.from, most)?;
        if found.is_some() {
            self.began = None;
        }
        if self.from.is_none() && self.began == Some(mark) {
            self.bare = Some(mark);
        }
        Ok(found)
    }
}
