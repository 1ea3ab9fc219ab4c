//! Looks of a reader for a step.

ghost use Rattle.std.specs.Prelude.{◌≡◌, true, IfOk, IfErr, IfSome, option_map};
ghost use Rattle.be_published.specs.Copies.{Looks};
ghost use Rattle.be_published.specs.Reads.{Refuses, after_look};

use crate::glass::{Glass, enter, leave};
use crate::history::Naming;
use crate::round::Round;
use crate::sheet::Sheet;
use be_base::{NoMemory, NoRead};
use be_model::Step;

impl<T: Sheet<J>, J: Naming> Glass<T, J> {
    /// A step that stands in the published copy, where one is found among those of about so many rows. The look goes on where the last one
    /// ended, and begins again behind the last row. It searches nothing where a plan or a whole round of looks of this reader
    /// found no step in the copy and its mark is the same.
    pub fn look_on(&mut self, most: u64) -> Result<Option<Step>, NoRead>
        ensures looks { IfOk result (Looks T.list T.can_step self.old self.new) }
        ensures refused { IfErr result (Refuses self.old self.new) }
    {
        let Some(entered) = enter(&mut self.door, &self.front) else {
            return Err(self.refuse());
        };
        let done = look_in(entered.get(), self.bare, &mut self.round, most);
        leave(&mut self.door, entered);
        match done {
            Ok(step) => {
                self.note_look(step.as_ref());
                Ok(step)
            }
            Err(NoMemory) => Err(NoRead::NoMemory),
        }
    }

    // Counts the step that a look found.
    fn note_look(&mut self, found: Option<&Step>)
        ensures { self.new ≡ after_look self.old (option_map (λ step. step.now) found.entry) }
    {
        if let Some(step) = found {
            self.plans = self.plans.and(step);
        }
    }
}

// What a look finds in the copy: none, without a search, where it has the mark of one in which a plan found none.
fn look_in<T: Sheet<J>, J: Naming>(
    copy: &T,
    bare: Option<u64>,
    round: &mut Round,
    most: u64,
) -> Result<Option<Step>, NoMemory>
    ensures { IfOk result (λ found. IfSome found (λ step. T.can_step copy.now step ≡ true)) }
{
    if bare == Some(copy.mark()) {
        return Ok(None);
    }
    round.look_on(copy, most)
}
