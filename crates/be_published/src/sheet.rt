//! A copy, as the writer and the readers see it.

ghost use Rattle.std.specs.Prelude.{◌≡◌, ◌++◌, [], true, List, fold, OnOk, OnErr, IfOk, IfSome};
ghost use Rattle.be_model.specs.Bounds.{IsWithinBound};
ghost use Rattle.be_model.specs.ByIds.{rows_of, session_rows};
ghost use Rattle.be_model.specs.Lies.{event_lies};
ghost use Rattle.be_change.specs.Entries.{entries_in};
ghost use Rattle.be_change.specs.History.{Entry, live, hit_rows, hits};
ghost use Rattle.be_change.specs.Walk.{live_rows, tail_from};
ghost use Rattle.be_index.specs.Ids.{ids_of};
ghost use Rattle.be_index.specs.Names.{spaced};
ghost use Rattle.be_published.specs.Notes.{Noted, noted};

use crate::front::Front;
use crate::history::Naming;
use crate::notes::Note;
use be_base::{NoMemory, SessionNo};
use be_index::Ids;
use be_model::{Change, Cost, Event, Found, Path, Step};
use left_right::Absorb;
use std::sync::Arc;

/// A copy that the writer shows to readers. Contracts see of it its list, what a search costs in it, which steps stand, and what a plan finds. The
/// writer and the readers take it as a parameter: a field of theirs can't name a `Page` of any index.
pub trait Sheet<J: Naming>: Absorb<Note<J>> + Drop {
    ghost use Rattle.std.specs.Prelude.{ℕ, Bool, Option};
    ghost use Rattle.be_model.specs.declared.costs.Cost.{Cost};
    ghost use Rattle.be_model.specs.declared.paths.Step.{Step};
    ghost use Rattle.be_model.specs.Matching.{Assignments};

    ghost list: { Self → List Entry };

    /// What a search for the event costs in this copy.
    ghost cost_of: { Self → Assignments → Cost };

    /// The step that is to be made next in this copy.
    ghost planned: { Self → Option Step };

    /// Whether the step stands in this copy.
    ghost can_step: { Self → Step → Bool };

    /// The copy's mark.
    ghost mark_of: { Self → ℕ };

    /// The beginning of the history that its list is.
    fn front(&self) -> &Front<J>
        ensures { result.now ≡ list self.now };

    /// Finds the live rows that the event satisfies, by rising id, by one search.
    fn find(&self, event: &Event, found: &mut Found) -> Result<Cost, NoMemory>
        requires { event_lies J.schema event.now ≡ true }
        ensures found { OnOk result (found.new.rows ≡ rows_of (hit_rows (list self.now) event.now)) }
        ensures bound { IfOk result (IsWithinBound J.schema event.now (live_rows (list self.now))) }
        ensures none { OnErr result (found.new.rows ≡ []) };

    /// Finds the ids of the live rows that the event satisfies, by rising id, and their names, each after a space, by one search.
    fn hits(&self, event: &Event, ids: &mut Ids, names: &mut Vec<u8>) -> Result<Cost, NoMemory>
        requires { event_lies J.schema event.now ≡ true }
        ensures ids { OnOk result (ids.new.ids ≡ ids_of (hit_rows (list self.now) event.now)) }
        ensures names { OnOk result (names.new.items ≡ spaced (hits (list self.now) event.now)) }
        ensures bound { IfOk result (IsWithinBound J.schema event.now (live_rows (list self.now))) }
        ensures none { OnErr result (names.new.items ≡ []) };

    fn cost(&self, event: &Event) -> Cost
        requires { event_lies J.schema event.now ≡ true }
        ensures cost { result ≡ cost_of self.now event.now }
        ensures bound { IsWithinBound J.schema event.now (live_rows (list self.now)) result };

    /// Finds the session's live rows, by rising id.
    fn rows_of(&self, session: SessionNo, found: &mut Found) -> Result<(), NoMemory>
        ensures found { OnOk result (found.new.rows ≡ session_rows session.0 (live (list self.now))) }
        ensures none { OnErr result (found.new.rows ≡ []) };

    /// Finds all live rows, by rising id.
    fn all(&self, found: &mut Found) -> Result<(), NoMemory>
        ensures found { OnOk result (found.new.rows ≡ live_rows (list self.now)) }
        ensures none { OnErr result (found.new.rows ≡ []) };

    /// Appends the changes from the place `from` on, at most `max`, or none.
    fn tail(&self, from: u64, max: u64, changes: &mut Vec<Arc<Change>>) -> Result<(), NoMemory>
        ensures put { OnOk result (entries_in changes.new.items ≡ entries_in changes.old.items ++ tail_from from max (list self.now)) }
        ensures refused { OnErr result (changes.new.items ≡ changes.old.items) };

    /// The step that is to be made next, where there is one.
    fn plan(&self) -> Result<Option<Step>, NoMemory>
        ensures { IfOk result (λ step. step ≡ planned self.now) };

    /// A step that stands, where one is found among those of about so many rows. The look begins and ends as one of an index does.
    fn look_on(&self, from: &mut Option<Path>, most: u64) -> Result<Option<Step>, NoMemory>
        ensures { IfOk result (λ found. IfSome found (λ step. can_step self.now step ≡ true)) };

    /// Names the copy and its present state among the two copies of a press: the same number is the same copy, which took
    /// in no note between.
    fn mark(&self) -> u64
        ensures { result ≡ mark_of self.now };

    /// Notes lead its list as `noted` says.
    ghost follows: { (x y : Self) (notes : List Noted) → Self.state y ≡ fold Self.applied (Self.state x) notes → list y ≡ fold noted (list x) notes };
}
