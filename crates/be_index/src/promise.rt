//! The index of rows, as whoever uses one sees it.

ghost use Rattle.std.specs.Prelude.{◌≡◌, ◌≢◌, ◌↔◌, ◌<◌, ◌≤◌, true, false, Some, [], length, OnOk, OnErr, IfOk, IfErr, IfSome, IsTrue};
ghost use Rattle.std.specs.Arc.{arc_value};
ghost use Rattle.std.specs.Bool.{OnTrue, OnFalse};
ghost use Rattle.be_base.specs.declared.limits.TheConstants.{LOG_CHANGES};
ghost use Rattle.be_model.specs.Bounds.{IsWithinBound};
ghost use Rattle.be_model.specs.ByIds.{put_by_id, without_id, has_id, row_at, rows_of, session_rows, PutsEach};
ghost use Rattle.be_model.specs.Lies.{row_lies, event_lies};
ghost use Rattle.be_model.specs.Matching.{satisfied};
ghost use Rattle.be_model.specs.Rows.{id_of, KeepsRoom};
ghost use Rattle.be_model.specs.Kinds.{is_merge};
ghost use Rattle.be_index.specs.Puts.{KeepsPlaces, PutsHits};
ghost use Rattle.be_index.specs.Promise.{IsMap};

use crate::hits::Hits;
use be_base::{NoMemory, SessionNo};
use be_model::{Cost, Event, Found, Path, Row, Step, StepDone};
use std::sync::Arc;

/// Rows of one schema by their ids.
pub trait Index: Drop {
    ghost use Rattle.std.specs.Prelude.{Bool, Option};
    ghost use Rattle.be_model.specs.declared.costs.Cost.{Cost};
    ghost use Rattle.be_model.specs.declared.paths.Step.{Step};
    ghost use Rattle.be_model.specs.ByIds.{ByIds};
    ghost use Rattle.be_model.specs.Matching.{Assignments};
    ghost use Rattle.be_model.specs.Schemas.{Attributes};

    ghost schema: { Self → Attributes };

    /// The finite map from id to row.
    ghost rows: { Self → ByIds };

    /// Whether the cost of each search is within the bound over the rows.
    ghost is_bounded: { Self → Bool };

    /// What a search for the event costs.
    ghost cost_of: { Self → Assignments → Cost };

    /// Whether the step stands.
    ghost can_step: { Self → Step → Bool };

    /// What there is after a step that was made.
    ghost is_made: { Step → Self → Self → Type 0 };

    /// Whether the rows are kept as they were.
    ghost is_unchanged: { Self → Self → Type 0 };

    /// The step that a plan chooses.
    ghost planned: { Self → Option Step };

    /// Whether the row lies in the schema.
    fn lies(&self, row: &Row) -> bool
        ensures { result ≡ row_lies (schema self.now) row.now };

    /// Adds a row, or hands it back.
    fn insert(&mut self, row: Arc<Row>) -> Result<(), (Arc<Row>, NoMemory)>
        requires new { has_id (id_of (arc_value row)) (rows self.old) ≡ false }
        requires low { id_of (arc_value row) < LOG_CHANGES }
        requires lies { row_lies (schema self.old) (arc_value row) ≡ true }
        ensures put { OnOk result (rows self.new ≡ put_by_id (arc_value row) (rows self.old)) }
        ensures refused { OnErr result (rows self.new ≡ rows self.old) }
        ensures back { IfErr result (λ e. arc_value e.0 ≡ arc_value row) }
        ensures schema { schema self.new ≡ schema self.old }
        ensures bounded { is_bounded self.new ≡ is_bounded self.old };

    /// Removes this row, and says whether it was there. It takes no memory.
    fn remove(&mut self, row: &Row) -> bool
        ensures there { IsTrue result ↔ (row_at (id_of row.now) (rows self.old) ≡ Some row.now) }
        ensures removed { OnTrue result (rows self.new ≡ without_id (id_of row.now) (rows self.old)) }
        ensures kept { OnFalse result (rows self.new ≡ rows self.old) }
        ensures nothing { OnFalse result (is_unchanged self.old self.new) }
        ensures schema { schema self.new ≡ schema self.old }
        ensures bounded { is_bounded self.new ≡ is_bounded self.old };

    /// Takes out all rows. It takes no memory.
    fn clear(&mut self)
        ensures rows { rows self.new ≡ [] }
        ensures schema { schema self.new ≡ schema self.old }
        ensures bounded { is_bounded self.new ≡ is_bounded self.old };

    /// Puts the rows that the event satisfies, in any order.
    fn find<C: Hits>(&self, event: &Event, found: &mut C) -> Result<Cost, NoMemory>
        requires { event_lies (schema self.now) event.now ≡ true }
        ensures found { OnOk result (PutsHits C.item_of event.now (rows self.now) (C.held found.old) (C.held found.new)) }
        ensures cost { IfOk result (λ cost. cost ≡ cost_of self.now event.now) }
        ensures bound { IfOk result (λ cost. is_bounded self.now ≡ true → IsWithinBound (schema self.now) event.now (rows_of (rows self.now)) cost) }
        // It is refused only where it finds more rows than can surely be put.
        ensures some { OnErr result ((C.held found.old).sure < length (satisfied event.now (rows_of (rows self.now)))) }
        ensures refused { OnErr result ((C.held found.new).items ≡ (C.held found.old).items) }
        // Each found row takes up no more than its own place.
        ensures kept { KeepsPlaces (C.held found.old) (C.held found.new) };

    /// What a search for the event costs. It takes no memory.
    fn cost(&self, event: &Event) -> Cost
        requires { event_lies (schema self.now) event.now ≡ true }
        ensures cost { result ≡ cost_of self.now event.now }
        ensures bound { is_bounded self.now ≡ true → IsWithinBound (schema self.now) event.now (rows_of (rows self.now)) result };

    /// How many rows there are.
    fn len(&self) -> u64
        ensures len { result ≡ length (rows self.now) }
        ensures map { IsMap (rows self.now) };

    /// Appends the session's rows, in any order.
    fn rows_of(&self, session: SessionNo, found: &mut Found) -> Result<(), NoMemory>
        ensures found { OnOk result (PutsEach (session_rows session.0 (rows self.now)) found.old.rows found.new.rows) }
        ensures some { OnErr result (0 < length (session_rows session.0 (rows self.now))) }
        ensures refused { OnErr result (found.new.rows ≡ found.old.rows) }
        ensures room { OnErr result (found.old.spare ≤ found.new.spare) }
        ensures kept { OnOk result (KeepsRoom found.old found.new) };

    /// Appends every row, in any order.
    fn all(&self, found: &mut Found) -> Result<(), NoMemory>
        ensures found { OnOk result (PutsEach (rows_of (rows self.now)) found.old.rows found.new.rows) }
        ensures some { OnErr result (0 < length (rows self.now)) }
        ensures refused { OnErr result (found.new.rows ≡ found.old.rows) }
        ensures room { OnErr result (found.old.spare ≤ found.new.spare) }
        ensures kept { OnOk result (KeepsRoom found.old found.new) };

    /// Makes a step, which changes no more than how the rows are kept. It may be passed over for want of memory.
    fn step(&mut self, step: &Step) -> StepDone
        ensures rows { rows self.new ≡ rows self.old }
        ensures schema { schema self.new ≡ schema self.old }
        ensures bounded { is_bounded self.new ≡ is_bounded self.old }
        ensures here { (result ≡ StepDone.NotHere) ↔ (can_step self.old step.now ≡ false) }
        ensures made { result ≡ StepDone.Done → is_made step.now self.old self.new }
        ensures nothing { result ≡ StepDone.NotHere → is_unchanged self.old self.new }
        // It takes no memory.
        ensures merge { is_merge step.now ≡ true → result ≢ StepDone.Skipped };

    /// The step that is to be made next, where there is one.
    fn plan(&self) -> Result<Option<Step>, NoMemory>
        ensures plan { IfOk result (λ step. step ≡ planned self.now) }
        ensures stands { IfSome (planned self.now) (λ step. can_step self.now step ≡ true) };

    /// A step that stands, where one is found among those of about so many rows. The look begins at the node of a path, or at the
    /// first where there is none, and leaves the path where the next one begins: none, where it came to the last.
    fn look_on(&self, from: &mut Option<Path>, most: u64) -> Result<Option<Step>, NoMemory>
        ensures stands { IfOk result (λ found. IfSome found (λ step. can_step self.now step ≡ true)) }
        ensures refused { OnErr result (from.new ≡ from.old) };
}
