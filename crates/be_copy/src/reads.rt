//! What is read of a copy: live rows by rising id, what a search costs, and the changes from a place on.

ghost use Rattle.std.specs.Prelude.{◌≡◌, ◌<◌, ◌++◌, [], true, length, OnOk, OnErr, IfOk};
ghost use Rattle.be_model.specs.Bounds.{IsWithinBound};
ghost use Rattle.be_model.specs.ByIds.{rows_of};
ghost use Rattle.be_model.specs.Lies.{event_lies};
ghost use Rattle.be_change.specs.Entries.{entries_in};
ghost use Rattle.be_model.specs.Matching.{FindsSome};
ghost use Rattle.be_model.specs.Rows.{KeepsRoom};
ghost use Rattle.be_change.specs.History.{live, hit_rows};
ghost use Rattle.be_change.specs.Walk.{live_rows, tail_from};

use crate::copies::Copy2;
use crate::tails::put_tail;
use be_base::NoMemory;
use be_index::Index;
use be_model::{Change, Cost, Event, Found};
use std::sync::Arc;

impl<I: Index> Copy2<I> {
    /// Finds the live rows that the event satisfies, by rising id, by one search, and drops what was found before.
    pub fn find(&self, event: &Event, found: &mut Found) -> Result<Cost, NoMemory>
        requires { event_lies (I.schema self.now.index) event.now ≡ true }
        ensures found { OnOk result (found.new.rows ≡ rows_of (hit_rows self.now.list event.now)) }
        ensures none { OnErr result (found.new.rows ≡ []) }
        // It is refused only where there is something to find.
        ensures some { OnErr result (FindsSome event.now (live_rows self.now.list)) }
        ensures room { KeepsRoom found.old found.new }
        ensures cost { IfOk result (λ cost. cost ≡ I.cost_of self.now.index event.now) }
        ensures bound { IfOk result (λ cost. I.is_bounded self.now.index ≡ true → IsWithinBound (I.schema self.now.index) event.now (live_rows self.now.list) cost) }
    {
        let index = self.index();
        // Called for its clause that ids rise.
        let _ = self.log().len();
        found.clear();
        let cost = index.find(event, found)?;
        found.order();
        Ok(cost)
    }

    /// What a search for the event costs. It takes no memory.
    pub fn cost(&self, event: &Event) -> Cost
        requires { event_lies (I.schema self.now.index) event.now ≡ true }
        ensures exact { result ≡ I.cost_of self.now.index event.now }
        ensures bound { I.is_bounded self.now.index ≡ true → IsWithinBound (I.schema self.now.index) event.now (live_rows self.now.list) result }
    {
        self.index().cost(event)
    }

    /// Finds all live rows, by rising id, and drops what was found before.
    pub fn all(&self, found: &mut Found) -> Result<(), NoMemory>
        ensures found { OnOk result (found.new.rows ≡ live_rows self.now.list) }
        ensures none { OnErr result (found.new.rows ≡ []) }
        // It is refused only where there is something to find.
        ensures some { OnErr result (0 < length (live self.now.list)) }
        ensures room { KeepsRoom found.old found.new }
    {
        let index = self.index();
        let _ = self.log().len();
        found.clear();
        index.all(found)?;
        found.order();
        Ok(())
    }

    /// Appends the changes from the place `from` on, at most `max`, or none.
    pub fn tail(&self, from: u64, max: u64, changes: &mut Vec<Arc<Change>>) -> Result<(), NoMemory>
        ensures put { OnOk result (entries_in changes.new.items ≡ entries_in changes.old.items ++ tail_from from max self.now.list) }
        ensures refused { OnErr result (changes.new.items ≡ changes.old.items) }
    {
        put_tail(self.log(), from, max, changes)
    }
}
