//! The hits of an event by their ids and their names.

ghost use Rattle.std.specs.Prelude.{◌≡◌, ◌<◌, ◌≤◌, ◌+◌, ◌++◌, [], true, length, OnOk, OnErr, IfOk};
ghost use Rattle.be_model.specs.Bounds.{IsWithinBound};
ghost use Rattle.be_model.specs.Lies.{event_lies};
ghost use Rattle.be_model.specs.Matching.{FindsSome, satisfied};
ghost use Rattle.be_change.specs.History.{hit_rows, hits};
ghost use Rattle.be_change.specs.Walk.{live_rows};
ghost use Rattle.be_index.specs.Ids.{ids_of};
ghost use Rattle.be_index.specs.Names.{spaced};
ghost use Rattle.be_copy.specs.Hits.{spaced_at, all_spaced_at, all_texts_at};

use crate::copies::Copy2;
use crate::spaced_names::SpacedNames;
use be_base::{Id, NoMemory};
use be_change::ChangeLog;
use be_index::{Ids, Index};
use be_model::{Cost, Event};

impl<I: Index> Copy2<I> {
    /// Finds the ids of the live rows that the event satisfies, by rising id, by one search, and their names, each after a space, and
    /// drops what was found before. It takes no reference to a row.
    pub fn hits(&self, event: &Event, ids: &mut Ids, names: &mut Vec<u8>) -> Result<Cost, NoMemory>
        requires { event_lies (I.schema self.now.index) event.now ≡ true }
        ensures ids { OnOk result (ids.new.ids ≡ ids_of (hit_rows self.now.list event.now)) }
        ensures names { OnOk result (names.new.items ≡ spaced (hits self.now.list event.now)) }
        ensures none { OnErr result (names.new.items ≡ []) }
        // It is refused only where there is something to find.
        ensures some { OnErr result (FindsSome event.now (live_rows self.now.list)) }
        ensures cost { IfOk result (λ cost. cost ≡ I.cost_of self.now.index event.now) }
        ensures bound { IfOk result (λ cost. I.is_bounded self.now.index ≡ true → IsWithinBound (I.schema self.now.index) event.now (live_rows self.now.list) cost) }
    {
        names.clear();
        let cost = self.hit_ids(event, ids)?;
        match self.push_names(ids.ids(), names) {
            Ok(()) => Ok(cost),
            Err(NoMemory) => {
                names.clear();
                Err(NoMemory)
            }
        }
    }

    /// How many live rows the event satisfies, by one search, which uses `ids` as its room.
    pub fn count_hits(&self, event: &Event, ids: &mut Ids) -> Result<u64, NoMemory>
        requires { event_lies (I.schema self.now.index) event.now ≡ true }
        ensures count { IfOk result (λ n. n ≡ length (satisfied event.now (live_rows self.now.list))) }
        // It is refused only where there are more of them than `ids` has room for, and so something to find.
        ensures room { OnErr result (ids.old.spare + length ids.old.ids < length (satisfied event.now (live_rows self.now.list))) }
        ensures some { OnErr result (FindsSome event.now (live_rows self.now.list)) }
        ensures kept { ids.old.spare + length ids.old.ids ≤ ids.new.spare + length ids.new.ids }
    {
        ids.clear();
        self.index().find(event, ids)?;
        Ok(ids.ids().len() as u64)
    }

    // The ids of the live rows that the event satisfies, by rising id.
    fn hit_ids(&self, event: &Event, ids: &mut Ids) -> Result<Cost, NoMemory>
        requires { event_lies (I.schema self.now.index) event.now ≡ true }
        ensures ids { OnOk result (ids.new.ids ≡ ids_of (hit_rows self.now.list event.now)) }
        ensures some { OnErr result (FindsSome event.now (live_rows self.now.list)) }
        ensures cost { IfOk result (λ cost. cost ≡ I.cost_of self.now.index event.now) }
        ensures bound { IfOk result (λ cost. I.is_bounded self.now.index ≡ true → IsWithinBound (I.schema self.now.index) event.now (live_rows self.now.list) cost) }
    {
        let index = self.index();
        // Called for its clause that ids rise.
        let _ = self.log().len();
        ids.clear();
        let cost = index.find(event, ids)?;
        ids.sort();
        Ok(cost)
    }

    // Puts the names of the rows at these places last, each after a space.
    fn push_names(&self, ids: &[u64], names: &mut Vec<u8>) -> Result<(), NoMemory>
        ensures put { OnOk result (names.new.items ≡ names.old.items ++ all_spaced_at self.now.list ids.now) }
        ensures some { OnErr result (0 < length ids.now) }
    {
        match self.names() {
            Some(texts) => push_texts(texts, ids, names),
            None => push_from_rows(self.log(), ids, names),
        }
    }
}

// Puts the texts at these places last.
fn push_texts(texts: &SpacedNames, ids: &[u64], names: &mut Vec<u8>) -> Result<(), NoMemory>
    ensures put { OnOk result (names.new.items ≡ names.old.items ++ all_texts_at texts.now ids.now) }
    ensures some { OnErr result (0 < length ids.now) }
{
    for id in ids {
        names.extend_from_slice(texts.at(*id))?;
    }
    Ok(())
}

// The same from the rows themselves.
fn push_from_rows(log: &ChangeLog, ids: &[u64], names: &mut Vec<u8>) -> Result<(), NoMemory>
    ensures put { OnOk result (names.new.items ≡ names.old.items ++ all_spaced_at log.now.list ids.now) }
    ensures some { OnErr result (0 < length ids.now) }
{
    for id in ids {
        push_from_row(log, *id, names)?;
    }
    Ok(())
}

fn push_from_row(log: &ChangeLog, id: u64, names: &mut Vec<u8>) -> Result<(), NoMemory>
    ensures { OnOk result (names.new.items ≡ names.old.items ++ spaced_at log.now.list id) }
{
    if let Some(row) = log.row(Id(id)) {
        names.extend_from_slice(b" ")?;
        names.extend_from_slice(row.name.bytes())?;
    }
    Ok(())
}
