//! What a seat reads, as the board of its session.

ghost use Rattle.std.specs.Prelude.{◌≡◌, ◌≢◌, ◌≤◌, ◌++◌, [], true, Err, IfOk, IfErr, OnOk, OnErr};
ghost use Rattle.be_base.specs.Counts.{last_count};
ghost use Rattle.be_model.specs.Bounds.{IsWithinBound};
ghost use Rattle.be_model.specs.ByIds.{rows_of, session_rows};
ghost use Rattle.be_model.specs.Lies.{event_lies};
ghost use Rattle.be_change.specs.Entries.{entries_in};
ghost use Rattle.be_change.specs.History.{live, hit_rows, hits};
ghost use Rattle.be_change.specs.Sound.{all_lie, Sound};
ghost use Rattle.be_change.specs.Walk.{live_rows, tail_from};
ghost use Rattle.be_index.specs.Ids.{ids_of};
ghost use Rattle.be_index.specs.Names.{spaced};
ghost use Rattle.be_board.specs.Reads.{Looks, IsReadAt, Refuses};
ghost use Rattle.be_desk.specs.Boards.{OnBoards};
ghost use Rattle.be_published.specs.Copies.{OfCopy};

use crate::seat::Seat;
use be_base::NoRead;
use be_index::Ids;
use be_mail::BoxNames;
use be_model::{Change, Cost, Event, Found};
use be_published::{Naming, Sheet};
use std::sync::Arc;

impl<T: Sheet<J>, J: Naming + BoxNames> Seat<T, J> {
    /// Finds the live rows that the event satisfies, by rising id, and says in which first changes.
    pub fn find(&mut self, event: &Event, found: &mut Found) -> Result<u64, NoRead>
        requires lies { event_lies J.schema event.now ≡ true }
        ensures looks { OnBoards J.schema Looks self.old self.new }
        ensures read { IfOk result (λ n. OnBoards J.schema (λ b b'. IsReadAt b b' n) self.old self.new) }
        ensures found { OnOk result (found.new.rows ≡ rows_of (hit_rows self.new.glass.known event.now)) }
        ensures refused { IfErr result (λ why. OnBoards J.schema (λ b b'. Refuses b b' why) self.old self.new) }
        ensures none { OnErr result (found.new.rows ≡ []) }
        ensures seat { self.new ≡ record self.old { glass = self.new.glass } }
    {
        self.count();
        let (n, _) = self.glass.find(event, found)?;
        Ok(n)
    }

    /// Finds the ids of the live rows that the event satisfies, by rising id, and their names, each after a space, and says in which
    /// first changes.
    pub fn hits(&mut self, event: &Event, ids: &mut Ids, names: &mut Vec<u8>) -> Result<u64, NoRead>
        requires lies { event_lies J.schema event.now ≡ true }
        ensures looks { OnBoards J.schema Looks self.old self.new }
        ensures read { IfOk result (λ n. OnBoards J.schema (λ b b'. IsReadAt b b' n) self.old self.new) }
        ensures ids { OnOk result (ids.new.ids ≡ ids_of (hit_rows self.new.glass.known event.now)) }
        ensures names { OnOk result (names.new.items ≡ spaced (hits self.new.glass.known event.now)) }
        ensures refused { IfErr result (λ why. OnBoards J.schema (λ b b'. Refuses b b' why) self.old self.new) }
        ensures none { OnErr result (names.new.items ≡ []) }
        ensures seat { self.new ≡ record self.old { glass = self.new.glass } }
    {
        self.count();
        let n = self.glass.hits(event, ids, names)?;
        Ok(n)
    }

    /// What a search for the event costs. It takes no memory.
    pub fn cost(&mut self, event: &Event) -> Result<(u64, Cost), NoRead>
        requires lies { event_lies J.schema event.now ≡ true }
        ensures looks { OnBoards J.schema Looks self.old self.new }
        ensures read { IfOk result (λ r. OnBoards J.schema (λ b b'. IsReadAt b b' r.0) self.old self.new) }
        ensures bound { IfOk result (λ r. IsWithinBound J.schema event.now (live_rows self.new.glass.known) r.1) }
        ensures exact { IfOk result (λ r. OfCopy T.list self.new.glass.known (λ copy. r.1 ≡ T.cost_of copy event.now)) }
        ensures refused { IfErr result (λ why. OnBoards J.schema (λ b b'. Refuses b b' why) self.old self.new) }
        ensures memory { result ≢ Err NoRead.NoMemory }
        ensures seat { self.new ≡ record self.old { glass = self.new.glass } }
    {
        self.count();
        let (n, cost) = self.glass.cost(event)?;
        Ok((n, cost))
    }

    /// Finds the session's live rows, by rising id.
    pub fn mine(&mut self, found: &mut Found) -> Result<u64, NoRead>
        ensures looks { OnBoards J.schema Looks self.old self.new }
        ensures read { IfOk result (λ n. OnBoards J.schema (λ b b'. IsReadAt b b' n) self.old self.new) }
        ensures found { OnOk result (found.new.rows ≡ session_rows self.old.session (live self.new.glass.known)) }
        ensures refused { IfErr result (λ why. OnBoards J.schema (λ b b'. Refuses b b' why) self.old self.new) }
        ensures none { OnErr result (found.new.rows ≡ []) }
        ensures seat { self.new ≡ record self.old { glass = self.new.glass } }
    {
        self.count();
        let n = self.glass.mine(self.session, found)?;
        Ok(n)
    }

    /// Finds all live rows, by rising id.
    pub fn all(&mut self, found: &mut Found) -> Result<u64, NoRead>
        ensures looks { OnBoards J.schema Looks self.old self.new }
        ensures read { IfOk result (λ n. OnBoards J.schema (λ b b'. IsReadAt b b' n) self.old self.new) }
        ensures found { OnOk result (found.new.rows ≡ live_rows self.new.glass.known) }
        ensures lies { all_lie J.schema self.new.glass.known ≡ true }
        ensures refused { IfErr result (λ why. OnBoards J.schema (λ b b'. Refuses b b' why) self.old self.new) }
        ensures none { OnErr result (found.new.rows ≡ []) }
        ensures seat { self.new ≡ record self.old { glass = self.new.glass } }
    {
        self.count();
        let n = self.glass.all(found)?;
        // Called for its clause that what is known lies in the schema.
        let _ = self.glass.front();
        Ok(n)
    }

    /// Appends the changes from the place `from` on, at most `max`.
    pub fn tail(
        &mut self,
        from: u64,
        max: u64,
        changes: &mut Vec<Arc<Change>>,
    ) -> Result<u64, NoRead>
        ensures looks { OnBoards J.schema Looks self.old self.new }
        ensures read { IfOk result (λ n. OnBoards J.schema (λ b b'. IsReadAt b b' n) self.old self.new) }
        ensures tail { OnOk result (entries_in changes.new.items ≡ entries_in changes.old.items ++ tail_from from max self.new.glass.known) }
        ensures lies { all_lie J.schema self.new.glass.known ≡ true }
        ensures refused { IfErr result (λ why. OnBoards J.schema (λ b b'. Refuses b b' why) self.old self.new) }
        ensures none { OnErr result (changes.new.items ≡ changes.old.items) }
        ensures seat { self.new ≡ record self.old { glass = self.new.glass } }
    {
        self.count();
        let n = self.glass.tail(from, max, changes)?;
        let _ = self.glass.front();
        Ok(n)
    }

    // Called for its clauses that no count is past its type's end, and that what is known is sound.
    pub(crate) fn count(&self)
        ensures reads { self.now.glass.reads ≤ last_count }
        ensures shuts { self.now.glass.shuts ≤ last_count }
        ensures sound { Sound J.schema self.now.glass.known }
    {
        let _ = (self.glass.reads(), self.glass.shuts(), self.glass.front());
    }
}
