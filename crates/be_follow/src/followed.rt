//! A list that follows a leader's, with an index of what is live in it.

ghost use Rattle.std.specs.Prelude.{◌≡◌, ◌++◌, [], length, true, OnOk, OnErr};
ghost use Rattle.be_model.specs.ByIds.{rows_of};
ghost use Rattle.be_model.specs.Lies.{event_lies};
ghost use Rattle.be_change.specs.Entries.{entries_in};
ghost use Rattle.be_change.specs.History.{hit_rows, IsWellFormed};
ghost use Rattle.be_change.specs.Sound.{Sound};
ghost use Rattle.be_change.specs.Walk.{tail_from};

use crate::feed_list::FeedList;
use crate::fitting::{stand_by, stays_open};
use crate::stands::Stands;
use be_base::{Name, NoMemory, SessionNo};
use be_change::{ChangeLog, session_of};
use be_copy::{Copy2, Edit};
use be_index::Index;
use be_model::{Change, Event, Found};
use std::alloc::Global;
use std::marker::Model;
use std::sync::Arc;

/// A well formed list of changes with its index. Contracts see the list and the index.
#[derive(Drop)]
pub struct Followed<I: Index> {
    copy: Copy2<I>,
    // Whether all changes are of the opening.
    opening: bool,
    // How many changes each session has made, or that it has left.
    stands: Stands,
}

impl<I: Index> Model for Followed<I> {
    ghost use Rattle.be_copy.specs.Copied.{Copied};

    ghost Value = { Copied I };

    ghost use Rattle.be_follow.specs.Placing.{IsFollowed};

    ghost view = { λ f. f.copy };

    ghost invariant = { λ f. IsFollowed f.copy.list f.opening f.stands };
}

impl<I: Index> Followed<I> {
    /// No changes. It takes no memory.
    pub fn make(alloc: Global, index: I) -> Followed<I>
        requires { I.rows index ≡ [] }
        ensures list { result.list ≡ [] }
        ensures index { result.index ≡ index }
    {
        Followed {
            copy: Copy2::make(alloc, index),
            opening: true,
            stands: Stands::make(alloc),
        }
    }

    /// How many changes there are.
    pub fn len(&self) -> u64
        ensures len { result ≡ length self.now.list }
        ensures form { IsWellFormed self.now.list }
    {
        self.copy.log().len()
    }

    /// Appends the changes from a place on, at most `max`, or none.
    pub fn tail(&self, from: u64, max: u64, changes: &mut Vec<Arc<Change>>) -> Result<(), NoMemory>
        ensures put { OnOk result (entries_in changes.new.items ≡ entries_in changes.old.items ++ tail_from from max self.now.list) }
        ensures refused { OnErr result (changes.new.items ≡ changes.old.items) }
        ensures sound { Sound (I.schema self.now.index) self.now.list }
    {
        // Called for its clause that the list is well formed and lies in the schema.
        let _ = self.len();
        let _ = self.copy.log();
        self.copy.tail(from, max, changes)
    }

    /// Finds the live rows that the event satisfies, by rising id.
    pub fn find(&self, event: &Event, found: &mut Found) -> Result<(), NoMemory>
        requires { event_lies (I.schema self.now.index) event.now ≡ true }
        ensures found { OnOk result (found.new.rows ≡ rows_of (hit_rows self.now.list event.now)) }
        ensures none { OnErr result (found.new.rows ≡ []) }
    {
        self.copy.find(event, found)?;
        Ok(())
    }
}

impl<I: Index> FeedList for Followed<I> {
    ghost list = { λ f. f.list };

    ghost schema = { λ f. I.schema f.index };

    fn log(&self) -> &ChangeLog {
        self.copy.log()
    }

    fn is_opening(&self) -> bool {
        self.opening
    }

    fn stand(&self, session: SessionNo) -> u64 {
        self.stands.of(session)
    }

    fn owner(&self, name: &Name) -> Option<SessionNo> {
        Some(self.copy.named(name)?.session)
    }

    fn append(&mut self, change: Arc<Change>) -> Result<(), NoMemory> {
        // Called for its clause on how long the list may be.
        let _ = self.copy.log().len();
        let session = session_of(&change);
        let stand = stand_by(&change);
        let opening = stays_open(self.opening, &change);
        self.stands.make_room(session)?;
        self.copy.absorb(&Edit::Change(change))?;
        self.stands.set(session, stand);
        self.opening = opening;
        Ok(())
    }
}
