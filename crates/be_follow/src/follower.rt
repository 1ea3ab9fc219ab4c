//! A follower: what it has taken of a feed, and what it finds.

ghost use Rattle.std.specs.Prelude.{◌≡◌, ℕ, ◌++◌, [], List, length, true, IfSome, OnOk, OnErr};
ghost use Rattle.std.specs.Arc.{arc_value};
ghost use Rattle.be_base.specs.Lists.{BeginsWith};
ghost use Rattle.be_model.specs.ByIds.{rows_of};
ghost use Rattle.be_model.specs.Lies.{event_lies};
ghost use Rattle.be_change.specs.Entries.{entries_in};
ghost use Rattle.be_change.specs.History.{hit_rows, IsWellFormed};
ghost use Rattle.be_change.specs.Sound.{Sound};
ghost use Rattle.be_change.specs.Walk.{tail_from};
ghost use Rattle.be_follow.specs.Followers.{new_follower, Follows, taken_of, Tells};

use crate::faults::FeedFault;
use crate::followed::Followed;
use crate::intake::Intake;
use be_base::NoMemory;
use be_index::Index;
use be_model::{Change, Event, Found, Schema};
use std::alloc::Global;
use std::marker::Model;
use std::sync::Arc;

/// A copy of a leader's list, made from a feed. Contracts see its schema, what has come of the feed, and what stands behind
/// the last LF.
#[derive(Drop)]
pub struct Follower<I: Index> {
    intake: Intake,
    followed: Followed<I>,
}

impl<I: Index> Model for Follower<I> {
    ghost use Rattle.std.specs.Prelude.{◌≡◌};
    ghost use Rattle.be_follow.specs.Followers.{FollowerState, with_list};

    ghost Value = { FollowerState };

    ghost view = { λ f. with_list f.followed.list f.intake };

    ghost invariant = { λ f. I.schema f.followed.index ≡ f.intake.schema };
}

impl<I: Index> Follower<I> {
    /// A follower of an empty list. It takes no memory.
    pub fn make(alloc: Global, schema: Arc<Schema>, index: I) -> Follower<I>
        requires empty { I.rows index ≡ [] }
        requires schema { I.schema index ≡ arc_value schema }
        ensures made { result ≡ new_follower (arc_value schema) }
        ensures follows { Follows [] result }
    {
        Follower {
            intake: Intake::make(alloc, schema),
            followed: Followed::make(alloc, index),
        }
    }

    /// Takes the next piece of the feed.
    pub fn feed(&mut self, piece: &[u8]) -> Result<(), FeedFault>
        // Whatever bytes it took before, it is what these and the piece's mean together.
        ensures follows { (bytes : List ℕ) → Follows bytes self.old → Follows (bytes ++ taken_of piece.now result) self.new }
        ensures tells { Tells self.new.fed piece.now result }
        ensures schema { self.new.schema ≡ self.old.schema }
        // The list only grows.
        ensures grows { BeginsWith self.new.fed.list self.old.fed.list }
        // Behind a faulty line nothing changes.
        ensures stays { IfSome self.old.fed.fault (λ kind. self.new ≡ self.old) }
    {
        self.intake.feed(&mut self.followed, piece)
    }

    pub(crate) fn alloc(&self) -> Global {
        self.intake.alloc()
    }

    pub(crate) fn schema(&self) -> &Schema
        ensures { result.now ≡ self.now.schema }
    {
        self.intake.schema()
    }

    /// How many changes there are.
    pub fn len(&self) -> u64
        ensures len { result ≡ length self.now.fed.list }
        ensures form { IsWellFormed self.now.fed.list }
    {
        self.followed.len()
    }

    /// Appends the changes from a place on, at most `max`, or none.
    pub fn tail(&self, from: u64, max: u64, changes: &mut Vec<Arc<Change>>) -> Result<(), NoMemory>
        ensures put { OnOk result (entries_in changes.new.items ≡ entries_in changes.old.items ++ tail_from from max self.now.fed.list) }
        ensures refused { OnErr result (changes.new.items ≡ changes.old.items) }
        ensures sound { Sound self.now.schema self.now.fed.list }
    {
        self.followed.tail(from, max, changes)
    }

    /// Finds the live rows that the event satisfies, by rising id.
    pub fn find(&self, event: &Event, found: &mut Found) -> Result<(), NoMemory>
        requires { event_lies self.now.schema event.now ≡ true }
        ensures found { OnOk result (found.new.rows ≡ rows_of (hit_rows self.now.fed.list event.now)) }
        ensures none { OnErr result (found.new.rows ≡ []) }
    {
        self.followed.find(event, found)
    }
}
