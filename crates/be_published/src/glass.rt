//! A reader.

ghost use Rattle.std.specs.Prelude.{◌≡◌, ◌≢◌, ◌++◌, ◌↔◌, [], true, length, max, None, Ok, Err, IfOk, IfErr, IfSome, IsSome, OnOk, OnErr, MatchResult, option_map};
ghost use Rattle.std.specs.Option.{IfNone};
ghost use Rattle.be_base.specs.Lists.{BeginsWith};
ghost use Rattle.be_model.specs.Bounds.{IsWithinBound};
ghost use Rattle.be_model.specs.ByIds.{rows_of, session_rows};
ghost use Rattle.be_model.specs.Lies.{event_lies};
ghost use Rattle.be_change.specs.Entries.{entries_in};
ghost use Rattle.be_change.specs.History.{live, hit_rows, hits};
ghost use Rattle.be_change.specs.Sound.{Sound};
ghost use Rattle.be_change.specs.Walk.{live_rows, tail_from};
ghost use Rattle.be_index.specs.Ids.{ids_of};
ghost use Rattle.be_index.specs.Names.{spaced};
ghost use Rattle.be_published.specs.Copies.{OfCopy, IsPlanIn, Plans};
ghost use Rattle.be_published.specs.Reads.{Meets, IsReadAt, Refuses, after_plan, Learns, IsBeyond};
ghost use Rattle.be_published.specs.States.{knowing, one_shut, one_read, new_glass};

use crate::beyond::Beyond;
use crate::front::Front;
use crate::history::Naming;
use crate::round::Round;
use crate::shade::Shade;
use crate::sheet::Sheet;
use crate::told::Told;
use crate::trail::Trail;
use be_base::{NoMemory, NoRead, SessionNo};
use be_index::Ids;
use be_model::{Change, Cost, Event, Found, Step};
use crossbeam_utils::rule::Unruled;
use left_right::reader::{Reader, Reading};
use std::marker::Model;
use std::sync::{Arc, Wait};

/// The copy that was entered.
pub(crate) type Entered<T> = Reading<T, (), Unruled>;

/// What enters copies. It is away while a copy is entered.
pub(crate) type Door<T> = Option<Reader<T, (), Unruled>>;

/// A reader of the published copy. No call of it but `meet` takes a lock or may wait. Contracts see the longest list that it
/// has seen or learnt, and what it counted. Each call leaves the copy that it entered: between calls the door is there.
#[derive(Drop)]
pub struct Glass<T: Sheet<J>, J: Naming> {
    pub(crate) door: Door<T>,
    pub(crate) front: Front<J>,
    shuts: u64,
    reads: u64,
    nones: u64,
    // The steps that plans and looks found.
    pub(crate) plans: Trail<Step>,
    // The mark of the copy in which a plan last found no step. While the published copy has this mark, a plan finds none.
    pub(crate) bare: Option<u64>,
    // How far its looks have come. No contract speaks of it.
    pub(crate) round: Round,
}

impl<T: Sheet<J>, J: Naming> Model for Glass<T, J> {
    ghost use Rattle.std.specs.Prelude.{IsSome};
    ghost use Rattle.be_published.specs.States.{GlassState};

    ghost Value = { GlassState };

    ghost view = { λ g. record { known = g.front; shuts = g.shuts; reads = g.reads; nones = g.nones; plans = g.plans.items; bare = g.bare } };

    ghost invariant = { λ g. IsSome g.door };
}

impl<T: Sheet<J>, J: Naming> Glass<T, J> {
    pub(crate) fn over(reader: Reader<T, (), Unruled>, front: Front<J>) -> Glass<T, J>
        ensures { result ≡ new_glass front }
    {
        Glass {
            door: Some(reader),
            front,
            shuts: 0,
            reads: 0,
            nones: 0,
            plans: Trail::new(),
            bare: None,
            round: Round::new(),
        }
    }

    /// The greatest length that was answered or learnt.
    pub fn front(&self) -> u64
        ensures front { result ≡ length self.now.known }
        ensures sound { Sound J.schema self.now.known }
    {
        self.front.len()
    }

    /// How many reads were answered.
    pub fn reads(&self) -> u64
        ensures { result ≡ self.now.reads }
    {
        self.reads
    }

    /// How many entries were refused.
    pub fn shuts(&self) -> u64
        ensures { result ≡ self.now.shuts }
    {
        self.shuts
    }

    /// Takes in what was published when it was told.
    pub fn learn(&mut self, told: Told<J>)
        ensures counts { self.new ≡ knowing self.new.known self.old }
        ensures learns { Learns self.old.known told self.new.known }
        ensures longer { length self.new.known ≡ max (length self.old.known) (length told) }
    {
        let Told { front } = told;
        if self.front.len() < front.len() {
            self.front.begins(&front);
            self.front = front;
        } else {
            front.begins(&self.front);
        }
    }

    /// Whether the reader knows no more than what was published when it was told; else the two lengths. No contract of the two
    /// copies says that it can't know more.
    pub fn within(&self, told: &Told<J>) -> Result<(), Beyond>
        ensures within { OnOk result (BeginsWith told.now self.now.known) }
        ensures beyond { IfErr result (IsBeyond self.now.known told.now) }
    {
        let known = self.front.len();
        let published = told.front.len();
        if published < known {
            told.front.begins(&self.front);
            return Err(Beyond::make(known, published));
        }
        self.front.begins(&told.front);
        Ok(())
    }

    /// Finds the live rows that the event satisfies, by rising id, by one search, and says in which first changes.
    pub fn find(&mut self, event: &Event, found: &mut Found) -> Result<(u64, Cost), NoRead>
        requires lies { event_lies J.schema event.now ≡ true }
        ensures read { IfOk result (λ r. IsReadAt self.old self.new r.0) }
        ensures found { OnOk result (found.new.rows ≡ rows_of (hit_rows self.new.known event.now)) }
        ensures bound { IfOk result (λ r. IsWithinBound J.schema event.now (live_rows self.new.known) r.1) }
        ensures refused { IfErr result (Refuses self.old self.new) }
        ensures none { OnErr result (found.new.rows ≡ []) }
    {
        found.clear();
        let Some(entered) = enter(&mut self.door, &self.front) else {
            return Err(self.refuse());
        };
        let done = entered.get().find(event, found);
        let front = leave(&mut self.door, entered);
        self.answer(front, done)
    }

    /// Finds the ids of the live rows that the event satisfies, by rising id, and their names, each after a space, by one search, and
    /// says in which first changes.
    pub fn hits(&mut self, event: &Event, ids: &mut Ids, names: &mut Vec<u8>) -> Result<u64, NoRead>
        requires lies { event_lies J.schema event.now ≡ true }
        ensures read { IfOk result (IsReadAt self.old self.new) }
        ensures ids { OnOk result (ids.new.ids ≡ ids_of (hit_rows self.new.known event.now)) }
        ensures names { OnOk result (names.new.items ≡ spaced (hits self.new.known event.now)) }
        ensures refused { IfErr result (Refuses self.old self.new) }
        ensures none { OnErr result (names.new.items ≡ []) }
    {
        names.clear();
        let Some(entered) = enter(&mut self.door, &self.front) else {
            return Err(self.refuse());
        };
        let done = entered.get().hits(event, ids, names);
        let front = leave(&mut self.door, entered);
        Ok(self.answer(front, done)?.0)
    }

    /// What a search for the event costs. It takes no memory.
    pub fn cost(&mut self, event: &Event) -> Result<(u64, Cost), NoRead>
        requires lies { event_lies J.schema event.now ≡ true }
        ensures read { IfOk result (λ r. IsReadAt self.old self.new r.0) }
        ensures bound { IfOk result (λ r. IsWithinBound J.schema event.now (live_rows self.new.known) r.1) }
        ensures exact { IfOk result (λ r. OfCopy T.list self.new.known (λ copy. r.1 ≡ T.cost_of copy event.now)) }
        ensures refused { IfErr result (Refuses self.old self.new) }
        ensures memory { result ≢ Err NoRead.NoMemory }
    {
        let Some(entered) = enter(&mut self.door, &self.front) else {
            return Err(self.refuse());
        };
        let cost = entered.get().cost(event);
        let front = leave(&mut self.door, entered);
        Ok((self.read(front), cost))
    }

    /// Finds the session's live rows, by rising id.
    pub fn mine(&mut self, session: SessionNo, found: &mut Found) -> Result<u64, NoRead>
        ensures read { IfOk result (IsReadAt self.old self.new) }
        ensures found { OnOk result (found.new.rows ≡ session_rows session.0 (live self.new.known)) }
        ensures refused { IfErr result (Refuses self.old self.new) }
        ensures none { OnErr result (found.new.rows ≡ []) }
    {
        found.clear();
        let Some(entered) = enter(&mut self.door, &self.front) else {
            return Err(self.refuse());
        };
        let done = entered.get().rows_of(session, found);
        let front = leave(&mut self.door, entered);
        Ok(self.answer(front, done)?.0)
    }

    /// Finds all live rows, by rising id.
    pub fn all(&mut self, found: &mut Found) -> Result<u64, NoRead>
        ensures read { IfOk result (IsReadAt self.old self.new) }
        ensures found { OnOk result (found.new.rows ≡ live_rows self.new.known) }
        ensures refused { IfErr result (Refuses self.old self.new) }
        ensures none { OnErr result (found.new.rows ≡ []) }
    {
        found.clear();
        let Some(entered) = enter(&mut self.door, &self.front) else {
            return Err(self.refuse());
        };
        let done = entered.get().all(found);
        let front = leave(&mut self.door, entered);
        Ok(self.answer(front, done)?.0)
    }

    /// Appends the changes from the place `from` on, at most `max`.
    pub fn tail(
        &mut self,
        from: u64,
        max: u64,
        changes: &mut Vec<Arc<Change>>,
    ) -> Result<u64, NoRead>
        ensures read { IfOk result (IsReadAt self.old self.new) }
        ensures put { OnOk result (entries_in changes.new.items ≡ entries_in changes.old.items ++ tail_from from max self.new.known) }
        ensures refused { IfErr result (Refuses self.old self.new) }
        ensures kept { OnErr result (changes.new.items ≡ changes.old.items) }
    {
        let Some(entered) = enter(&mut self.door, &self.front) else {
            return Err(self.refuse());
        };
        let done = entered.get().tail(from, max, changes);
        let front = leave(&mut self.door, entered);
        Ok(self.answer(front, done)?.0)
    }

    /// Enters the published copy, and gives its length, or none where the entry is refused. It takes no memory.
    pub fn look(&mut self) -> Option<u64>
        ensures read { IfSome result (IsReadAt self.old self.new) }
        ensures refused { IfNone result (self.new ≡ one_shut self.old) }
    {
        let Some(entered) = enter(&mut self.door, &self.front) else {
            let _shut = self.refuse();
            return None;
        };
        let front = leave(&mut self.door, entered);
        Some(self.read(front))
    }

    /// The step that reshapes the published copy next, where there is one. It searches the copy unless a plan of this reader found
    /// none in it and its mark is the same.
    pub fn plan(&mut self) -> Result<Option<Step>, NoRead>
        ensures plans { IfOk result (Plans T.list T.planned T.mark_of self.old self.new) }
        ensures refused { IfErr result (Refuses self.old self.new) }
    {
        let Some(entered) = enter(&mut self.door, &self.front) else {
            return Err(self.refuse());
        };
        let mark = entered.get().mark();
        let done = plan_in(entered.get(), self.bare);
        leave(&mut self.door, entered);
        match done {
            Ok(step) => {
                self.note_plan(mark, step.as_ref());
                Ok(step)
            }
            Err(NoMemory) => Err(NoRead::NoMemory),
        }
    }

    /// Enters the published copy, again and again until it is let in, and gives its length. It may wait. It takes no memory.
    pub fn meet<R: Wait>(&mut self, rt: &R) -> u64
        ensures { Meets self.old self.new result }
    {
        for _ in rt.forever() {
            if let Some(entered) = enter(&mut self.door, &self.front) {
                let front = leave(&mut self.door, entered);
                return self.see(front);
            }
        }
        unreachable!()
    }

    /// What shows that an entry was refused, where one was.
    pub fn shade(&self) -> Option<Shade>
        ensures { (result ≡ None) ↔ (self.now.shuts ≡ 0) }
    {
        Shade::of(self.shuts)
    }

    // The list of a copy that was entered is known from now on.
    fn see(&mut self, front: Front<J>) -> u64
        ensures known { self.new ≡ knowing front self.old }
        ensures length { result ≡ length front }
    {
        self.front = front;
        self.front.len()
    }

    // The same, of a read that is answered.
    fn read(&mut self, front: Front<J>) -> u64
        ensures known { self.new ≡ one_read front self.old }
        ensures length { result ≡ length front }
    {
        let n = self.see(front);
        self.reads = self.reads.saturating_add(1);
        n
    }

    fn answer<X>(&mut self, front: Front<J>, done: Result<X, NoMemory>) -> Result<(u64, X), NoRead>
        ensures { MatchResult done (λ x. (result ≡ Ok (length front, x)) × (self.new ≡ one_read front self.old)) (λ _. (result ≡ Err NoRead.NoMemory) × (self.new ≡ self.old)) }
    {
        match done {
            Ok(x) => Ok((self.read(front), x)),
            Err(NoMemory) => Err(NoRead::NoMemory),
        }
    }

    pub(crate) fn refuse(&mut self) -> NoRead
        ensures counted { self.new ≡ one_shut self.old }
        ensures shut { result ≡ NoRead.Shut }
    {
        self.shuts = self.shuts.saturating_add(1);
        NoRead::Shut
    }

    // Counts what a plan found in the copy of this mark.
    fn note_plan(&mut self, mark: u64, found: Option<&Step>)
        ensures { self.new ≡ after_plan mark self.old (option_map (λ step. step.now) found.entry) }
    {
        match found {
            Some(step) => self.plans = self.plans.and(step),
            None => {
                self.nones = self.nones.saturating_add(1);
                self.bare = Some(mark);
            }
        }
    }
}

/// Enters the published copy. A copy that is older than what is known is left again.
pub(crate) fn enter<T: Sheet<J>, J: Naming>(
    door: &mut Door<T>,
    known: &Front<J>,
) -> Option<Entered<T>>
    requires there { IsSome door.old }
    ensures begins { IfSome result (λ entered. BeginsWith (T.list entered.part.value) known.now) }
    ensures back { IfNone result (IsSome door.new) }
{
    match door.take().unwrap().enter_as::<Unruled>() {
        Err(reader) => {
            *door = Some(reader);
            None
        }
        Ok(entered) => {
            let front = entered.get().front();
            if front.len() < known.len() {
                *door = Some(entered.leave());
                return None;
            }
            known.begins(front);
            Some(entered)
        }
    }
}

/// Leaves the copy, and says which list it has.
pub(crate) fn leave<T: Sheet<J>, J: Naming>(door: &mut Door<T>, entered: Entered<T>) -> Front<J>
    ensures list { result ≡ T.list entered.part.value }
    ensures back { IsSome door.new }
{
    let front = entered.get().front().again();
    *door = Some(entered.leave());
    front
}

// What a plan finds in the copy: none, without a search, where it has the mark of one in which a plan found none.
fn plan_in<T: Sheet<J>, J: Naming>(copy: &T, bare: Option<u64>) -> Result<Option<Step>, NoMemory>
    ensures { IfOk result (IsPlanIn T.planned T.mark_of bare copy.now) }
{
    if bare == Some(copy.mark()) {
        return Ok(None);
    }
    copy.plan()
}
