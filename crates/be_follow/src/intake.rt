//! The taking of a feed's bytes: its lines, the first fault, and what stands behind the last LF.

ghost use Rattle.std.specs.Prelude.{◌≡◌, ℕ, ◌<◌, ◌≤◌, ◌++◌, [], List, length, take, true, false, None, IfSome, IfOk, IfErr, OnOk, OnErr};
ghost use Rattle.std.specs.Arc.{arc_value};
ghost use Rattle.be_base.specs.Lists.{BeginsWith};
ghost use Rattle.be_io.specs.Lines.{has_lf};
ghost use Rattle.be_change.specs.History.{Entry};
ghost use Rattle.be_follow.specs.Feeds.{TakesLine};
ghost use Rattle.be_follow.specs.Followers.{new_intake, fed_with, with_list, Follows, taken_of, Tells};
ghost use Rattle.be_follow.specs.Placing.{Accepts};

use crate::faults::{FeedFault, FeedKind};
use crate::feed_list::{FeedList, place};
use crate::saying::{Said, read_said};
use be_base::{FEED_LINE_BYTES, NoMemory};
use be_io::first_lf;
use be_model::Schema;
use std::alloc::Global;
use std::marker::Model;
use std::sync::Arc;

/// So many bytes of a line are kept: enough to tell that it is over the limit.
const KEPT_BYTES: usize = FEED_LINE_BYTES + 1;

/// What was read of a feed. Its changes are put into a list that the caller has.
#[derive(Drop)]
pub struct Intake {
    alloc: Global,
    schema: Arc<Schema>,
    lines: u64,
    fault: Option<FeedKind>,
    rest: Vec<u8>,
}

impl Model for Intake {
    ghost use Rattle.std.specs.Prelude.{◌≤◌, length};
    ghost use Rattle.std.specs.Arc.{arc_value};
    ghost use Rattle.be_follow.specs.Followers.{IntakeState, kept_bytes};

    ghost Value = { IntakeState };

    ghost view = { λ i. record { schema = arc_value i.schema; lines = i.lines; fault = i.fault; rest = i.rest.items } };

    ghost invariant = { λ i. length i.rest.items ≤ kept_bytes };
}

// How much of a piece was taken before memory ran out.
#[derive(Clone, Copy)]
struct Wanting {
    taken: usize,
}

impl Intake {
    /// Nothing was read yet. It takes no memory.
    pub fn make(alloc: Global, schema: Arc<Schema>) -> Intake
        ensures made { result ≡ new_intake (arc_value schema) }
        ensures follows { Follows [] (with_list [] result) }
    {
        Intake {
            alloc,
            schema,
            lines: 0,
            fault: None,
            rest: Vec::new(alloc),
        }
    }

    /// Takes the next piece of the feed, and puts its changes into the list.
    pub fn feed<F: FeedList>(&mut self, list: &mut F, piece: &[u8]) -> Result<(), FeedFault>
        requires { F.schema list.old ≡ self.old.schema }
        // Whatever bytes came before, both are what these and the piece's mean together.
        ensures follows { (bytes : List ℕ) → Follows bytes (with_list (F.list list.old) self.old) → Follows (bytes ++ taken_of piece.now result) (with_list (F.list list.new) self.new) }
        ensures tells { Tells (fed_with (F.list list.new) self.new) piece.now result }
        ensures schema { (self.new.schema ≡ self.old.schema) × (F.schema list.new ≡ self.old.schema) }
        // The list only grows.
        ensures grows { BeginsWith (F.list list.new) (F.list list.old) }
        // Behind a faulty line nothing changes.
        ensures stays { IfSome self.old.fault (λ kind. (self.new ≡ self.old) × (F.list list.new ≡ F.list list.old)) }
    {
        let mut taken = 0;
        while taken < piece.len() {
            match self.take_line(list, &piece[taken..]) {
                Ok(count) => taken += count,
                Err(wanting) => {
                    return Err(FeedFault::NoMemory {
                        taken: (taken + wanting.taken) as u64,
                    });
                }
            }
        }
        match self.fault {
            None => Ok(()),
            Some(kind) => Err(FeedFault::Bad {
                line: self.lines,
                kind,
            }),
        }
    }

    // Takes the piece up to its first LF and with it, or all of it.
    fn take_line<F: FeedList>(&mut self, list: &mut F, piece: &[u8]) -> Result<usize, Wanting>
        requires schema { F.schema list.old ≡ self.old.schema }
        requires some { 0 < length piece.now }
        ensures taken { IfOk result (λ count. (0 < count) × (count ≤ length piece.now)
            × ((bytes : List ℕ) → Follows bytes (with_list (F.list list.old) self.old) → Follows (bytes ++ take count piece.now) (with_list (F.list list.new) self.new))) }
        ensures wanting { IfErr result (λ w. (w.taken < length piece.now) × (self.new.fault ≡ None)
            × ((bytes : List ℕ) → Follows bytes (with_list (F.list list.old) self.old) → Follows (bytes ++ take w.taken piece.now) (with_list (F.list list.new) self.new))) }
        ensures schema { (self.new.schema ≡ self.old.schema) × (F.schema list.new ≡ self.old.schema) }
        ensures grows { BeginsWith (F.list list.new) (F.list list.old) }
        ensures stays { IfSome self.old.fault (λ kind. (self.new ≡ self.old) × (F.list list.new ≡ F.list list.old)) }
    {
        if self.fault.is_some() {
            return Ok(piece.len());
        }
        let Some(place) = first_lf(piece) else {
            return match self.put(piece) {
                Ok(()) => Ok(piece.len()),
                Err(NoMemory) => Err(Wanting { taken: 0 }),
            };
        };
        match self.put(&piece[..place]) {
            Ok(()) => match self.end_line(list) {
                Ok(()) => Ok(place + 1),
                Err(NoMemory) => Err(Wanting { taken: place }),
            },
            Err(NoMemory) => Err(Wanting { taken: 0 }),
        }
    }

    // Puts bytes without an LF behind the line, or none.
    fn put(&mut self, part: &[u8]) -> Result<(), NoMemory>
        requires part { has_lf part.now ≡ false }
        requires sound { self.old.fault ≡ None }
        ensures put { OnOk result ((h : List Entry) (bytes : List ℕ) → Follows bytes (with_list h self.old) → Follows (bytes ++ part.now) (with_list h self.new)) }
        ensures refused { OnErr result (self.new ≡ self.old) }
        ensures same { (self.new.fault ≡ self.old.fault) × (self.new.schema ≡ self.old.schema) }
    {
        let room = KEPT_BYTES - self.rest.len();
        let kept = part.len().min(room);
        self.rest.extend_from_slice(&part[..kept])?;
        Ok(())
    }

    // Ends the line, or leaves all as it was.
    fn end_line<F: FeedList>(&mut self, list: &mut F) -> Result<(), NoMemory>
        requires schema { F.schema list.old ≡ self.old.schema }
        requires sound { self.old.fault ≡ None }
        ensures ended { OnOk result (TakesLine self.old.schema (fed_with (F.list list.old) self.old) self.old.rest (fed_with (F.list list.new) self.new) × (self.new.rest ≡ [])) }
        ensures refused { OnErr result ((self.new ≡ self.old) × (F.list list.new ≡ F.list list.old)) }
        ensures schema { (self.new.schema ≡ self.old.schema) × (F.schema list.new ≡ self.old.schema) }
    {
        self.fault = self.take_said(list)?;
        self.lines = self.lines.saturating_add(1);
        self.rest.clear();
        Ok(())
    }

    // Does to the list what the line says, or says what is wrong with it.
    fn take_said<F: FeedList>(&self, list: &mut F) -> Result<Option<FeedKind>, NoMemory>
        requires { F.schema list.old ≡ self.now.schema }
        ensures accepts { IfOk result (Accepts self.now.schema (F.list list.old) self.now.rest (F.list list.new)) }
        ensures refused { OnErr result (F.list list.new ≡ F.list list.old) }
        ensures schema { F.schema list.new ≡ self.now.schema }
    {
        match read_said(self.alloc, &self.schema, self.rest.as_slice())? {
            Said::Faulty => Ok(Some(FeedKind::Form)),
            Said::Nothing => Ok(None),
            Said::At { place: at, change } => place(list, self.alloc, at, change),
        }
    }

    pub(crate) fn alloc(&self) -> Global {
        self.alloc
    }

    pub fn schema(&self) -> &Schema
        ensures { result.now ≡ self.now.schema }
    {
        &self.schema
    }
}
