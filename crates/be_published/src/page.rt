//! A copy beside the beginning of the history that its list is.

ghost use Rattle.std.specs.Prelude.{◌≡◌, [], true, MatchResult};
ghost use Rattle.be_published.specs.Notes.{noted};

use crate::front::Front;
use crate::history::Naming;
use crate::notes::Note;
use crate::sheet::Sheet;
use be_base::{NoMemory, SessionNo};
use be_copy::{Copy2, Edit};
use be_index::{Ids, Index};
use be_model::{Change, Cost, Event, Found, Path, Step};
use left_right::Absorb;
use std::alloc::{AllocError, Global};
use std::marker::Model;
use std::sync::Arc;

/// The marks with which the two copies of a press begin. That of one is even, and that of the other is odd.
pub(crate) const FIRST_MARK: u64 = 0;

pub(crate) const SECOND_MARK: u64 = 1;

// What a note adds to a mark.
const MARKS_A_NOTE: u64 = 2;

/// A copy that names the beginning of the history that its list is. Contracts see its list, its index and its mark.
#[derive(Drop)]
pub struct Page<I: Index, J: Naming> {
    copy: Copy2<I>,
    front: Front<J>,
    // It rises with each note, taken in or refused, as a refused one may change the index's shape. After 2^63 notes it begins again.
    mark: u64,
}

impl<I: Index, J: Naming> Model for Page<I, J> {
    ghost use Rattle.std.specs.Prelude.{◌≡◌, true};
    ghost use Rattle.be_published.specs.Copies.{Paged};

    ghost Value = { Paged I };

    ghost view = { λ p. record { list = p.copy.list; index = p.copy.index; mark = p.mark } };

    ghost invariant = { λ p. (p.front ≡ p.copy.list) × (I.schema p.copy.index ≡ J.schema) × (I.is_bounded p.copy.index ≡ true) };
}

impl<I: Index, J: Naming> Page<I, J> {
    /// A copy of no changes. It takes no memory.
    pub(crate) fn make(alloc: Global, index: I, front: Front<J>, mark: u64) -> Page<I, J>
        requires empty { I.rows index ≡ [] }
        requires schema { I.schema index ≡ J.schema }
        requires bounded { I.is_bounded index ≡ true }
        requires first { front ≡ [] }
        ensures { result.list ≡ [] }
    {
        Page {
            copy: Copy2::make(alloc, index),
            front,
            mark,
        }
    }

    /// Takes in a note whole, or nothing of it. A change that isn't the next is passed over.
    pub(crate) fn take_in(&mut self, note: &Note<J>) -> Result<(), NoMemory>
        ensures { MatchResult result (λ _. self.new.list ≡ noted self.old.list note.now) (λ _. self.new.list ≡ self.old.list) }
    {
        self.mark = self.mark.wrapping_add(MARKS_A_NOTE);
        match &note.edit {
            Edit::Reshape(_) => {
                let _done = self.copy.absorb(&note.edit);
                Ok(())
            }
            Edit::Change(_) => {
                let (here, there) = (self.front.len(), note.front.len());
                if there < here || there - here != 1 {
                    return Ok(());
                }
                self.front.begins(&note.front);
                self.copy.absorb(&note.edit)?;
                self.front = note.front.again();
                Ok(())
            }
        }
    }
}

impl<I: Index, J: Naming> Absorb<Note<J>> for Page<I, J> {
    type State = Front<J>;

    ghost state = { λ p. p.list };

    ghost applied = { noted };

    fn absorb_first(&mut self, note: &Note<J>, _other: &Page<I, J>) -> Result<(), AllocError> {
        match self.take_in(note) {
            Ok(()) => Ok(()),
            Err(NoMemory) => Err(AllocError),
        }
    }
}

impl<I: Index, J: Naming> Sheet<J> for Page<I, J> {
    ghost list = { λ p. p.list };

    ghost cost_of = { λ p event. I.cost_of p.index event };

    ghost planned = { λ p. I.planned p.index };

    ghost can_step = { λ p step. I.can_step p.index step };

    ghost mark_of = { λ p. p.mark };

    ghost follows = { λ x y notes e. e };

    fn front(&self) -> &Front<J> {
        &self.front
    }

    fn find(&self, event: &Event, found: &mut Found) -> Result<Cost, NoMemory> {
        self.copy.find(event, found)
    }

    fn hits(&self, event: &Event, ids: &mut Ids, names: &mut Vec<u8>) -> Result<Cost, NoMemory> {
        self.copy.hits(event, ids, names)
    }

    fn cost(&self, event: &Event) -> Cost {
        self.copy.cost(event)
    }

    fn rows_of(&self, session: SessionNo, found: &mut Found) -> Result<(), NoMemory> {
        self.copy.rows_of(session, found)
    }

    fn all(&self, found: &mut Found) -> Result<(), NoMemory> {
        self.copy.all(found)
    }

    fn tail(&self, from: u64, max: u64, changes: &mut Vec<Arc<Change>>) -> Result<(), NoMemory> {
        self.copy.tail(from, max, changes)
    }

    fn plan(&self) -> Result<Option<Step>, NoMemory> {
        self.copy.index().plan()
    }

    fn look_on(&self, from: &mut Option<Path>, most: u64) -> Result<Option<Step>, NoMemory> {
        self.copy.index().look_on(from, most)
    }

    fn mark(&self) -> u64 {
        self.mark
    }
}
