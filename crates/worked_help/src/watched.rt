//! An index that counts its searches, and refuses some inserts.

ghost use Rattle.std.specs.Prelude.{◌≡◌};

use be_base::{NoMemory, SessionNo};
use be_index::{Hits, Index};
use be_model::{Cost, Event, Found, Path, Row, Step, StepDone};
use std::sync::Arc;
use std::sync::atomic::{AtomicU64, Ordering};

/// An index, with a number that grows by 1 at each search, which several may share, and which of its inserts are refused, counted
/// from 1.
#[derive(Drop)]
pub struct Watched<I: Index> {
    index: I,
    finds: Arc<AtomicU64>,
    refuse: Vec<u64>,
    // How many inserts were asked for.
    inserts: u64,
}

impl<I: Index> Watched<I> {
    /// It takes no memory.
    pub fn make(index: I, finds: Arc<AtomicU64>, refuse: Vec<u64>) -> Watched<I>
        ensures index { result.index ≡ index }
        ensures finds { result.finds ≡ finds }
        ensures refuse { result.refuse ≡ refuse }
        ensures inserts { result.inserts ≡ 0 }
    {
        Watched {
            index,
            finds,
            refuse,
            inserts: 0,
        }
    }
}

impl<I: Index> Index for Watched<I> {
    ghost schema = { λ w. I.schema w.index };

    ghost rows = { λ w. I.rows w.index };

    ghost is_bounded = { λ w. I.is_bounded w.index };

    ghost cost_of = { λ w e. I.cost_of w.index e };

    ghost can_step = { λ w step. I.can_step w.index step };

    ghost is_made = { λ step w x. I.is_made step w.index x.index };

    ghost is_unchanged = { λ w x. I.is_unchanged w.index x.index };

    ghost planned = { λ w. I.planned w.index };

    fn lies(&self, row: &Row) -> bool {
        self.index.lies(row)
    }

    fn insert(&mut self, row: Arc<Row>) -> Result<(), (Arc<Row>, NoMemory)> {
        self.inserts = self.inserts.saturating_add(1);
        if self.refuse.contains(&self.inserts) {
            return Err((row, NoMemory));
        }
        self.index.insert(row)
    }

    fn remove(&mut self, row: &Row) -> bool {
        self.index.remove(row)
    }

    fn clear(&mut self) {
        self.index.clear();
    }

    fn find<C: Hits>(&self, event: &Event, found: &mut C) -> Result<Cost, NoMemory> {
        self.finds.fetch_add(1, Ordering::SeqCst);
        self.index.find(event, found)
    }

    fn cost(&self, event: &Event) -> Cost {
        self.index.cost(event)
    }

    fn len(&self) -> u64 {
        self.index.len()
    }

    fn rows_of(&self, session: SessionNo, found: &mut Found) -> Result<(), NoMemory> {
        self.index.rows_of(session, found)
    }

    fn all(&self, found: &mut Found) -> Result<(), NoMemory> {
        self.index.all(found)
    }

    fn step(&mut self, step: &Step) -> StepDone {
        self.index.step(step)
    }

    fn plan(&self) -> Result<Option<Step>, NoMemory> {
        self.index.plan()
    }

    fn look_on(&self, from: &mut Option<Path>, most: u64) -> Result<Option<Step>, NoMemory> {
        self.index.look_on(from, most)
    }
}
