//! A gate that holds workers until others are as far as they should be.

use be_io::Gate;
use std::alloc::Global;
use std::sync::Arc;
use std::sync::atomic::{AtomicU64, Ordering};
use std::thread;

/// A worker is held for at most so many turns.
const TURNS: u64 = 10_000_000;

/// A line of a worker's session, each counted from 1.
#[derive(Clone, Copy, PartialEq, Eq)]
pub struct Place {
    pub worker: u32,
    pub line: u64,
}

/// What a worker is held for.
#[derive(Clone, Copy)]
pub enum Awaited {
    /// Another one has come to a line.
    Come(Place),
    /// Another one has answered a line.
    Answered(Place),
    /// The input was asked so often: all pieces but the last were taken.
    Read(u64),
}

/// A worker is held before a line until something has happened.
#[derive(Clone, Copy)]
pub struct Hold {
    pub held: Place,
    pub awaited: Awaited,
}

// The last line that a worker has come to, and the last one that it has answered.
#[derive(Drop)]
struct Progress {
    come: AtomicU64,
    answered: AtomicU64,
}

impl Progress {
    fn none() -> Progress {
        Progress {
            come: AtomicU64::new(0),
            answered: AtomicU64::new(0),
        }
    }
}

/// Holds the first two workers, of which each serves one session, and counts how often, and how often for too long.
#[derive(Drop)]
pub struct HoldingGate {
    holds: Vec<Hold>,
    first: Progress,
    second: Progress,
    reads: Arc<AtomicU64>,
    turns_more: u64,
    held: AtomicU64,
    limits_met: AtomicU64,
}

impl HoldingGate {
    /// It sees the calls of the input in `reads`, and holds a worker so many turns longer than that takes. `None` says that memory ran
    /// out.
    pub fn make(
        alloc: Global,
        holds: &[Hold],
        reads: Arc<AtomicU64>,
        turns_more: u64,
    ) -> Option<HoldingGate> {
        let holds = Vec::from_slice(alloc, holds).ok()?;
        Some(HoldingGate {
            holds,
            first: Progress::none(),
            second: Progress::none(),
            reads,
            turns_more,
            held: AtomicU64::new(0),
            limits_met: AtomicU64::new(0),
        })
    }

    /// How often a worker was held.
    pub fn held(&self) -> u64 {
        self.held.load(Ordering::SeqCst)
    }

    /// Whether one was held for as long as it may be.
    pub fn is_limit_met(&self) -> bool {
        self.limits_met.load(Ordering::SeqCst) > 0
    }

    fn progress(&self, worker: u32) -> &Progress {
        if worker == 1 {
            &self.first
        } else {
            &self.second
        }
    }

    fn is_over(&self, hold: &Hold) -> bool {
        match hold.awaited {
            Awaited::Come(place) => {
                self.progress(place.worker).come.load(Ordering::SeqCst) >= place.line
            }
            Awaited::Answered(place) => {
                self.progress(place.worker).answered.load(Ordering::SeqCst) >= place.line
            }
            Awaited::Read(count) => self.reads.load(Ordering::SeqCst) >= count,
        }
    }

    fn wait(&self, hold: &Hold) {
        self.held.fetch_add(1, Ordering::SeqCst);
        for _ in 0..TURNS {
            if self.is_over(hold) {
                return self.settle(hold);
            }
            thread::yield_now();
        }
        self.limits_met.fetch_add(1, Ordering::SeqCst);
    }
}

impl HoldingGate {
    // What was read takes a while until readers are shown it.
    fn settle(&self, hold: &Hold) {
        if let Awaited::Read(_) = hold.awaited {
            for _ in 0..self.turns_more {
                thread::yield_now();
            }
        }
    }
}

impl Gate for HoldingGate {
    fn before(&self, worker: u32, line: u64) {
        self.progress(worker).come.store(line, Ordering::SeqCst);
        for hold in &self.holds {
            if hold.held == (Place { worker, line }) {
                self.wait(hold);
            }
        }
    }

    fn after(&self, worker: u32, line: u64) {
        self.progress(worker).answered.store(line, Ordering::SeqCst);
    }
}
