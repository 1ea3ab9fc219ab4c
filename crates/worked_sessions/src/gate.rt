//! A gate that counts its calls.

use be_io::Gate;
use std::sync::atomic::{AtomicU64, Ordering};

/// Counts its calls, and notes where one isn't of its worker and of the line whose turn it is.
#[derive(Drop)]
pub struct CountingGate {
    worker: u32,
    befores: AtomicU64,
    afters: AtomicU64,
    wrong: AtomicU64,
}

impl CountingGate {
    pub fn make(worker: u32) -> CountingGate {
        CountingGate {
            worker,
            befores: AtomicU64::new(0),
            afters: AtomicU64::new(0),
            wrong: AtomicU64::new(0),
        }
    }

    /// How often it was called before and after a line.
    pub fn calls(&self) -> (u64, u64) {
        (
            self.befores.load(Ordering::SeqCst),
            self.afters.load(Ordering::SeqCst),
        )
    }

    /// Whether each call was in its turn.
    pub fn is_in_turn(&self) -> bool {
        self.wrong.load(Ordering::SeqCst) == 0
    }

    fn note(&self, is_right: bool) {
        if !is_right {
            self.wrong.fetch_add(1, Ordering::SeqCst);
        }
    }
}

impl Gate for CountingGate {
    fn before(&self, worker: u32, line: u64) {
        let befores = self.befores.fetch_add(1, Ordering::SeqCst).wrapping_add(1);
        let afters = self.afters.load(Ordering::SeqCst).wrapping_add(1);
        self.note(worker == self.worker && line == befores && line == afters);
    }

    fn after(&self, worker: u32, line: u64) {
        let afters = self.afters.fetch_add(1, Ordering::SeqCst).wrapping_add(1);
        let befores = self.befores.load(Ordering::SeqCst);
        self.note(worker == self.worker && line == afters && line == befores);
    }
}
