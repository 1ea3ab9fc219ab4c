//! The input of a row.

ghost use Rattle.std.specs.Prelude.{◌≡◌};

use crate::lines::bytes_of;
use crate::row::Row;
use be_io::{Failed, MemSource, Source};
use std::alloc::Global;
use std::marker::Model;
use std::sync::Arc;
use std::sync::atomic::{AtomicU64, Ordering};

/// An input in memory, whose calls the gate sees.
#[derive(Drop)]
pub struct Input {
    inner: MemSource,
    reads: Arc<AtomicU64>,
}

impl Model for Input {
    ghost use Rattle.be_io.specs.Memory.{MemSourceState};

    ghost Value = { MemSourceState };

    ghost view = { λ i. i.inner };
}

impl Input {
    /// The row's input, or one whose first read fails, where it has none.
    pub fn of(alloc: Global, row: &Row<'_>, reads: Arc<AtomicU64>) -> Option<Input> {
        let inner = match row.input {
            Some(input) => {
                let bytes = bytes_of(alloc, input.lines)?;
                let failing = vec![in alloc; input.failing_read].ok()?;
                MemSource::make(bytes, input.piece, failing)
            }
            None => {
                let failing = vec![in alloc; 1].ok()?;
                MemSource::make(Vec::new(alloc), 1, failing)
            }
        };
        Some(Input { inner, reads })
    }
}

impl Source for Input {
    ghost use Rattle.std.specs.Prelude.{Some};
    ghost use Rattle.be_io.specs.Kept.{alone_in_reading};

    ghost left = { λ i. Some i.left };

    ghost taken = { λ i. i.taken };

    ghost read_faults = { λ i. i.calls.faults };

    ghost kept_by_read = { λ i. record alone_in_reading { whole = Some i.whole } };

    fn read(&mut self, buf: &mut [u8]) -> Result<usize, Failed> {
        self.reads.fetch_add(1, Ordering::SeqCst);
        self.inner.read(buf)
    }
}
