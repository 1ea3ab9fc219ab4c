//! Memory that is held back for removals and leaves.

use std::alloc::Global;

/// Bytes of the block that is held back.
const RESERVE_BYTES: usize = 65536;

/// Bytes that are asked for to see whether there is memory for a removal.
const PROBE_BYTES: usize = 4096;

/// A block of memory that is held back for removals and leaves, so that they go through for a while where nothing else does. No clause
/// says what it does, since none knows how much memory there is: a test sees it.
#[derive(Drop)]
pub struct Reserve {
    alloc: Global,
    block: Vec<u8>,
}

impl Reserve {
    /// It takes its block where it can.
    pub fn make(alloc: Global) -> Reserve {
        let mut reserve = Reserve {
            alloc,
            block: Vec::new(alloc),
        };
        reserve.close();
        reserve
    }

    /// To be called before a removal: gives the block up where there is no memory for a little.
    pub fn open(&mut self) {
        let mut probe: Vec<u8> = Vec::new(self.alloc);
        if probe.reserve_exact(PROBE_BYTES).is_err() {
            self.block.shrink_to_fit();
        }
    }

    /// To be called behind it: takes the block again where it can.
    pub fn close(&mut self) {
        let _ = self.block.reserve_exact(RESERVE_BYTES);
    }
}
