//! A number that only rises, and waits for it.

ghost use Rattle.std.specs.Prelude.{◌≡◌, ◌<◌, ◌%◌, ◌^◌, IfSome};

use crate::bed::{Bed, next_sleep};
use crate::flag::Flag;
use std::sync::atomic::{AtomicU64, Ordering};

/// How many changes are published, say. One thread at a time sets it, and any others wait until it is above a place.
#[derive(Drop)]
pub struct Level {
    height: AtomicU64,
    awaited: Flag,
}

impl Level {
    pub const fn make(height: u64) -> Level {
        Level {
            height: AtomicU64::new(height),
            awaited: Flag::make(),
        }
    }

    /// Says how high it is. Whoever sets it wakes those who wait then.
    pub fn set(&self, height: u64) {
        self.height.store(height, Ordering::SeqCst);
    }

    /// Wakes whoever waits. Where nobody does this is one load.
    pub fn wake(&self) {
        if self.awaited.take() {
            self.height.wake_all();
        }
    }

    /// How high it is, where that is above the place.
    pub fn above(&self, place: u64) -> Option<u64>
        ensures { IfSome result (λ height. place < height) }
    {
        let height = self.height.load(Ordering::SeqCst);
        if place < height { Some(height) } else { None }
    }

    /// Waits until it is above the place, or so many milliseconds have passed, or the bed is called, and says how high it was then,
    /// where that is above. It looks before it waits.
    pub fn await_above<B: Bed>(&self, bed: &B, place: u64, millis: u64) -> Option<u64>
        ensures { IfSome result (λ height. place < height) }
    {
        if let Some(height) = self.above(place) {
            return Some(height);
        }
        let until = bed.now().saturating_add(millis);
        for _ in 0..u64::MAX {
            // Said before the look: so whoever sets what the look doesn't see finds it said.
            self.awaited.raise();
            let height = self.height.load(Ordering::SeqCst);
            if place < height {
                return Some(height);
            }
            let millis = next_sleep(bed, until);
            if millis == 0 || bed.is_called() {
                return None;
            }
            bed.sleep(&self.height, low_half(height), millis);
        }
        None
    }
}

// What the system compares before it sleeps.
fn low_half(word: u64) -> u32
    ensures { result ≡ word % 2 ^ 32 }
{
    (word % 0x1_0000_0000) as u32
}
