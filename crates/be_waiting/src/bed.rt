//! What a worker that waits sleeps by.

ghost use Rattle.std.specs.Prelude.{◌≡◌, ◌≤◌, min, ◌-◌};

use be_io::Sink;
use std::sync::Wait;
use std::sync::atomic::AtomicU64;
use std::time::{Clock, Duration};

/// A sleep lasts at most so many milliseconds, so that a peer that sends more, or goes away, is noticed.
pub const SLICE_MILLIS: u64 = 100;

/// How a worker sleeps, and what it sees when it wakes.
pub trait Bed {
    /// Sleeps while the low half of the word is this number, at most so many milliseconds. It may end for no reason.
    fn sleep(&self, word: &AtomicU64, low: u32, millis: u64);

    /// Milliseconds since some moment. It is the greatest number where there is no clock.
    fn now(&self) -> u64;

    /// Whether whoever is answered has sent more, or is gone. Then a wait ends.
    fn is_called(&self) -> bool;
}

/// The system's sleep and clock, for whoever is answered through this sink.
#[derive(Drop)]
pub struct SystemBed<'a, R: Wait + Clock, K: Sink> {
    rt: &'a R,
    out: &'a K,
}

impl<'a, R: Wait + Clock, K: Sink> SystemBed<'a, R, K> {
    pub fn make(rt: &'a R, out: &'a K) -> SystemBed<'a, R, K> {
        SystemBed { rt, out }
    }
}

impl<'a, R: Wait + Clock, K: Sink> Bed for SystemBed<'a, R, K> {
    fn sleep(&self, word: &AtomicU64, low: u32, millis: u64) {
        word.park_timeout(self.rt, low, Duration::from_millis(millis));
    }

    fn now(&self) -> u64 {
        match self.rt.monotonic() {
            Ok(time) => time
                .as_secs()
                .saturating_mul(1000)
                .saturating_add(u64::from(time.subsec_millis())),
            Err(_) => u64::MAX,
        }
    }

    fn is_called(&self) -> bool {
        self.out.hears()
    }
}

// How long the next sleep may be where the wait ends at `until`.
pub(crate) fn next_sleep<B: Bed>(bed: &B, until: u64) -> u64
    ensures { result ≤ SLICE_MILLIS }
{
    until.saturating_sub(bed.now()).min(SLICE_MILLIS)
}
