//! What two threads wait by, where one hands to the other.

use std::sync::{Condvar, Mutex, Wait};
use std::time::{Clock, Duration};

/// How long a thread waits for the other one to begin, in milliseconds. Perhaps none can be made.
const BEGINS_WITHIN: u64 = 2_000;

// How often it was rung, whether the thread that takes has begun, and whether it is closed.
#[derive(Drop)]
struct Rings {
    count: u64,
    has_taker: bool,
    is_closed: bool,
}

// Each of two threads rings it when it has moved, and waits for a ring where it can't move. A thread remembers how often it was rung
// before it looks whether it can move: so no ring is missed. No clause says that a wait ends.
#[derive(Drop)]
pub(crate) struct Bell {
    rings: Mutex<Rings>,
    rung: Condvar,
}

impl Bell {
    pub(crate) fn make() -> Bell {
        Bell {
            rings: Mutex::new(Rings {
                count: 0,
                has_taker: false,
                is_closed: false,
            }),
            rung: Condvar::new(),
        }
    }

    // The thread that takes is there.
    pub(crate) fn begin<R: Wait>(&self, rt: &R) {
        let mut rings = self.rings.lock(rt);
        rings.has_taker = true;
        self.rung.notify_all();
    }

    // Waits until the thread that takes is there, but not for long, and says whether it is.
    pub(crate) fn await_taker<R: Wait + Clock>(&self, rt: &R) -> bool {
        let (rings, _) = self.rung.wait_timeout_while(
            rt,
            self.rings.lock(rt),
            Duration::from_millis(BEGINS_WITHIN),
            |rings| !rings.has_taker,
        );
        rings.has_taker
    }

    // How often it was rung.
    pub(crate) fn heard<R: Wait>(&self, rt: &R) -> u64 {
        self.rings.lock(rt).count
    }

    // Says whether it is closed.
    pub(crate) fn ring<R: Wait>(&self, rt: &R) -> bool {
        let mut rings = self.rings.lock(rt);
        rings.count = rings.count.wrapping_add(1);
        self.rung.notify_all();
        rings.is_closed
    }

    // One of the two moves no more.
    pub(crate) fn close<R: Wait>(&self, rt: &R) {
        let mut rings = self.rings.lock(rt);
        rings.is_closed = true;
        self.rung.notify_all();
    }

    // Waits for a ring that wasn't heard, and says whether it is closed.
    pub(crate) fn wait<R: Wait>(&self, rt: &R, heard: u64) -> bool {
        let rings = self.rung.wait_while(rt, self.rings.lock(rt), |rings| {
            rings.count == heard && !rings.is_closed
        });
        rings.is_closed
    }
}
