//! What is rung when something was put, and waits for it.

use crate::bed::{Bed, next_sleep};
use crate::flag::{Flag, RAISED};

/// The bell of a mailbox, say, of which one thread waits. Whoever puts something rings it then.
#[derive(Drop)]
pub struct Bell {
    awaited: Flag,
}

impl Bell {
    pub const fn make() -> Bell {
        Bell {
            awaited: Flag::make(),
        }
    }

    /// Wakes whoever waits. Where nobody does this is one load.
    pub fn ring(&self) {
        if self.awaited.take() {
            self.awaited.word().wake_all();
        }
    }

    /// Says that somebody waits. A waiter says so before it looks: whoever put what the look doesn't see finds it said.
    pub fn announce(&self) {
        self.awaited.raise();
    }

    /// Sleeps until it is rung, and says whether the wait may go on: it may not where it is over at `until`, or the bed is called. It
    /// may end for no reason.
    pub fn sleep<B: Bed>(&self, bed: &B, until: u64) -> bool {
        let millis = next_sleep(bed, until);
        if millis == 0 || bed.is_called() {
            return false;
        }
        bed.sleep(self.awaited.word(), RAISED, millis);
        true
    }
}
