//! Where the rows of a large leaf may stand.

use crate::places::Kept;
use be_base::Id;
use std::alloc::Global;

/// A place for an id, at which its row may stand. Whoever asks looks whether it does, so nothing need be true of a hint, and where
/// memory is wanting there is none.
#[derive(Drop)]
pub(crate) struct Hints {
    slots: Vec<u32>,
}

impl Hints {
    /// No hints. It takes no memory.
    pub(crate) fn none(alloc: Global) -> Hints {
        Hints {
            slots: Vec::new(alloc),
        }
    }

    /// A place at which the row of the id may stand.
    pub(crate) fn guess(&self, id: Id) -> usize {
        let count = self.slots.len();
        if count == 0 {
            return 0;
        }
        self.slots[(id.0 % count as u64) as usize] as usize
    }

    /// Notes what stands at a place.
    pub(crate) fn note_at(&mut self, places: &[Kept], place: usize) {
        let count = self.slots.len();
        if count == 0 || places.len() <= place || (u32::MAX as usize) < place {
            return;
        }
        if let Some(id) = places[place].any_id() {
            self.slots[(id.0 % count as u64) as usize] = place as u32;
        }
    }

    /// Notes what stands at the places from one up to another.
    pub(crate) fn note_between(&mut self, places: &[Kept], from: usize, to: usize) {
        for place in from..to {
            self.note_at(places, place);
        }
    }

    /// Notes the last of these places, or all of them anew where they have become too many.
    pub(crate) fn note_last(&mut self, places: &[Kept]) {
        let count = places.len();
        if self.slots.len() / 2 < count {
            self.renew(places);
        } else if 0 < count {
            self.note_at(places, count - 1);
        }
    }

    fn renew(&mut self, places: &[Kept]) {
        let alloc = *self.slots.allocator();
        let Ok(slots) = vec![in alloc; 0; places.len().saturating_mul(4)] else {
            return;
        };
        self.slots = slots;
        for place in 0..places.len() {
            self.note_at(places, place);
        }
    }
}
