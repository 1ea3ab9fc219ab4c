//! Room for replies, which is used again for the next one.

ghost use Rattle.std.specs.Prelude.{◌≡◌, ◌+◌, ◌≤◌, length, vec_capacity};
ghost use Rattle.be_session.specs.declared.room.TheConstants.{REPLY_KEPT, ROWS_KEPT};

use be_index::{Hits, Ids};
use be_model::{Change, Found};
use std::alloc::Global;
use std::sync::Arc;

/// Room for so many bytes of a reply, and of names, is kept for the next one.
pub const REPLY_KEPT: usize = 1048576;

/// Room for so many rows, ids and changes is kept for the next reply.
pub const ROWS_KEPT: usize = 65536;

/// What was found for a reply, and its text. Of the hits of an event it has the ids, and the text of their names.
#[derive(Drop)]
pub struct Room {
    pub found: Found,
    pub ids: Ids,
    pub names: Vec<u8>,
    pub changes: Vec<Arc<Change>>,
    pub reply: Vec<u8>,
}

impl Room {
    /// It takes no memory.
    pub fn make(alloc: Global) -> Room {
        Room {
            found: Found::make(alloc),
            ids: Ids::make(alloc),
            names: Vec::new(alloc),
            changes: Vec::new(alloc),
            reply: Vec::new(alloc),
        }
    }

    /// Lets large room go once its reply was written, so that a session that asked for all once doesn't hold it until its end.
    pub fn let_go(&mut self, alloc: Global)
        ensures reply { vec_capacity self.new.reply ≤ REPLY_KEPT }
        ensures names { vec_capacity self.new.names ≤ REPLY_KEPT }
        ensures changes { vec_capacity self.new.changes ≤ ROWS_KEPT }
        ensures found { length self.new.found.rows + self.new.found.spare ≤ ROWS_KEPT }
        ensures ids { length self.new.ids.ids + self.new.ids.spare ≤ ROWS_KEPT }
    {
        if self.reply.capacity() > REPLY_KEPT {
            self.reply = Vec::new(alloc);
        }
        if self.names.capacity() > REPLY_KEPT {
            self.names = Vec::new(alloc);
        }
        if self.changes.capacity() > ROWS_KEPT {
            self.changes = Vec::new(alloc);
        }
        if self.found.len().saturating_add(self.found.spare()) > ROWS_KEPT {
            self.found = Found::make(alloc);
        }
        if self.ids.count().saturating_add(self.ids.spare()) > ROWS_KEPT {
            self.ids = Ids::make(alloc);
        }
    }
}
