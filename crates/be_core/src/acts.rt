//! What may happen in the core, and what it answers.

use be_base::{Id, SessionNo};
use be_model::{Change, Event, Names};
use std::sync::Arc;

/// One atomic act.
#[derive(Drop)]
pub enum Act {
    /// The session asks for a change, which isn't its Bye.
    Ask {
        session: SessionNo,
        change: Arc<Change>,
    },
    /// All changes are published.
    Publish,
    /// The index takes another shape. The list knows nothing of it.
    Reshape,
    /// The session looks, in the first `n` changes, for what the event satisfies.
    Read {
        session: SessionNo,
        n: u64,
        event: Event,
    },
    /// The session is told how much is published.
    Tell {
        session: SessionNo,
    },
    /// The session leaves.
    Leave {
        session: SessionNo,
    },
}

/// The reply to one act. `n` and `m` are lengths of the list.
#[derive(Drop)]
pub enum CoreReply {
    /// The change was accepted, and is pending.
    Taken { n: u64 },
    /// The session's change still is pending.
    Held { n: u64 },
    /// The name is live, at this id.
    Dup { m: u64, id: Id },
    /// The name isn't live.
    NoName { m: u64 },
    /// The name is live, at this id, and another session's.
    Other { m: u64, id: Id },
    /// The session has left, and its Bye is pending.
    Left { n: u64 },
    /// The names of the live rows that the event satisfies, by rising id.
    Hits { n: u64, names: Names },
    /// The session has seen more than was published.
    Split { seen: u64, written: u64 },
    Nothing,
}
