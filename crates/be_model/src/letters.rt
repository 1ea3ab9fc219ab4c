//! Events that are delivered.

use crate::changes::Row;
use crate::events::Event;
use be_base::SessionNo;
use std::sync::Arc;

/// What a letter says of its event. Its text is written when the letter is read, piece by piece.
#[derive(Drop)]
pub struct EventText {
    pub event: Event,
}

/// One event, delivered to the session of one row that it satisfied.
#[derive(Drop)]
pub struct Letter {
    /// The session that the letter is for.
    pub session: SessionNo,
    /// After how many changes the event was matched.
    pub n: u64,
    pub row: Arc<Row>,
    pub text: Arc<EventText>,
}
