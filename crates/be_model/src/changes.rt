//! Subscriptions, and changes of what is subscribed.

ghost use Rattle.std.specs.Prelude.{◌≡◌, IfOk};
ghost use Rattle.be_model.specs.Entries.{entry_of, unsubscribed};
ghost use Rattle.be_model.specs.Forms.{IsConj};
ghost use Rattle.be_model.specs.Lies.{row_lies};

use crate::conjs::Conj;
use crate::schemas::Schema;
use be_base::{Id, Name, NoMemory, SessionNo};
use std::alloc::Global;
use std::sync::Arc;

/// A subscription.
#[derive(Drop)]
pub struct Row {
    pub id: Id,
    pub session: SessionNo,
    pub name: Name,
    pub conj: Conj,
}

impl Row {
    /// Whether the row's condition lies in the schema.
    pub fn lies(&self, s: &Schema) -> bool
        ensures lies { result ≡ row_lies s.now self.now }
        ensures form { IsConj self.now.conj }
    {
        self.conj.lies(s)
    }
}

/// A change, with the session that made it and its number among the changes of that session, from 0.
#[derive(Drop)]
pub enum Change {
    Sub {
        session: SessionNo,
        serial: u64,
        row: Arc<Row>,
    },
    Unsub {
        session: SessionNo,
        serial: u64,
        name: Box<Name>,
    },
    /// The session has left, and its rows with it.
    Bye {
        session: SessionNo,
        serial: u64,
    },
}

impl Change {
    /// The removal of the session's row of a name.
    pub fn removal(
        alloc: Global,
        session: SessionNo,
        serial: u64,
        name: Name,
    ) -> Result<Change, NoMemory>
        ensures { IfOk result (λ change. entry_of change ≡ unsubscribed session.0 serial name) }
    {
        match Box::new(alloc, name) {
            Ok(name) => Ok(Change::Unsub {
                session,
                serial,
                name,
            }),
            Err(_) => Err(NoMemory),
        }
    }
}
