//! Where each session stands.

ghost use Rattle.std.specs.Prelude.{◌≡◌, ◌≤◌, ◌<◌, ◌++◌, List, [], ◌∷◌, length, OnOk, OnErr};
ghost use Rattle.be_base.specs.declared.limits.TheConstants.{COUNT_END, LOG_CHANGES};
ghost use Rattle.be_change.specs.Entries.{entry_of};
ghost use Rattle.be_change.specs.History.{Entry, session_of, serial_of, stand, MayFollow};
ghost use Rattle.be_desk.specs.Stands.{AreStands, stand_after};

use be_base::{COUNT_END, NoMemory, SessionNo};
use be_change::session_of;
use be_model::Change;
use std::alloc::Global;
use std::collections::BTreeMap;

/// How many changes each session has made, or 2^63 where it has left. A session that isn't in the table has made none.
#[derive(Drop)]
pub struct Stands {
    by_session: BTreeMap<u64, u64>,
}

impl Stands {
    /// It takes no memory.
    pub fn make(alloc: Global) -> Stands
        ensures { AreStands result [] }
    {
        Stands {
            by_session: BTreeMap::new(alloc),
        }
    }

    /// Where the session stands.
    pub fn of(&self, session: SessionNo) -> u64
        ensures { (h : List Entry) → AreStands self.now h → result ≡ stand session.0 h }
    {
        self.by_session.get(&session.0).copied().unwrap_or(0)
    }

    /// Takes note of a change that may follow the list, or leaves all as it was.
    pub fn put(&mut self, change: &Change) -> Result<(), NoMemory>
        ensures put { OnOk result ((h : List Entry) → length h ≤ LOG_CHANGES → MayFollow h (entry_of change.now) → AreStands self.old h → AreStands self.new (h ++ entry_of change.now ∷ [])) }
        ensures refused { OnErr result ((h : List Entry) → AreStands self.old h → AreStands self.new h) }
        // Only a session's first change takes memory.
        ensures first { OnErr result ((h : List Entry) → AreStands self.old h → stand (session_of (entry_of change.now)) h ≡ 0) }
    {
        match self
            .by_session
            .insert(session_of(change).0, stand_after(change))
        {
            Ok(_) => Ok(()),
            Err(_) => Err(NoMemory),
        }
    }

    /// Undoes a put. It takes no memory.
    pub fn take_back(&mut self, change: &Change)
        ensures { (h : List Entry) → MayFollow h (entry_of change.now) → AreStands self.old (h ++ entry_of change.now ∷ []) → AreStands self.new h }
    {
        let session = session_of(change).0;
        let serial = serial_of(change);
        if serial == 0 {
            self.by_session.remove(&session);
        } else if let Some(stand) = self.by_session.get_mut(&session) {
            *stand = serial;
        }
    }
}

fn serial_of(change: &Change) -> u64
    ensures { result ≡ serial_of (entry_of change.now) }
{
    match change {
        Change::Sub { serial, .. } => *serial,
        Change::Unsub { serial, .. } => *serial,
        Change::Bye { serial, .. } => *serial,
    }
}

// Where the session stands once the change is in the list. Serials stay far below the end of counts.
fn stand_after(change: &Change) -> u64
    ensures { serial_of (entry_of change.now) < COUNT_END → result ≡ stand_after (entry_of change.now) }
{
    match change {
        Change::Sub { serial, .. } => serial.saturating_add(1),
        Change::Unsub { serial, .. } => serial.saturating_add(1),
        Change::Bye { .. } => COUNT_END,
    }
}
