//! Where each session stands: how many changes it has made, or that it has left.

ghost use Rattle.std.specs.Prelude.{◌≡◌, ◌≢◌, ℕ, IsSome, OnOk};
ghost use Rattle.be_follow.specs.Stands.{stand_in, has_room};

use be_base::{NoMemory, SessionNo};
use std::alloc::Global;
use std::collections::BTreeMap;

/// A number for each session, which is 0 where none was set.
#[derive(Drop)]
pub struct Stands {
    numbers: BTreeMap<u64, u64>,
}

impl Stands {
    /// It takes no memory.
    pub fn make(alloc: Global) -> Stands
        ensures { (k : ℕ) → stand_in result k ≡ 0 }
    {
        Stands {
            numbers: BTreeMap::new(alloc),
        }
    }

    /// The session's number.
    pub fn of(&self, session: SessionNo) -> u64
        ensures { result ≡ stand_in self.now session.0 }
    {
        self.numbers.get(&session.0).copied().unwrap_or(0)
    }

    /// Makes room for the session's number, and leaves all numbers.
    pub fn make_room(&mut self, session: SessionNo) -> Result<(), NoMemory>
        ensures same { (k : ℕ) → stand_in self.new k ≡ stand_in self.old k }
        ensures room { OnOk result (IsSome (has_room self.new session.0)) }
    {
        match self.numbers.entry(session.0) {
            Ok(place) => {
                place.or_insert(0);
                Ok(())
            }
            Err(_) => Err(NoMemory),
        }
    }

    /// Sets the session's number, for which there is room.
    pub fn set(&mut self, session: SessionNo, number: u64)
        requires { IsSome (has_room self.old session.0) }
        ensures set { stand_in self.new session.0 ≡ number }
        ensures others { (k : ℕ) → k ≢ session.0 → stand_in self.new k ≡ stand_in self.old k }
    {
        if let Some(kept) = self.numbers.get_mut(&session.0) {
            *kept = number;
        }
    }
}
