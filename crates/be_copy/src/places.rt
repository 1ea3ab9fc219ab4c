//! Places of rows, each under a number.

ghost use Rattle.std.specs.Prelude.{◌≡◌, ℕ, true, false, [], cond, OnOk, OnErr};
ghost use Rattle.be_copy.specs.Places.{is_listed, is_pair, IsLeast};

use be_base::NoMemory;
use std::alloc::Global;
use std::collections::BTreeSet;

/// Pairs of a number and a place, in order.
#[derive(Drop)]
pub struct Places {
    pairs: BTreeSet<(u64, u64)>,
}

impl Places {
    pub fn make(alloc: Global) -> Places
        ensures { result.pairs.keys ≡ [] }
    {
        Places {
            pairs: BTreeSet::new(alloc),
        }
    }

    /// Puts a place under a key.
    pub fn put(&mut self, key: u64, place: u64) -> Result<(), NoMemory>
        ensures put { OnOk result ((k i : ℕ) → is_listed self.new.pairs.keys k i ≡ cond (is_pair key place k i) true (is_listed self.old.pairs.keys k i)) }
        ensures refused { OnErr result (self.new.pairs.keys ≡ self.old.pairs.keys) }
    {
        match self.pairs.insert((key, place)) {
            Ok(_) => Ok(()),
            Err(_) => Err(NoMemory),
        }
    }

    /// Takes a place away from a key.
    pub fn drop_pair(&mut self, key: u64, place: u64)
        ensures { (k i : ℕ) → is_listed self.new.pairs.keys k i ≡ cond (is_pair key place k i) false (is_listed self.old.pairs.keys k i) }
    {
        self.pairs.remove(&(key, place));
    }

    /// Takes all places away.
    pub fn clear(&mut self)
        ensures { self.new.pairs.keys ≡ [] }
    {
        self.pairs.clear();
    }

    /// The first place under the key that is not below `from`.
    pub fn next(&self, key: u64, from: u64) -> Option<u64>
        ensures { IsLeast (is_listed self.now.pairs.keys key) from result }
    {
        match self.pairs.range((key, from)..=(key, u64::MAX)).next() {
            Some(pair) => Some(pair.1),
            None => None,
        }
    }
}
