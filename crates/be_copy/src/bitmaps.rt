//! Places of rows, each under a number, where neighbours stand under the same one mostly.

ghost use Rattle.std.specs.Prelude.{◌≡◌, ℕ, ◌+◌, ◌-◌, ◌*◌, ◌/◌, ◌^◌, ◌<◌, ◌≤◌, true, false, [], cond, Some, IfSome, IfNone, OnOk, OnErr};
ghost use Rattle.std.specs.Bool.{OnTrue};
ghost use Rattle.be_copy.specs.Bitmaps.{is_noted};
ghost use Rattle.be_copy.specs.Places.{is_pair, IsLeast};

use crate::marks::{BLOCK, Marks};
use be_base::NoMemory;
use std::alloc::Global;
use std::collections::BTreeMap;
use std::ops::Bound;

/// Places under numbers, as a bitmap for each number. A block without a mark takes no memory.
#[derive(Drop)]
pub struct Bitmaps {
    // By the number, and the number of the block.
    blocks: BTreeMap<(u64, u64), Marks>,
}

impl Bitmaps {
    /// It takes no memory.
    pub fn make(alloc: Global) -> Bitmaps
        ensures { result.blocks.entries ≡ [] }
    {
        Bitmaps {
            blocks: BTreeMap::new(alloc),
        }
    }

    /// Puts a place under a key.
    pub fn put(&mut self, key: u64, place: u64) -> Result<(), NoMemory>
        ensures put { OnOk result ((k i : ℕ) → is_noted self.new.blocks.entries k i ≡ cond (is_pair key place k i) true (is_noted self.old.blocks.entries k i)) }
        ensures refused { OnErr result (self.new.blocks.entries ≡ self.old.blocks.entries) }
    {
        let block = (key, place / BLOCK);
        let at = (place % BLOCK) as u32;
        if let Some(marks) = self.blocks.get_mut(&block) {
            marks.put(at);
            return Ok(());
        }
        match self.blocks.insert(block, Marks::of(at)) {
            Ok(_) => Ok(()),
            Err(_) => Err(NoMemory),
        }
    }

    /// Takes a place away from a key.
    pub fn drop_pair(&mut self, key: u64, place: u64)
        ensures { (k i : ℕ) → is_noted self.new.blocks.entries k i ≡ cond (is_pair key place k i) false (is_noted self.old.blocks.entries k i) }
    {
        let block = (key, place / BLOCK);
        let Some(marks) = self.blocks.get_mut(&block) else {
            return;
        };
        if !marks.take((place % BLOCK) as u32) {
            self.blocks.remove(&block);
        }
    }

    /// True only where every place stands under this key.
    pub fn has_only(&self, key: u64) -> bool
        ensures { OnTrue result ((k i : ℕ) → is_noted self.now.blocks.entries k i ≡ true → k ≡ key) }
    {
        match (self.blocks.first_key_value(), self.blocks.last_key_value()) {
            (Some((first, _)), Some((last, _))) => first.0 == key && last.0 == key,
            _ => false,
        }
    }

    /// Takes all places away.
    pub fn clear(&mut self)
        ensures { self.new.blocks.entries ≡ [] }
    {
        self.blocks.clear();
    }

    /// The first place under the key that is not below `from`.
    pub fn next(&self, key: u64, from: u64) -> Option<u64>
        ensures { IsLeast (is_noted self.now.blocks.entries key) from result }
    {
        match self.here(key, from) {
            Some(place) => Some(place),
            None => self.after(key, from / BLOCK),
        }
    }

    // The first place under the key that is not below `from` and in its block.
    fn here(&self, key: u64, from: u64) -> Option<u64>
        ensures least { IfSome result (λ place. IsLeast (is_noted self.now.blocks.entries key) from (Some place)) }
        ensures none { IfNone result ((i : ℕ) → from ≤ i → i < (from / BLOCK + 1) * BLOCK → is_noted self.now.blocks.entries key i ≡ false) }
    {
        let block = from / BLOCK;
        let Some(marks) = self.blocks.get(&(key, block)) else {
            return None;
        };
        match marks.next((from % BLOCK) as u32) {
            Some(at) => Some(block * BLOCK + u64::from(at)),
            None => None,
        }
    }

    // The first place under the key in a block after this one.
    fn after(&self, key: u64, block: u64) -> Option<u64>
        requires { block ≤ 2 ^ 64 / BLOCK - 1 }
        ensures { IsLeast (is_noted self.now.blocks.entries key) ((block + 1) * BLOCK) result }
    {
        let rest = (
            Bound::Excluded((key, block)),
            Bound::Included((key, u64::MAX / BLOCK)),
        );
        match self.blocks.range(rest).next() {
            Some((block, marks)) => Some(block.1 * BLOCK + u64::from(marks.first())),
            None => None,
        }
    }
}
