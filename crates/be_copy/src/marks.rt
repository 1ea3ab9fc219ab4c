//! Which of some neighbouring places are marked.

ghost use Rattle.std.specs.Prelude.{◌≡◌, ℕ, ◌<◌, ◌≤◌, ◌==◌, ◌||◌, true, false, cond, IfNone, IfSome, MatchBool};
ghost use Rattle.be_copy.specs.Bitmaps.{is_marked};

use std::marker::Model;

/// How many places a block has.
pub const BLOCK: u64 = 32;

/// Which places of a block are marked, at least one.
#[derive(Drop)]
pub struct Marks {
    bits: u32,
}

impl Model for Marks {
    ghost use Rattle.std.specs.Prelude.{ℕ, ◌<◌};

    ghost Value = { ℕ };

    ghost view = { λ m. m.bits };

    ghost invariant = { λ m. 0 < m.bits };
}

impl Marks {
    pub fn of(place: u32) -> Marks
        requires { place < BLOCK }
        ensures { (i : ℕ) → is_marked result i ≡ (place == i) }
    {
        Marks { bits: 1 << place }
    }

    pub fn put(&mut self, place: u32)
        requires { place < BLOCK }
        ensures { (i : ℕ) → is_marked self.new i ≡ (place == i || is_marked self.old i) }
    {
        self.bits |= 1 << place;
    }

    /// Takes a mark away, unless no other one would be left, and says whether others are.
    pub fn take(&mut self, place: u32) -> bool
        requires { place < BLOCK }
        ensures left { MatchBool result
            ((i : ℕ) → i < BLOCK → is_marked self.new i ≡ cond (place == i) false (is_marked self.old i))
            ((i : ℕ) → i < BLOCK → cond (place == i) false (is_marked self.old i) ≡ false) }
    {
        let rest = self.bits & !(1 << place);
        if rest == 0 {
            return false;
        }
        self.bits = rest;
        true
    }

    /// The first marked place.
    pub fn first(&self) -> u32
        ensures block { result < BLOCK }
        ensures marked { is_marked self.now result ≡ true }
        ensures first { (i : ℕ) → i < result → is_marked self.now i ≡ false }
    {
        lowest(self.bits)
    }

    /// The first marked place that is not below `from`.
    pub fn next(&self, from: u32) -> Option<u32>
        requires { from < BLOCK }
        ensures next { IfSome result (λ place. (from ≤ place) × (place < BLOCK) × (is_marked self.now place ≡ true) × ((i : ℕ) → from ≤ i → i < place → is_marked self.now i ≡ false)) }
        ensures none { IfNone result ((i : ℕ) → from ≤ i → i < BLOCK → is_marked self.now i ≡ false) }
    {
        let rest = self.bits & (u32::MAX << from);
        if rest == 0 {
            return None;
        }
        Some(lowest(rest))
    }
}

fn lowest(bits: u32) -> u32
    requires { 0 < bits }
    ensures block { result < BLOCK }
    ensures marked { is_marked bits result ≡ true }
    ensures first { (i : ℕ) → i < result → is_marked bits i ≡ false }
{
    bits.trailing_zeros()
}
