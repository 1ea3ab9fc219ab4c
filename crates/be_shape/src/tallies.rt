//! Which attributes many rows of a leaf have, as its places tell it.

ghost use Rattle.std.specs.Prelude.{◌≡◌, ◌≤◌, ◌<◌, ◌+◌, ◌==◌, ◌||◌, ℕ, false, true, slice_get, Some, length};
ghost use Rattle.std.specs.List.{count_by};
ghost use Rattle.be_base.specs.declared.limits.TheConstants.{EARLY_ROWS, LEAF_ROWS};
ghost use Rattle.be_shape.specs.Listed.{is_many};
ghost use Rattle.be_shape.specs.Common.{AreCommon, IsTold, Notes, with_common, is_listed, lists, lists_many};

use crate::leaves::Leaf;
use crate::listings::RowAttrs;
use be_base::{ATTRIBUTES, EARLY_ROWS, LEAF_ROWS};
use be_model::Row;

/// How often each attribute is listed, and which of them so often as is wanted.
#[derive(Drop)]
pub(crate) struct Tally {
    counts: [u8; ATTRIBUTES],
    wanted: u8,
    common: RowAttrs,
}

// The attribute beside those that are listed.
fn with_common(x: u8, listed: RowAttrs) -> RowAttrs
    ensures { result ≡ with_common x listed }
{
    match listed {
        RowAttrs::Zero => RowAttrs::One(x),
        RowAttrs::One(a) => RowAttrs::Two(a, x),
        RowAttrs::Two(a, b) => RowAttrs::Three(a, b, x),
        _ => RowAttrs::Many,
    }
}

impl Tally {
    // Of no rows.
    fn none(wanted: u8) -> Tally
        requires { 0 < wanted }
        ensures told { IsTold result.counts result.wanted result.common }
        ensures wanted { result.wanted ≡ wanted }
    {
        Tally {
            counts: [0; ATTRIBUTES],
            wanted,
            common: RowAttrs::Zero,
        }
    }

    // A row more that lists the attribute of this number.
    fn note(&mut self, x: u8)
        ensures counts { Notes 255 (λ a. x == a) self.old.counts self.new.counts }
        ensures wanted { self.new.wanted ≡ self.old.wanted }
        ensures told { IsTold self.old.counts self.old.wanted self.old.common → IsTold self.new.counts self.new.wanted self.new.common }
    {
        let at = usize::from(x);
        self.counts[at] = self.counts[at].saturating_add(1);
        if self.counts[at] == self.wanted {
            self.common = with_common(x, self.common);
        }
    }

    fn note_two(&mut self, x: u8, y: u8)
        ensures counts { Notes 254 (λ a. x == a || y == a) self.old.counts self.new.counts }
        ensures wanted { self.new.wanted ≡ self.old.wanted }
        ensures told { IsTold self.old.counts self.old.wanted self.old.common → IsTold self.new.counts self.new.wanted self.new.common }
    {
        self.note(x);
        self.note(y);
    }

    fn note_three(&mut self, x: u8, y: u8, z: u8)
        ensures counts { Notes 253 (λ a. x == a || y == a || z == a) self.old.counts self.new.counts }
        ensures wanted { self.new.wanted ≡ self.old.wanted }
        ensures told { IsTold self.old.counts self.old.wanted self.old.common → IsTold self.new.counts self.new.wanted self.new.common }
    {
        self.note_two(x, y);
        self.note(z);
    }

    // A row more of these attributes.
    fn add(&mut self, attrs: RowAttrs)
        ensures counts { Notes 253 (λ a. is_listed a attrs) self.old.counts self.new.counts }
        ensures wanted { self.new.wanted ≡ self.old.wanted }
        ensures told { IsTold self.old.counts self.old.wanted self.old.common → IsTold self.new.counts self.new.wanted self.new.common }
    {
        match attrs {
            RowAttrs::One(x) => self.note(x),
            RowAttrs::Two(x, y) => self.note_two(x, y),
            RowAttrs::Three(x, y, z) => self.note_three(x, y, z),
            _ => {}
        }
    }

    // The row more that stands at this place of the leaf.
    #[tactic(auto, using(std::proofs::lemmas::Option::slice_get_within))]
    fn add_at(&mut self, leaf: &Leaf, place: usize, row: &Row)
        requires { slice_get leaf.now place ≡ Some row.now }
        ensures counts { Notes 253 (λ a. lists a row.now) self.old.counts self.new.counts }
        ensures wanted { self.new.wanted ≡ self.old.wanted }
        ensures told { IsTold self.old.counts self.old.wanted self.old.common → IsTold self.new.counts self.new.wanted self.new.common }
    {
        self.add(leaf.attrs(place));
    }
}

// Whether the place, at which the row stands, doesn't tell its attributes.
#[tactic(auto, using(std::proofs::lemmas::Option::slice_get_within))]
fn lists_many(leaf: &Leaf, place: usize, row: &Row) -> bool
    requires { slice_get leaf.now place ≡ Some row.now }
    ensures { result ≡ lists_many row.now }
{
    leaf.attrs(place).is_many()
}

// Of how many rows of the leaf the attributes aren't told.
fn count_many(leaf: &Leaf) -> usize
    ensures { result ≡ count_by lists_many leaf.now }
{
    let mut many = 0;
    for place in 0..leaf.len() {
        if lists_many(leaf, place, leaf.row(place)) {
            many += 1;
        }
    }
    many
}

// The attributes that are listed so often.
fn common_by(leaf: &Leaf, wanted: u8) -> RowAttrs
    requires few { length leaf.now ≤ LEAF_ROWS + 1 }
    requires some { 0 < wanted }
    ensures { (a : ℕ) → a < 256 → wanted ≤ count_by (lists a) leaf.now → is_many result ≡ false → is_listed a result ≡ true }
{
    let mut tally = Tally::none(wanted);
    for place in 0..leaf.len() {
        tally.add_at(leaf, place, leaf.row(place));
    }
    tally.common
}

/// The attributes that at least 8 rows of the leaf have, where they are few and may be told.
pub(crate) fn common_of(leaf: &Leaf) -> RowAttrs
    ensures { AreCommon leaf.now result }
{
    if leaf.len() < EARLY_ROWS {
        return RowAttrs::Zero;
    }
    if LEAF_ROWS + 1 < leaf.len() {
        return RowAttrs::Many;
    }
    let many = count_many(leaf);
    if EARLY_ROWS <= many {
        return RowAttrs::Many;
    }
    common_by(leaf, (EARLY_ROWS - many) as u8)
}
