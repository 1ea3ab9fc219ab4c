//! Rows that stand together.

ghost use Rattle.std.specs.Prelude.{◌≡◌, ◌↔◌, ◌+◌, ◌<◌, ◌≤◌, true, IsTrue, [], ◌∷◌, ◌++◌, length, take, drop, slice_get, Some, option_map, IsSome, IsPermutation, IfSome, IfNone, IsOk, OnOk, OnErr, IfErr};
ghost use Rattle.std.specs.List.{Contains, remove};
ghost use Rattle.be_model.specs.Hulls.{span_in};
ghost use Rattle.be_model.specs.Lies.{row_lies};
ghost use Rattle.be_model.specs.Rows.{has, id_of};
ghost use Rattle.be_shape.specs.Chosen.{Covers};
ghost use Rattle.be_shape.specs.Columns.{AreColumnsOf};
ghost use Rattle.be_shape.specs.Common.{AreCommon};
ghost use Rattle.be_shape.specs.Lanes.{are_single};
ghost use Rattle.be_shape.specs.Leaves.{are_rows, rows_of_places};
ghost use Rattle.be_shape.specs.Listed.{attrs_of};
ghost use Rattle.std.specs.Arc.{arc_value};

use crate::columns::Columns;
use crate::large::{
    LARGE_ROWS, Large, arrange, guess, note_pulled, note_put, note_put_few, note_taken, told_of,
};
use crate::listings::RowAttrs;
use crate::places::Kept;
use crate::sights::Sight;
use crate::tallies::common_of;
use be_base::{AttrNo, Id};
use be_model::{Row, RowList, Schema};
use smallvec::SmallVec;
use std::alloc::Global;
use std::marker::Model;
use std::sync::Arc;

/// So many places are looked at together.
pub const BLOCK: usize = 32;

/// A place that a search chose.
#[derive(Clone, Copy)]
pub struct Choice {
    /// Counted from the first place of its block.
    pub at: u8,
    /// The event satisfies the row, which needn't be asked.
    pub sure: bool,
}

/// The places of a block that were chosen.
pub type Chosen = [Choice; BLOCK];

/// No place yet. A search fills its own in place.
pub const NONE_CHOSEN: Chosen = [Choice { at: 0, sure: false }; BLOCK];

/// Rows in some order. Up to 17 stand in place. The fields that a search reads before the rows stand before them.
#[derive(Drop)]
pub struct Leaf {
    count: usize,
    common: RowAttrs,
    places: SmallVec<Kept, 17>,
    large: Option<Box<Large>>,
}

impl Model for Leaf {
    ghost use Rattle.std.specs.Prelude.{List, ◌≡◌, true};
    ghost use Rattle.be_model.specs.declared.changes.Row.{Row};

    ghost Value = { List Row };

    ghost use Rattle.be_shape.specs.Leaves.{rows_of_places};
    ghost use Rattle.be_shape.specs.Common.{IsLeaf};

    ghost view = { λ l. rows_of_places l.places.items };

    ghost invariant = { λ l. IsLeaf l.count l.common l.places.items l.large };
}

/// What stands at a place, none of which is a blank.
pub(crate) fn kept_at(places: &[Kept], place: usize) -> &Kept
    requires rows { are_rows places.now ≡ true }
    requires within { place < length places.now }
    ensures at { slice_get (rows_of_places places.now) place ≡ result.now }
    ensures row { IsSome result.now }
{
    &places[place]
}

// Chooses among so many places from one on. Whether the event is of single values stands in `exact`: each call passes a constant, so
// that the loop doesn't ask.
#[inline(always)]
fn choose_among(
    places: &[Kept],
    from: usize,
    many: usize,
    exact: bool,
    e: &Sight,
    chosen: &mut Chosen,
) -> usize
    requires rows { are_rows places.now ≡ true }
    requires within { from + many ≤ length places.now }
    requires block { many ≤ 32 }
    requires exact { exact ≡ are_single e.now }
    ensures few { result ≤ 32 }
    ensures places { Covers e.now (rows_of_places places.now) from many (take result chosen.new) }
{
    let mut count = 0;
    for at in 0..many {
        let (may, sure) = kept_at(places, from + at).ask(exact, e);
        chosen[count] = Choice { at: at as u8, sure };
        count += usize::from(may);
    }
    count
}

impl Leaf {
    /// No rows. It takes no memory.
    pub fn make(alloc: Global) -> Leaf
        ensures { result ≡ [] }
    {
        Leaf {
            count: 0,
            common: RowAttrs::Zero,
            places: SmallVec::new(alloc),
            large: None,
        }
    }

    #[tactic(auto, using(crate::proofs::LeafRows::rows_length))]
    pub fn len(&self) -> usize
        ensures { result ≡ length self.now }
    {
        self.count
    }

    /// What stands at a place.
    #[tactic(auto, using(crate::proofs::LeafRows::rows_length))]
    pub fn kept(&self, place: usize) -> &Kept
        requires { place < length self.now }
        ensures at { slice_get self.now place ≡ result.now }
        ensures row { IsSome result.now }
    {
        kept_at(self.places.as_slice(), place)
    }

    /// The row at a place, from 0.
    pub fn row(&self, place: usize) -> &Arc<Row>
        requires { place < length self.now }
        ensures { slice_get self.now place ≡ Some (arc_value result.now) }
    {
        self.kept(place).row()
    }

    // The id of the row at a place. The row isn't looked at, but where its id is 2^24 - 1 or more.
    fn id(&self, place: usize) -> Id
        requires { place < length self.now }
        ensures { option_map id_of (slice_get self.now place) ≡ Some result.0 }
    {
        self.kept(place).id()
    }

    /// Notes in `chosen` at which of the `BLOCK` places from this one on the event may satisfy the row, and where it does for sure,
    /// and says how many these are. It passes over no row that the event satisfies. Which these are can't be foreseen, so there is
    /// no jump by a single one.
    pub fn choose(&self, from: usize, e: &Sight, chosen: &mut Chosen) -> usize
        requires { from ≤ length self.now }
        ensures few { result ≤ 32 }
        ensures places { Covers e.now self.now from 32 (take result chosen.new) }
    {
        // Neither changes here, so they are read once.
        let places = self.places.as_slice();
        let sight = e.again();
        let many = (self.len() - from).min(BLOCK);
        if sight.is_exact() {
            choose_among(places, from, many, true, &sight, chosen)
        } else {
            choose_among(places, from, many, false, &sight, chosen)
        }
    }

    /// What is told, column by column, of the rows of the block that begins at this place.
    pub fn columns(&self, from: usize) -> Option<&Columns>
        ensures { IfSome result (λ c. AreColumnsOf c.now (take 32 (drop from self.now))) }
    {
        if self.count < LARGE_ROWS {
            return None;
        }
        told_of(&self.large, from)
    }

    /// Now and then puts rows of a large leaf in the order of their bounds, so that more of them are told column by column. It does
    /// without where memory is wanting.
    pub fn arrange(&mut self)
        ensures { IsPermutation self.old self.new }
    {
        if LARGE_ROWS <= self.count {
            arrange(&mut self.large, self.places.as_mut_slice());
        }
    }

    /// The span on the attribute of the row at a place. A row whose attributes are told isn't looked at.
    pub fn span(&self, place: usize, s: &Schema, a: AttrNo) -> Option<(i64, i64)>
        requires place { place < length self.now }
        requires lies { option_map (row_lies s.now) (slice_get self.now place) ≡ Some true }
        ensures { option_map (λ row. span_in s.now a row.conj) (slice_get self.now place) ≡ Some result }
    {
        self.kept(place).span(s, a)
    }

    /// The attributes of the row at a place.
    pub fn attrs(&self, place: usize) -> RowAttrs
        requires { place < length self.now }
        ensures { option_map (λ row. attrs_of row.conj) (slice_get self.now place) ≡ Some result }
    {
        self.kept(place).attrs()
    }

    /// Whether the row at a place has a predicate on the attribute. The row is looked at only where its attributes aren't told.
    pub(crate) fn has_attr(&self, place: usize, a: AttrNo) -> bool
        requires { place < length self.now }
        ensures { option_map (λ row. has a row) (slice_get self.now place) ≡ Some result }
    {
        self.kept(place).has_attr(a)
    }

    /// The attributes that at least 8 rows have, with others perhaps, or `Many` where they aren't told.
    pub fn common(&self) -> RowAttrs
        ensures { AreCommon self.now result }
    {
        self.common
    }

    /// Looks which these attributes are. `put` and `take` forget them.
    pub fn note_common(&mut self)
        ensures { self.new ≡ self.old }
    {
        self.common = common_of(self);
    }

    // Whether the row stands at a place.
    fn has_at(&self, place: usize, row: &Row) -> bool
        requires { place < length self.now }
        ensures { IsTrue result ↔ (slice_get self.now place ≡ Some row.now) }
    {
        self.id(place).0 == row.id.0 && self.row(place).same_as(row)
    }

    /// Where the row stands. A row of another id isn't looked at, but where its id is 2^24 - 1 or more.
    pub fn place_of(&self, row: &Row) -> Option<usize>
        ensures found { IfSome result (λ place. slice_get self.now place ≡ Some row.now) }
        ensures none { IfNone result (Contains self.now row.now → ⊥) }
    {
        let guess = guess(&self.large, row.id);
        if guess < self.len() && self.has_at(guess, row) {
            return Some(guess);
        }
        for place in 0..self.len() {
            if self.has_at(place, row) {
                return Some(place);
            }
        }
        None
    }

    /// Takes the row at a place out. It takes no memory.
    #[tactic(auto, using(crate::proofs::LeafRows::rows_length))]
    pub fn take(&mut self, place: usize) -> Arc<Row>
        requires { place < length self.old }
        ensures row { slice_get self.old place ≡ Some (arc_value result) }
        ensures rest { self.new ≡ remove self.old place }
    {
        let row = self.places.remove(place).into_row();
        self.count = self.places.len();
        self.common = RowAttrs::Many;
        note_taken(&mut self.large, place);
        row
    }

    /// Takes the row at a place out. The order of the others may change. It takes no memory.
    #[tactic(auto, using(crate::proofs::LeafRows::rows_length))]
    pub fn pull(&mut self, place: usize) -> Arc<Row>
        requires { place < length self.old }
        ensures row { slice_get self.old place ≡ Some (arc_value result) }
        ensures rest { IsPermutation self.old (arc_value result ∷ self.new) }
    {
        let row = self.places.swap_remove(place).into_row();
        self.count = self.places.len();
        note_pulled(&mut self.large, self.places.as_slice(), place);
        row
    }

    /// Puts a row last, or hands it back where memory is wanting. Up to 17 rows take none.
    #[tactic(auto, using(crate::proofs::LeafRows::rows_length, crate::proofs::LeafRows::rows_put, crate::proofs::LeafRows::are_rows_put))]
    pub fn push(&mut self, row: Arc<Row>) -> Result<(), Arc<Row>>
        ensures put { OnOk result (self.new ≡ self.old ++ arc_value row ∷ []) }
        ensures small { length self.old < 17 → IsOk result }
        ensures refused { OnErr result (self.new ≡ self.old) }
        ensures back { IfErr result (λ r. arc_value r ≡ arc_value row) }
    {
        let _ = self.places.capacity();
        match self.places.reserve(1) {
            Ok(()) => {
                self.places.push_reserved(Kept::of(row));
                let alloc = *self.places.allocator();
                note_put(&mut self.large, alloc, self.places.as_slice());
                self.count = self.places.len();
                self.common = RowAttrs::Many;
                self.note_common();
                Ok(())
            }
            Err(_) => Err(row),
        }
    }

    /// Puts a row last. It takes no memory.
    #[tactic(auto, using(crate::proofs::LeafRows::rows_length, crate::proofs::LeafRows::rows_put, crate::proofs::LeafRows::are_rows_put))]
    pub fn put(&mut self, row: Arc<Row>)
        requires { length self.old < 17 }
        ensures { self.new ≡ self.old ++ arc_value row ∷ [] }
    {
        let _ = self.places.capacity();
        self.places.push_reserved(Kept::of(row));
        note_put_few(&mut self.large);
        self.count = self.places.len();
        self.common = RowAttrs::Many;
    }
}

impl RowList for Leaf {
    ghost rows = { λ l. l };

    fn len(&self) -> usize {
        Leaf::len(self)
    }

    fn row(&self, place: usize) -> &Arc<Row> {
        Leaf::row(self, place)
    }
}
