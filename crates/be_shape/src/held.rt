//! What a place of a leaf has.

ghost use Rattle.std.specs.Prelude.{◌≡◌, ◌↔◌, ◌≤◌, ◌/◌, ◌%◌, true, false, List, Some, IsSome, IfSome};
ghost use Rattle.std.specs.Arc.{arc_value};
ghost use Rattle.be_model.specs.declared.preds.Pred.{Pred};
ghost use Rattle.be_model.specs.declared.changes.Row.{Row};
ghost use Rattle.be_model.specs.Matching.{Assignments, satisfies};
ghost use Rattle.be_model.specs.Rows.{id_of};
ghost use Rattle.be_shape.specs.declared.small_sets.Told.{Told};
ghost use Rattle.be_shape.specs.Columns.{MeansSlots, passes_on};
ghost use Rattle.be_shape.specs.FewTests.{few_told};
ghost use Rattle.be_shape.specs.Held.{short_id, row_of, note_of, short_of, set_note_of, told_of, few_in, few_with, IsToldIn};
ghost use Rattle.be_shape.specs.Lanes.{lets_event, passes_lanes, are_single, HoldLanes};
ghost use Rattle.be_shape.specs.SetNotes.{passes_note};

use crate::few_tests::FewTests;
use crate::lanes::{LaneAttrs, LaneSlots, Slot, is_free, lane_at};
use crate::orders::{LAST, Order, order_of};
use crate::sights::Sight;
use crate::small_sets::Told;
use be_base::Id;
use be_model::Row;
use std::sync::Arc;

/// Stands for an id that 24 bits don't tell.
pub(crate) const WIDE: u32 = 16777215;

/// What a place has: a blank, or a row with its id, its set note and its lanes. The id takes 24 bits of `note`, and the set note 8.
/// How much of the row the lanes are is told by the variant: so, and with the fields in this order, a place takes 40 bytes.
#[derive(Drop)]
pub(crate) enum Held {
    Blank,
    ToldWhole {
        attrs: LaneAttrs,
        note: u32,
        slots: LaneSlots,
        row: Arc<Row>,
    },
    ToldSet {
        attrs: LaneAttrs,
        note: u32,
        slots: LaneSlots,
        row: Arc<Row>,
    },
    ToldFew {
        attrs: LaneAttrs,
        note: u32,
        slots: LaneSlots,
        row: Arc<Row>,
    },
    ToldPart {
        attrs: LaneAttrs,
        note: u32,
        slots: LaneSlots,
        row: Arc<Row>,
    },
}

const _: () = prove!(size_of::<Held>() == 40);

// The id as a place has it.
fn short_id(id: Id) -> u32
    ensures id { result ≡ short_id id.0 }
    ensures fits { result ≤ 16777215 }
{
    if id.0 < WIDE as u64 {
        id.0 as u32
    } else {
        WIDE
    }
}

// The id and the set note in one number.
fn note_of(id: Id, set_note: u8) -> u32
    ensures short { result / 256 ≡ short_id id.0 }
    ensures set { result % 256 ≡ set_note }
{
    short_id(id) * 256 + u32::from(set_note)
}

// Whether the lane is of the attribute, or free, since a free one says the same of each attribute.
fn is_on(a: u8, lane: u8, slot: Slot) -> bool
    ensures { (e : Assignments) → result ≡ true → lets_event e (lane, slot) ≡ lets_event e (a, slot) }
{
    lane == a || is_free(slot)
}

// Whether each lane is so.
fn are_on(a: u8, attrs: LaneAttrs, slots: &LaneSlots) -> bool
    ensures { (e : Assignments) (told : Told) → result ≡ true → passes_lanes e (few_with told attrs slots.now) ≡ passes_on e a slots.now }
{
    is_on(a, attrs.first, slots.first)
        && is_on(a, attrs.second, slots.second)
        && is_on(a, attrs.third, slots.third)
}

impl Held {
    /// A row, and what is told of it.
    pub(crate) fn of(told: Told, set_note: u8, tests: FewTests, row: Arc<Row>) -> Held
        requires { tests ≡ few_told told tests.first tests.second tests.third }
        ensures row { row_of result ≡ Some (arc_value row) }
        ensures short { short_of result ≡ short_id (id_of (arc_value row)) }
        ensures set { set_note_of result ≡ set_note }
        ensures told { told_of result ≡ told }
        ensures few { few_in result ≡ tests }
    {
        let (attrs, slots) = tests.lanes();
        let note = note_of(row.id, set_note);
        match told {
            Told::AsWhole => Held::ToldWhole {
                attrs,
                note,
                slots,
                row,
            },
            Told::IsSet => Held::ToldSet {
                attrs,
                note,
                slots,
                row,
            },
            Told::AsFew => Held::ToldFew {
                attrs,
                note,
                slots,
                row,
            },
            Told::AsPart => Held::ToldPart {
                attrs,
                note,
                slots,
                row,
            },
        }
    }

    pub(crate) fn into_row(self) -> Arc<Row>
        requires { IsSome (row_of self) }
        ensures { row_of self ≡ Some (arc_value result) }
    {
        match self {
            Held::ToldWhole { row, .. } => row,
            Held::ToldSet { row, .. } => row,
            Held::ToldFew { row, .. } => row,
            Held::ToldPart { row, .. } => row,
            Held::Blank => unreachable!(),
        }
    }

    pub(crate) fn row(&self) -> &Arc<Row>
        requires { IsSome (row_of self.now) }
        ensures { row_of self.now ≡ Some (arc_value result.now) }
    {
        match self {
            Held::ToldWhole { row, .. } => row,
            Held::ToldSet { row, .. } => row,
            Held::ToldFew { row, .. } => row,
            Held::ToldPart { row, .. } => row,
            Held::Blank => unreachable!(),
        }
    }

    // All variants have it at one place, so this needs no jump.
    fn note(&self) -> u32
        requires { IsSome (row_of self.now) }
        ensures { result ≡ note_of self.now }
    {
        match self {
            Held::ToldWhole { note, .. } => *note,
            Held::ToldSet { note, .. } => *note,
            Held::ToldFew { note, .. } => *note,
            Held::ToldPart { note, .. } => *note,
            Held::Blank => unreachable!(),
        }
    }

    /// The row's id, or `WIDE` where it isn't told.
    pub(crate) fn short(&self) -> u32
        requires { IsSome (row_of self.now) }
        ensures { result ≡ short_of self.now }
    {
        self.note() / 256
    }

    // Which lane is of a small set, and the lower bits of the set's middle number, or of its first where it has fewer than three.
    fn set_note(&self) -> u8
        requires { IsSome (row_of self.now) }
        ensures { result ≡ set_note_of self.now }
    {
        (self.note() % 256) as u8
    }

    pub(crate) fn told(&self) -> Told
        requires { IsSome (row_of self.now) }
        ensures { result ≡ told_of self.now }
    {
        match self {
            Held::ToldWhole { .. } => Told::AsWhole,
            Held::ToldSet { .. } => Told::IsSet,
            Held::ToldFew { .. } => Told::AsFew,
            Held::ToldPart { .. } => Told::AsPart,
            Held::Blank => unreachable!(),
        }
    }

    // All variants have their lanes at one place, so this needs no jump.
    fn lanes(&self) -> (&LaneAttrs, &LaneSlots)
        requires { IsSome (row_of self.now) }
        ensures { few_in self.now ≡ few_with (told_of self.now) result.0.now result.1.now }
    {
        match self {
            Held::ToldWhole { attrs, slots, .. } => (attrs, slots),
            Held::ToldSet { attrs, slots, .. } => (attrs, slots),
            Held::ToldFew { attrs, slots, .. } => (attrs, slots),
            Held::ToldPart { attrs, slots, .. } => (attrs, slots),
            Held::Blank => unreachable!(),
        }
    }

    /// The tests that the lanes are of.
    pub(crate) fn tests(&self) -> FewTests
        requires { IsSome (row_of self.now) }
        ensures { result ≡ few_in self.now }
    {
        let (attrs, slots) = self.lanes();
        FewTests::told(self.told(), *attrs, *slots)
    }

    // Whether an event of single values passes the lanes.
    fn passes(&self, e: &Sight) -> bool
        requires { IsSome (row_of self.now) }
        ensures { result ≡ passes_lanes e.now (few_in self.now) }
    {
        let (attrs, slots) = self.lanes();
        e.passes(*attrs, slots)
    }

    /// Whether the event, of single values, may have a number of the small set of which the set note tells. Where it tells of none,
    /// nothing is asked.
    pub(crate) fn may_have_set(&self, e: &Sight) -> bool
        requires { IsSome (row_of self.now) }
        ensures { result ≡ passes_note (set_note_of self.now) (few_in self.now) e.now }
    {
        let set_note = self.set_note();
        let at = set_note / 64;
        let (attrs, slots) = self.lanes();
        let (a, slot) = lane_at(at, *attrs, *slots);
        at == 0 || e.may_be(a, slot, set_note % 64)
    }

    /// Whether it has no row.
    pub(crate) fn is_blank(&self) -> bool
        ensures { (result ≡ false) ↔ IsSome (row_of self.now) }
    {
        match self {
            Held::Blank => true,
            Held::ToldWhole { .. } => false,
            Held::ToldSet { .. } => false,
            Held::ToldFew { .. } => false,
            Held::ToldPart { .. } => false,
        }
    }

    /// By the lanes, whether the event may satisfy the condition, and whether it then does for sure. Of an event that isn't of
    /// single values they say nothing. Which it is stands in `exact`, so that a search asks it once a block.
    pub(crate) fn ask(&self, exact: bool, e: &Sight) -> (bool, bool)
        requires row { IsSome (row_of self.now) }
        requires exact { exact ≡ are_single e.now }
        ensures may { (conj : List Pred) → HoldLanes conj (told_of self.now) (few_in self.now) → satisfies e.now conj ≡ true → result.0 ≡ true }
        ensures sure { (conj : List Pred) → HoldLanes conj (told_of self.now) (few_in self.now) → result.0 ≡ true → result.1 ≡ true → satisfies e.now conj ≡ true }
    {
        if exact {
            (self.passes(e), self.told().is_sure())
        } else {
            (true, false)
        }
    }

    /// The attribute of the first lane.
    pub(crate) fn first_attr(&self) -> u8
        requires { IsSome (row_of self.now) }
        ensures { result ≡ (few_in self.now).first.0 }
    {
        self.lanes().0.first
    }

    /// The row's slots of the attribute, where the lanes, all of the attribute, are the row's whole meaning.
    pub(crate) fn slots_on(&self, a: u8) -> Option<LaneSlots>
        requires { IsSome (row_of self.now) }
        ensures { (row : Row) → IsToldIn self.now → row_of self.now ≡ Some row → IfSome result (λ slots. MeansSlots a slots row) }
    {
        let (attrs, slots) = self.lanes();
        if self.told().is_sure() && are_on(a, *attrs, slots) {
            Some(*slots)
        } else {
            None
        }
    }

    /// Where it stands among the rows of a large leaf that are put in order.
    pub(crate) fn order(&self) -> Order {
        if self.is_blank() {
            LAST
        } else {
            let (attrs, slots) = self.lanes();
            order_of(self.told().is_sure(), *attrs, *slots)
        }
    }
}
