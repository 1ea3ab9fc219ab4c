//! At most three tests of a row.

ghost use Rattle.std.specs.Prelude.{◌≡◌, ◌<◌, ◌+◌, ℕ, true, [], ◌∷◌, ◌++◌, length, nat_le, IfSome};
ghost use Rattle.be_model.specs.Forms.{IsConj};
ghost use Rattle.be_model.specs.Hulls.{span_in};
ghost use Rattle.be_model.specs.Lies.{conj_lies};
ghost use Rattle.be_model.specs.Matching.{Assignments, is_met, satisfies, values_of};
ghost use Rattle.be_model.specs.Rows.{has};
ghost use Rattle.be_model.specs.Schemas.{numbered};
ghost use Rattle.be_shape.specs.declared.small_sets.Told.TheVariants.{IsSet};
ghost use Rattle.be_shape.specs.FewTests.{few_told};
ghost use Rattle.be_shape.specs.Gaps.{IsOnlySet};
ghost use Rattle.be_shape.specs.Glances.{may_meet, test_on, is_whole, glance, glance_of};
ghost use Rattle.be_shape.specs.Listed.{attrs_told};
ghost use Rattle.be_shape.specs.Lanes.{are_single, AreFree, HoldLanes};
ghost use Rattle.be_shape.specs.SetNotes.{passes_set, passes_at, passes_note, LosesNone};
ghost use Rattle.be_shape.specs.Told.{extent_of};

use crate::gaps::gaps_of;
use crate::glances::{Ends, Extent, hull_in, small};
use crate::lanes::{FREE, LaneAttrs, LaneSlots, Slot, ends_of, numbered, slot_fits, slot_of};
use crate::listings::RowAttrs;
use crate::looks::has_attr;
use crate::sights::Sight;
use crate::small_sets::{Told, middle_of};
use crate::test_counts::Count;
use be_base::AttrNo;
use be_model::{Conj, Op, Pred, Row, Schema};
use std::marker::Model;

/// At most three tests, of attributes below 256, and three lanes, of which the first are of the tests.
#[derive(Drop)]
pub(crate) struct FewTests {
    count: Count,
    first_attr: u8,
    second_attr: u8,
    third_attr: u8,
    first: Slot,
    second: Slot,
    third: Slot,
}

impl Model for FewTests {
    ghost use Rattle.be_shape.specs.Lanes.{Few};

    ghost Value = { Few };

    ghost use Rattle.be_shape.specs.FewTests.{few_of};

    ghost view = { λ t. few_of t.count (t.first_attr, t.first) (t.second_attr, t.second) (t.third_attr, t.third) };
}

// Whether a lane of a number of an attribute and of a slot has these.
fn is_lane(number: u8, lane: Slot, a: u8, slot: Slot) -> bool
    ensures attr { result ≡ true → number ≡ a }
    ensures slot { result ≡ true → lane ≡ slot }
{
    number == a && lane.0 == slot.0 && lane.1 == slot.1
}

impl FewTests {
    pub(crate) fn none() -> FewTests
        ensures tests { result.tests ≡ [] }
        ensures free { AreFree result }
    {
        FewTests {
            count: Count::Zero,
            first_attr: 0,
            second_attr: 0,
            third_attr: 0,
            first: FREE,
            second: FREE,
            third: FREE,
        }
    }

    pub(crate) fn is_full(&self) -> bool
        ensures { result ≡ nat_le 3 (length self.now.tests) }
    {
        self.count.has_third()
    }

    /// Whether there is room for so many tests more.
    pub(crate) fn has_room(&self, wanted: usize) -> bool
        ensures { result ≡ nat_le (length self.now.tests + wanted) 3 }
    {
        self.count.has_room(wanted)
    }

    /// With a test more, behind the others.
    pub(crate) fn with(self, a: u8, ends: Ends) -> FewTests
        requires room { length self.tests < 3 }
        requires free { AreFree self }
        ensures tests { result.tests ≡ self.tests ++ (numbered a, ends) ∷ [] }
        ensures free { AreFree result }
    {
        let slot = slot_of(ends);
        match self.count {
            Count::Zero => FewTests {
                count: Count::One,
                first_attr: a,
                first: slot,
                ..self
            },
            Count::One => FewTests {
                count: Count::Two,
                second_attr: a,
                second: slot,
                ..self
            },
            Count::Two => FewTests {
                count: Count::Three,
                third_attr: a,
                third: slot,
                ..self
            },
            Count::Three => unreachable!(),
        }
    }

    /// With what is told, as a place has it.
    pub(crate) fn settled(self, told: Told, conj: &Conj) -> (Told, FewTests)
        requires told { glance self.tests (extent_of told) ≡ glance_of conj.now }
        requires form { IsConj conj.now }
        requires free { AreFree self }
        requires plain { told ≡ IsSet → ⊥ }
        ensures tests { result.1.tests ≡ self.tests }
        ensures extent { extent_of result.0 ≡ extent_of told }
        ensures lanes { HoldLanes conj.now result.0 result.1 }
        ensures counted { result.1 ≡ few_told result.0 result.1.first result.1.second result.1.third }
    {
        slot_fits(self.first);
        slot_fits(self.second);
        slot_fits(self.third);
        match self.gaps(told, conj) {
            Some((second, third)) => (
                Told::IsSet,
                FewTests {
                    second_attr: self.first_attr,
                    third_attr: self.first_attr,
                    second,
                    third,
                    ..self
                },
            ),
            None => (told, self),
        }
    }

    /// The lanes.
    pub(crate) fn lanes(&self) -> (LaneAttrs, LaneSlots)
        ensures first { self.now.first ≡ (result.0.first, result.1.first) }
        ensures second { self.now.second ≡ (result.0.second, result.1.second) }
        ensures third { self.now.third ≡ (result.0.third, result.1.third) }
    {
        let attrs = LaneAttrs {
            first: self.first_attr,
            second: self.second_attr,
            third: self.third_attr,
        };
        let slots = LaneSlots {
            first: self.first,
            second: self.second,
            third: self.third,
        };
        (attrs, slots)
    }

    /// What a place has in its lanes.
    pub(crate) fn told(told: Told, attrs: LaneAttrs, slots: LaneSlots) -> FewTests
        ensures { result ≡ few_told told (attrs.first, slots.first) (attrs.second, slots.second) (attrs.third, slots.third) }
    {
        FewTests {
            count: Count::told(told, slots),
            first_attr: attrs.first,
            second_attr: attrs.second,
            third_attr: attrs.third,
            first: slots.first,
            second: slots.second,
            third: slots.third,
        }
    }

    // The gaps of a small set, where that is all of the condition.
    fn gaps(&self, told: Told, conj: &Conj) -> Option<(Slot, Slot)>
        ensures { IfSome result (λ gaps. IsOnlySet conj.now told self.now gaps) }
    {
        if !told.is_few() {
            return None;
        }
        if !self.count.is_one() {
            return None;
        }
        slot_fits(self.first);
        match conj.preds() {
            [pred] => gaps_of(pred, self.first_attr, ends_of(self.first)),
            _ => None,
        }
    }

    // Which lane, counted from one, has this attribute and this slot.
    fn lane_of(&self, a: u8, slot: Slot) -> Option<u8>
        ensures low { IfSome result (λ at. at < 4) }
        ensures passes { IfSome result (λ at. (e : Assignments) (m : ℕ) → passes_set e m (a, slot) ≡ true → passes_at at m self.now e ≡ true) }
    {
        if is_lane(self.first_attr, self.first, a, slot) {
            Some(1)
        } else if is_lane(self.second_attr, self.second, a, slot) {
            Some(2)
        } else if is_lane(self.third_attr, self.third, a, slot) {
            Some(3)
        } else {
            None
        }
    }

    // What is told where the predicate is of a small set, and a lane is of it.
    fn set_told(&self, pred: &Pred) -> Option<u8>
        ensures { IfSome result (λ set_note. (e : Assignments) → are_single e ≡ true → is_met (values_of e pred.now.attr) pred.now.op ≡ true → passes_note set_note self.now e ≡ true) }
    {
        let Op::OneOf(xs) = &pred.op else {
            return None;
        };
        if 256 <= pred.attr.0 {
            return None;
        }
        let (low, high) = xs.ends();
        let ends = (small(low)?, small(high)?);
        let middle = middle_of(xs)?;
        let at = self.lane_of(pred.attr.0 as u8, slot_of(ends))?;
        Some(at * 64 + middle)
    }

    /// The set note: what is told of the first small set of the condition that a lane is of, and 0 where there is none.
    pub(crate) fn set_among(&self, conj: &Conj) -> u8
        ensures { LosesNone conj.now result self.now }
    {
        for pred in conj.preds() {
            if let Some(set_note) = self.set_told(pred) {
                return set_note;
            }
        }
        0
    }

    // Whether the event passes.
    fn may_meet(&self, e: &Sight) -> bool
        ensures { result ≡ may_meet e.now self.now.tests }
    {
        (!self.count.has_first() || e.has_in(ends_of(self.first), numbered(self.first_attr)))
            && (!self.count.has_second()
                || e.has_in(ends_of(self.second), numbered(self.second_attr)))
            && (!self.count.has_third() || e.has_in(ends_of(self.third), numbered(self.third_attr)))
    }

    /// Whether the event satisfies the condition of which this is told, by its own values.
    pub(crate) fn is_met_by_values(&self, extent: Extent, conj: &Conj, e: &Sight) -> bool
        requires told { glance self.now.tests extent ≡ glance_of conj.now }
        requires form { IsConj conj.now }
        ensures { result ≡ satisfies e.now conj.now }
    {
        if extent.is_whole() {
            self.may_meet(e)
        } else {
            conj.satisfied_by(e.event())
        }
    }

    /// The ends of the test on the attribute.
    pub(crate) fn on(&self, a: AttrNo) -> Option<Ends>
        ensures { result ≡ test_on a self.now.tests }
    {
        if self.count.has_first() && u16::from(self.first_attr) == a.0 {
            Some(ends_of(self.first))
        } else if self.count.has_second() && u16::from(self.second_attr) == a.0 {
            Some(ends_of(self.second))
        } else if self.count.has_third() && u16::from(self.third_attr) == a.0 {
            Some(ends_of(self.third))
        } else {
            None
        }
    }

    /// The hull of the first predicate on the attribute, of the condition of which this is told.
    pub(crate) fn span(
        &self,
        extent: Extent,
        conj: &Conj,
        s: &Schema,
        a: AttrNo,
    ) -> Option<(i64, i64)>
        requires told { glance self.now.tests extent ≡ glance_of conj.now }
        requires form { IsConj conj.now }
        requires lies { conj_lies s.now conj.now ≡ true }
        ensures { result ≡ span_in s.now a conj.now }
    {
        if let Some(ends) = self.on(a) {
            return Some(hull_in(s.range(a)?, ends));
        }
        if extent.is_part() {
            conj.span(s, a)
        } else {
            None
        }
    }

    /// Whether the row of which this is told has a predicate on the attribute.
    pub(crate) fn has_attr(&self, extent: Extent, row: &Row, a: AttrNo) -> bool
        requires { glance self.now.tests extent ≡ glance_of row.now.conj }
        ensures { result ≡ has a row.now }
    {
        self.on(a).is_some() || (extent.is_part() && has_attr(row, a))
    }

    /// The attributes that are told.
    pub(crate) fn attrs(&self, extent: Extent) -> RowAttrs
        ensures { result ≡ attrs_told (glance self.now.tests extent) }
    {
        if extent.is_part() {
            return RowAttrs::Many;
        }
        match self.count {
            Count::Zero => RowAttrs::Zero,
            Count::One => RowAttrs::One(self.first_attr),
            Count::Two => RowAttrs::Two(self.first_attr, self.second_attr),
            Count::Three => { RowAttrs::Three(self.first_attr, self.second_attr, self.third_attr) }
        }
    }
}
