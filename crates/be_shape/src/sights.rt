//! An event as a search looks at it.

ghost use Rattle.std.specs.Prelude.{◌≡◌, ◌∷◌, ◌&&◌, [], true, Option, Some, List, ℤ, IfSome, option_map};
ghost use Rattle.be_model.specs.Forms.{attrs_rise};
ghost use Rattle.be_model.specs.Matching.{attrs_of, values_of, is_assigned};
ghost use Rattle.be_model.specs.Schemas.{numbered};
ghost use Rattle.be_shape.specs.Glances.{has_in};
ghost use Rattle.be_shape.specs.Lanes.{seen, is_single, are_single, lets_event};
ghost use Rattle.be_shape.specs.Ranges.{is_rising};
ghost use Rattle.be_shape.specs.Search.{holds_value};
ghost use Rattle.be_shape.specs.SetNotes.{passes_set};
ghost use Rattle.be_shape.specs.Sights.{IsSight};

use crate::glances::{Ends, GREATEST, has_in, is_in};
use crate::lanes::{LaneAttrs, LaneSlots, Slot, lets};
use crate::ranges::{NodeRange, holds_value};
use crate::small_sets::may_be;
use be_base::AttrNo;
use be_model::{Event, Values};
use std::marker::Model;

/// Of each attribute below this number a sight tells the value.
const SEEN: usize = 256;

/// By attribute, an event's only value, counted from the least number of 32 bits.
pub type Seen = [u32; SEEN];

/// Stands for no value.
const UNSET: u32 = u32::MAX;

/// Stands for several values, or for one beyond all that are counted.
const OTHER: u32 = 0;

/// Of no values. A search fills its own in place, so that they aren't copied.
pub const NOTHING_SEEN: Seen = [UNSET; SEEN];

/// An event, and by attribute its only value, so that most rows are passed over, and most halves entered or not, by a comparison
/// with one entry of a table.
#[derive(Drop)]
pub struct Sight<'a> {
    event: &'a Event,
    seen: &'a Seen,
    // Whether the event has single values alone, which the table tells.
    exact: bool,
}

impl<'a> Model for Sight<'a> {
    ghost use Rattle.std.specs.Prelude.{ℤ, List};
    ghost use Rattle.be_base.specs.declared.names.AttrNo.{AttrNo};

    ghost Value = { List (AttrNo × List ℤ) };

    ghost use Rattle.std.specs.Prelude.{◌≡◌};
    ghost use Rattle.be_shape.specs.Lanes.{are_single};
    ghost use Rattle.be_shape.specs.Sights.{IsSight};

    ghost view = { λ s. s.event.now };

    ghost invariant = { λ s. IsSight s.seen.now s.event.now × (s.exact ≡ are_single s.event.now) };
}

// What is seen of a value.
fn seen_of_one(v: i64) -> u32
    ensures { result ≡ seen (Some (v ∷ [])) }
{
    if (i32::MIN as i64) < v && v < GREATEST as i64 {
        (v + 2147483648) as u32
    } else {
        OTHER
    }
}

// What is seen of an attribute's values. Several aren't looked at.
#[tactic(auto, using(crate::proofs::SightValues::several_seen))]
fn seen_of(values: &Values) -> u32
    ensures { result ≡ seen (Some values.now) }
{
    match values.as_slice() {
        [v] => seen_of_one(*v),
        _ => OTHER,
    }
}

// Writes what is seen of the items.
fn fill(seen: &mut Seen, items: &[(AttrNo, Values)])
    requires none { seen.old ≡ NOTHING_SEEN }
    requires rise { attrs_rise (attrs_of items.now) ≡ true }
    ensures { IsSight seen.new items.now }
{
    for item in items {
        let a = usize::from(item.0.0);
        if a < SEEN {
            seen[a] = seen_of(&item.1);
        }
    }
}

// The value that is seen, or that there is none.
fn only_of(x: u32) -> Option<Option<i64>>
    ensures { (vs : Option (List ℤ)) → x ≡ seen vs → IfSome result (λ only. vs ≡ option_map (λ v. v ∷ []) only) }
{
    match x {
        UNSET => Some(None),
        OTHER => None,
        _ => Some(Some(x as i64 - 2147483648)),
    }
}

// Whether it is one number, strictly between the least and the greatest.
fn is_single(values: &Values) -> bool
    ensures { result ≡ is_single values.now }
{
    match values.as_slice() {
        [v] => (i32::MIN as i64) < *v && *v < GREATEST as i64,
        _ => false,
    }
}

// Whether each item has such a number.
fn are_single(items: &[(AttrNo, Values)]) -> bool
    ensures { result ≡ are_single items.now }
{
    items.iter().all(|item| is_single(&item.1))
}

/// Writes what is seen of the event's values.
pub fn fill_seen(seen: &mut Seen, e: &Event)
    requires { seen.old ≡ NOTHING_SEEN }
    ensures { IsSight seen.new e.now }
{
    fill(seen, e.items());
}

impl<'a> Sight<'a> {
    pub fn of(event: &'a Event, seen: &'a Seen) -> Sight<'a>
        requires { IsSight seen.now event.now }
        ensures { result ≡ event.now }
    {
        Sight {
            event,
            seen,
            exact: are_single(event.items()),
        }
    }

    /// The same once more. In a loop that writes, one of its own needn't be read again and again.
    pub(crate) fn again(&self) -> Sight<'a>
        ensures { result ≡ self.now }
    {
        Sight {
            event: self.event,
            seen: self.seen,
            exact: self.exact,
        }
    }

    /// Whether the event has single values alone, which the table tells.
    pub fn is_exact(&self) -> bool
        ensures { result ≡ are_single self.now }
    {
        self.exact
    }

    /// Whether what is seen of the attribute's values is in the slot.
    pub(crate) fn lets(&self, a: u8, slot: Slot) -> bool
        ensures { result ≡ lets_event self.now (a, slot) }
    {
        lets(self.seen[usize::from(a)], slot)
    }

    /// What is seen of the attribute's values.
    pub(crate) fn seen_of(&self, a: u8) -> u32
        ensures { result ≡ seen (values_of self.now (numbered a)) }
    {
        self.seen[usize::from(a)]
    }

    /// Whether the event passes the lanes. None is left out, since which of them says no can't be foreseen.
    pub(crate) fn passes(&self, attrs: LaneAttrs, slots: &LaneSlots) -> bool
        ensures { result ≡ (lets_event self.now (attrs.first, slots.now.first) && (lets_event self.now (attrs.second, slots.now.second) && lets_event self.now (attrs.third, slots.now.third))) }
    {
        let first = self.lets(attrs.first, slots.first);
        let second = self.lets(attrs.second, slots.second);
        let third = self.lets(attrs.third, slots.third);
        first & (second & third)
    }

    /// Whether what is seen of the attribute's values may be in the set whose ends are those of the slot, and of which `middle_of` is
    /// `middle`.
    pub(crate) fn may_be(&self, a: u8, slot: Slot, middle: u8) -> bool
        ensures { result ≡ passes_set self.now middle (a, slot) }
    {
        may_be(slot, middle, self.seen[usize::from(a)])
    }

    pub fn event(&self) -> &'a Event
        ensures { result.now ≡ self.now }
    {
        self.event
    }

    // The only value of an attribute, or that it has none, where the table says so.
    fn only_value(&self, a: AttrNo) -> Option<Option<i64>>
        ensures { IfSome result (λ only. values_of self.now a ≡ option_map (λ v. v ∷ []) only) }
    {
        if usize::from(a.0) < SEEN {
            only_of(self.seen[usize::from(a.0)])
        } else {
            None
        }
    }

    /// Whether the event has a value of the attribute between the ends.
    pub(crate) fn has_in(&self, ends: Ends, a: AttrNo) -> bool
        ensures { result ≡ has_in ends (values_of self.now a) }
    {
        match self.only_value(a) {
            Some(Some(v)) => is_in(ends, v),
            Some(None) => false,
            None => has_in(ends, a, self.event),
        }
    }

    /// Whether the event gives the attribute a value.
    pub fn assigns(&self, a: AttrNo) -> bool
        ensures { result ≡ is_assigned self.now a }
    {
        match self.only_value(a) {
            Some(only) => only.is_some(),
            None => self.event.values(a).is_some(),
        }
    }

    /// Whether the range holds at least one of the event's values of its attribute.
    #[inline(always)]
    #[tactic(auto, using(crate::proofs::SightValues::one_inside))]
    pub fn holds_value(&self, range: NodeRange) -> bool
        ensures value { result ≡ holds_value self.now range }
        // An empty range holds none.
        ensures rising { result ≡ true → is_rising range ≡ true }
    {
        match range {
            Some((a, ends)) => match self.only_value(a) {
                Some(Some(v)) => ends.0 <= v && v <= ends.1,
                Some(None) => false,
                None => self.asks(a, ends.0, ends.1),
            },
            None => false,
        }
    }

    // The same, by the event itself. It is given numbers, so that a range that isn't asked for needn't stand in memory.
    #[inline(never)]
    fn asks(&self, a: AttrNo, low: i64, high: i64) -> bool
        ensures value { result ≡ holds_value self.now (Some (a, (low, high))) }
        ensures rising { result ≡ true → is_rising (Some (a, (low, high))) ≡ true }
    {
        holds_value(Some((a, (low, high))), self.event)
    }
}
