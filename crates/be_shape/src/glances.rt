//! What is told of a row without a look at it: at most three tests, and how much of its meaning these are.

ghost use Rattle.std.specs.Prelude.{◌≡◌, ◌||◌, ◌<◌, ◌∷◌, ◌++◌, true, int_le, nat_le, length, if◌then◌else◌};
ghost use Rattle.std.specs.List.{list_any};
ghost use Rattle.std.specs.Ordering.{int_eq};
ghost use Rattle.be_model.specs.declared.ops.Op.{Op};
ghost use Rattle.be_model.specs.Forms.{IsConj};
ghost use Rattle.be_model.specs.Matching.{values_of};
ghost use Rattle.be_shape.specs.Glances.{least, greatest, is_in, has_in, small, bounds_of, is_whole, is_part, glance, with_extent, with_test, with_bounds, with_pred, glance_of, hull_low, hull_high, hull_in};
ghost use Rattle.be_shape.specs.declared.small_sets.Told.TheVariants.{IsSet};
ghost use Rattle.be_shape.specs.Told.{extent_of};

use crate::few_tests::FewTests;
use crate::small_sets::Told;
use crate::widths::{Narrowest, further_bounds};
use be_base::AttrNo;
use be_model::{Conj, Event, Op, Pred, Values};
use std::marker::Model;

/// The least and the greatest number that are allowed. The least number of 32 bits and `GREATEST` stand for no bound.
pub(crate) type Ends = (i32, i32);

/// The last number of 32 bits but one. In a sight the last stands for no value.
pub(crate) const GREATEST: i32 = 2147483646;

/// Beyond its ends a comparison holds of nothing.
#[derive(Clone, Copy)]
pub(crate) struct Bounds {
    pub(crate) ends: Ends,
    /// The comparison holds of all between the ends.
    exact: bool,
}

/// How much of a row its tests are.
#[derive(Clone, Copy)]
pub(crate) enum Extent {
    /// All: an event that passes them satisfies the row.
    Whole,
    /// They are on all its attributes.
    Few,
    /// There may be attributes with no test.
    Part,
}

/// At most three tests of a row, the first on an attribute of its first predicate there.
#[derive(Drop)]
pub(crate) struct Glance {
    pub(crate) tests: FewTests,
    pub(crate) extent: Extent,
}

/// The number, where it is strictly between the least and the greatest.
pub(crate) fn small(v: i64) -> Option<i32>
    ensures { result ≡ small v }
{
    if (i32::MIN as i64) < v && v < GREATEST as i64 {
        Some(v as i32)
    } else {
        None
    }
}

/// The bounds that a comparison gives.
pub(crate) fn bounds_of(op: &Op) -> Option<Bounds>
    ensures { result ≡ bounds_of op.now }
{
    match op {
        Op::Lt(x) => Some(Bounds::to(small(*x)? - 1)),
        Op::Le(x) => Some(Bounds::to(small(*x)?)),
        Op::Eq(x) => {
            let v = small(*x)?;
            Some(Bounds::exactly((v, v)))
        }
        Op::Ne(_) => Some(Bounds::widest()),
        Op::Ge(x) => Some(Bounds::from(small(*x)?)),
        Op::Gt(x) => Some(Bounds::from(small(*x)? + 1)),
        Op::Between(x, y) => Some(Bounds::between(small(*x)?, small(*y)?)),
        Op::OneOf(xs) => bounds_of_set(xs),
        Op::NoneOf(_) => Some(Bounds::widest()),
    }
}

fn bounds_of_set(xs: &Values) -> Option<Bounds>
    ensures { result ≡ bounds_of (Op.OneOf xs.now) }
{
    let (low, high) = xs.ends();
    Some(Bounds {
        ends: (small(low)?, small(high)?),
        exact: false,
    })
}

fn hull_low(d: (i64, i64), low: i32) -> i64
    ensures { result ≡ hull_low d low }
{
    if low == i32::MIN {
        d.0
    } else {
        d.1.min(low as i64)
    }
}

fn hull_high(d: (i64, i64), high: i32) -> i64
    ensures { result ≡ hull_high d high }
{
    if high == GREATEST { d.1 } else { high as i64 }
}

/// The hull that a test stands for, over a domain.
pub(crate) fn hull_in(d: (i64, i64), ends: Ends) -> (i64, i64)
    ensures { result ≡ hull_in d ends }
{
    let low = hull_low(d, ends.0);
    (low, low.max(hull_high(d, ends.1)))
}

impl Bounds {
    ghost use Rattle.std.specs.Prelude.{true, false};
    ghost use Rattle.be_shape.specs.Glances.{bounds};

    fn exactly(ends: Ends) -> Bounds
        ensures { result ≡ bounds ends.0 ends.1 true }
    {
        Bounds { ends, exact: true }
    }

    // Of turned ends nothing is between them, and a lane would take them for all beyond.
    fn between(low: i32, high: i32) -> Bounds
        ensures { result ≡ bounds low high (int_le low high) }
    {
        Bounds {
            ends: (low, high),
            exact: low <= high,
        }
    }

    fn to(high: i32) -> Bounds
        ensures { result ≡ bounds least high true }
    {
        Bounds::exactly((i32::MIN, high))
    }

    fn from(low: i32) -> Bounds
        ensures { result ≡ bounds low greatest true }
    {
        Bounds::exactly((low, GREATEST))
    }

    // An event must have a value, and that may be any.
    fn widest() -> Bounds
        ensures { result ≡ bounds least greatest false }
    {
        Bounds {
            ends: (i32::MIN, GREATEST),
            exact: false,
        }
    }
}

fn is_from(low: i32, v: i64) -> bool
    ensures { result ≡ (int_eq low least || int_le low v) }
{
    low == i32::MIN || low as i64 <= v
}

fn is_to(high: i32, v: i64) -> bool
    ensures { result ≡ (int_eq high greatest || int_le v high) }
{
    high == GREATEST || v <= high as i64
}

/// Whether the number is between the ends.
pub(crate) fn is_in(ends: Ends, v: i64) -> bool
    ensures { result ≡ is_in ends v }
{
    is_from(ends.0, v) && is_to(ends.1, v)
}

fn any_is_in(ends: Ends, values: &Values) -> bool
    ensures { result ≡ list_any (is_in ends) values.now }
{
    values.as_slice().iter().any(|v| is_in(ends, *v))
}

/// Whether the event has a value of the attribute between the ends.
pub(crate) fn has_in(ends: Ends, a: AttrNo, e: &Event) -> bool
    ensures { result ≡ has_in ends (values_of e.now a) }
{
    match e.values(a) {
        Some(values) => any_is_in(ends, values),
        None => false,
    }
}

impl Extent {
    pub(crate) fn is_whole(self) -> bool
        ensures { result ≡ is_whole self }
    {
        matches!(self, Extent::Whole)
    }

    pub(crate) fn is_part(self) -> bool
        ensures { result ≡ is_part self }
    {
        matches!(self, Extent::Part)
    }
}

impl Model for Glance {
    ghost use Rattle.be_shape.specs.Glances.{Glance};

    ghost Value = { Glance };

    ghost use Rattle.be_shape.specs.Lanes.{AreFree};

    ghost view = { λ g. record { tests = g.tests.tests; extent = g.extent } };

    ghost invariant = { λ g. AreFree g.tests };
}

impl Glance {
    ghost use Rattle.std.specs.Prelude.{[]};
    ghost use Rattle.be_shape.specs.declared.glances.Extent.TheVariants.{Whole, Few};

    // Of the condition of no predicate.
    fn of_none() -> Glance
        ensures { result ≡ glance [] Whole }
    {
        Glance {
            tests: FewTests::none(),
            extent: Extent::Whole,
        }
    }

    // With the same tests and this extent. Where there may be attributes with no test, that stays so.
    fn with_extent(self, extent: Extent) -> Glance
        ensures { result ≡ with_extent extent self }
    {
        if self.extent.is_part() {
            self
        } else {
            Glance {
                tests: self.tests,
                extent,
            }
        }
    }

    fn lacks_room(&self, a: AttrNo) -> bool
        ensures { result ≡ (nat_le 256 a.0 || nat_le 3 (length self.now.tests)) }
    {
        256 <= a.0 || self.tests.is_full()
    }

    fn extent_with(&self, b: Bounds) -> Extent
        ensures { result ≡ (if b.exact || is_part self.now.extent then self.now.extent else Few) }
    {
        if b.exact || self.extent.is_part() {
            self.extent
        } else {
            Extent::Few
        }
    }

    // With a test more, for which there is room.
    fn with_one(self, a: AttrNo, b: Bounds) -> Glance
        requires low { a.0 < 256 }
        requires room { length self.tests < 3 }
        ensures { result ≡ glance (self.tests ++ (a, b.ends) ∷ []) (if b.exact || is_part self.extent then self.extent else Few) }
    {
        let extent = self.extent_with(b);
        Glance {
            tests: self.tests.with(a.0 as u8, b.ends),
            extent,
        }
    }

    // With a test more, or of this extent where there is no room.
    fn with_test(self, extent: Extent, a: AttrNo, b: Bounds) -> Glance
        ensures { result ≡ with_test extent a b self }
    {
        if self.lacks_room(a) {
            self.with_extent(extent)
        } else {
            self.with_one(a, b)
        }
    }

    fn with_bounds(self, extent: Extent, a: AttrNo, bounds: Option<Bounds>) -> Glance
        ensures { result ≡ with_bounds extent a bounds self }
    {
        match bounds {
            Some(b) => self.with_test(extent, a, b),
            None => self.with_extent(extent),
        }
    }

    fn with_pred(self, narrowest: Narrowest, few: bool, before: &[Pred], pred: &Pred) -> Glance
        ensures { result ≡ with_pred narrowest few before.now pred.now self }
    {
        if self.tests.on(pred.attr).is_some() {
            self.with_bounds(Extent::Few, pred.attr, further_bounds(few, pred))
        } else {
            self.with_bounds(Extent::Part, pred.attr, narrowest.bounds(before, pred))
        }
    }

    /// What is told of a condition.
    pub(crate) fn of(conj: &Conj) -> Glance
        ensures told { result ≡ glance_of conj.now }
        ensures form { IsConj conj.now }
    {
        let preds = conj.preds();
        let narrowest = Narrowest::of(preds);
        let mut glance = Glance::of_none();
        for at in 0..preds.len() {
            let few = glance.tests.has_room(preds.len() - at);
            glance = glance.with_pred(narrowest, few, &preds[..at], &preds[at]);
        }
        glance
    }

    /// What is told by the extent alone.
    pub(crate) fn told(&self) -> Told
        ensures extent { extent_of result ≡ self.now.extent }
        ensures plain { result ≡ IsSet → ⊥ }
    {
        match self.extent {
            Extent::Whole => Told::AsWhole,
            Extent::Few => Told::AsFew,
            Extent::Part => Told::AsPart,
        }
    }
}
