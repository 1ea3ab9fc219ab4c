//! Comparisons with values.

ghost use Rattle.std.specs.Prelude.{◌≡◌, true};
ghost use Rattle.be_model.specs.Forms.{OpForm};
ghost use Rattle.be_model.specs.Hulls.{hull};
ghost use Rattle.be_model.specs.Lies.{values_in, lies_within};
ghost use Rattle.be_model.specs.Matching.{holds, meets};

use crate::values::{Values, is_inside};

/// A comparison with values.
#[derive(Drop)]
pub enum Op {
    Lt(i64),
    Le(i64),
    Eq(i64),
    Ne(i64),
    Ge(i64),
    Gt(i64),
    /// From the first to the second, both included. It holds of nothing where they are turned.
    Between(i64, i64),
    OneOf(Values),
    NoneOf(Values),
}

impl Op {
    /// Whether a value meets the comparison.
    pub fn holds(&self, v: i64) -> bool
        ensures { result ≡ holds self.now v }
    {
        match self {
            Op::Lt(x) => v < *x,
            Op::Le(x) => v <= *x,
            Op::Eq(x) => v == *x,
            Op::Ne(x) => v != *x,
            Op::Ge(x) => *x <= v,
            Op::Gt(x) => *x < v,
            Op::Between(x, y) => *x <= v && v <= *y,
            Op::OneOf(xs) => xs.has(v),
            Op::NoneOf(xs) => !xs.has(v),
        }
    }

    /// Whether at least one of the values meets the comparison.
    pub fn meets(&self, vs: &Values) -> bool
        ensures { result ≡ meets self.now vs.now }
    {
        match vs.as_slice() {
            [v] => self.holds(*v),
            _ => self.meets_many(vs),
        }
    }

    // The same, where there may be many values.
    fn meets_many(&self, vs: &Values) -> bool
        ensures { result ≡ meets self.now vs.now }
    {
        match self {
            Op::OneOf(xs) => xs.has_some(vs),
            Op::NoneOf(xs) => xs.lacks_some(vs),
            _ => vs.as_slice().iter().any(|v| self.holds(*v)),
        }
    }

    /// Whether each value of the comparison is in the range.
    pub fn lies(&self, range: (i64, i64)) -> bool
        ensures lies { result ≡ lies_within range (values_in self.now) }
        ensures form { OpForm self.now }
    {
        match self {
            Op::Lt(x) => is_inside(range, *x),
            Op::Le(x) => is_inside(range, *x),
            Op::Eq(x) => is_inside(range, *x),
            Op::Ne(x) => is_inside(range, *x),
            Op::Ge(x) => is_inside(range, *x),
            Op::Gt(x) => is_inside(range, *x),
            Op::Between(x, y) => is_inside(range, *x) && is_inside(range, *y),
            Op::OneOf(xs) => xs.are_within(range),
            Op::NoneOf(xs) => xs.are_within(range),
        }
    }

    // The hull over a domain of this range.
    pub(crate) fn hull(&self, range: (i64, i64)) -> (i64, i64)
        requires { lies_within range (values_in self.now) ≡ true }
        ensures { result ≡ hull range self.now }
    {
        let (lo, hi) = range;
        match self {
            Op::Lt(x) => (lo, if *x <= lo { lo } else { *x - 1 }),
            Op::Le(x) => (lo, *x),
            Op::Eq(x) => (*x, *x),
            Op::Ne(_) => range,
            Op::Ge(x) => (*x, hi),
            Op::Gt(x) => (if hi <= *x { hi } else { *x + 1 }, hi),
            Op::Between(x, y) => (*x, (*x).max(*y)),
            Op::OneOf(xs) => xs.ends(),
            Op::NoneOf(_) => range,
        }
    }
}
