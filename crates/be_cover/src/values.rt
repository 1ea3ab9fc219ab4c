//! Which values of an attribute a condition allows.

ghost use Rattle.std.specs.Prelude.{◌≡◌, ℤ, ◌<◌, [], ◌∷◌, true, length, IfOk, Some};
ghost use Rattle.std.specs.List.{list_any, list_all, flat_map};
ghost use Rattle.be_base.specs.declared.limits.TheConstants.{FIRST_INT, LAST_INT};
ghost use Rattle.be_model.specs.Hulls.{is_on};
ghost use Rattle.be_model.specs.Lies.{values_in, lies_within, conj_lies};
ghost use Rattle.be_model.specs.Schemas.{range_of};
ghost use Rattle.be_cover.specs.Covering.{allows, has, least_allowed, least_apart};
ghost use Rattle.be_cover.specs.Pieces.{is_near, pieces};
ghost use Rattle.be_cover.specs.Ranges.{is_in, rise_apart};

use crate::pieces::put_pieces;
use crate::ranges::{Allowed, minus};
use be_base::{AttrNo, NoMemory};
use be_model::{Conj, Op, Schema};
use std::alloc::Global;

/// The values of the attribute's domain of which every predicate of the condition on the attribute holds.
pub fn allowed(alloc: Global, s: &Schema, c: &Conj, a: AttrNo) -> Result<Allowed, NoMemory>
    requires lies { conj_lies s.now c.now ≡ true }
    requires below { a.0 < length s.now }
    ensures { IfOk result (λ x. (v : ℤ) → is_in x v ≡ allows s.now c.now a v) }
{
    let ranges = ranges_of(alloc, s, c, a)?;
    Ok(Allowed::of(ranges))
}

// The ranges of these values.
fn ranges_of(alloc: Global, s: &Schema, c: &Conj, a: AttrNo) -> Result<Vec<(i64, i64)>, NoMemory>
    requires lies { conj_lies s.now c.now ≡ true }
    requires below { a.0 < length s.now }
    ensures apart { IfOk result (λ ranges. rise_apart ranges.items ≡ true) }
    ensures exact { IfOk result (λ ranges. (v : ℤ) → is_in ranges.items v ≡ allows s.now c.now a v) }
{
    let mut ranges = Vec::new(alloc);
    ranges.push(s.bounds(a))?;
    let preds = c.preds();
    for pred in preds {
        if pred.attr.0 != a.0 {
            continue;
        }
        ranges = kept(alloc, ranges.as_slice(), &pred.op)?;
    }
    Ok(ranges)
}

// What the comparison leaves of the ranges.
fn kept(alloc: Global, ranges: &[(i64, i64)], op: &Op) -> Result<Vec<(i64, i64)>, NoMemory>
    requires near { lies_within (FIRST_INT, LAST_INT) (values_in op.now) ≡ true }
    requires ranges { list_all is_near ranges.now ≡ true }
    ensures { IfOk result (λ left. left.items ≡ flat_map (pieces op.now) ranges.now) }
{
    let mut left = Vec::new(alloc);
    for range in ranges {
        put_pieces(&mut left, op, *range)?;
    }
    Ok(left)
}

/// The least value of the attribute that the condition allows.
pub(crate) fn least_allowed(
    alloc: Global,
    s: &Schema,
    c: &Conj,
    a: AttrNo,
) -> Result<Option<i64>, NoMemory>
    requires lies { conj_lies s.now c.now ≡ true }
    requires below { a.0 < length s.now }
    ensures { IfOk result (λ least. least ≡ least_allowed s.now c.now a) }
{
    let values = allowed(alloc, s, c, a)?;
    Ok(values.least())
}

/// The least value of the attribute that the first condition allows and the other doesn't.
pub(crate) fn least_apart(
    alloc: Global,
    s: &Schema,
    q: &Conj,
    r: &Conj,
    a: AttrNo,
) -> Result<Option<i64>, NoMemory>
    requires first { conj_lies s.now q.now ≡ true }
    requires other { conj_lies s.now r.now ≡ true }
    requires below { a.0 < length s.now }
    ensures { IfOk result (λ least. least ≡ least_apart s.now q.now r.now a) }
{
    let values = allowed(alloc, s, q, a)?;
    let others = allowed(alloc, s, r, a)?;
    Ok(minus(&values, &others))
}

/// Whether a predicate of the condition is on the attribute.
pub(crate) fn has(c: &Conj, a: AttrNo) -> bool
    ensures { result ≡ has c.now a }
{
    c.preds().iter().any(|pred| pred.attr.0 == a.0)
}
