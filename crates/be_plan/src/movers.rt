//! Rows that may leave their part, as their places in a leaf tell it.

ghost use Rattle.std.specs.Prelude.{◌≡◌, ◌-◌, ◌*◌, ◌/◌, ◌||◌, true, slice_get, Some};
ghost use Rattle.std.specs.List.{list_any};
ghost use Rattle.be_model.specs.declared.preds.Pred.{Pred};
ghost use Rattle.be_model.specs.Schemas.{numbered};
ghost use Rattle.be_score.specs.Scores.{weight};
ghost use Rattle.be_score.specs.declared.units.TheConstants.{FULL_WEIGHT};
ghost use Rattle.be_shape.specs.Listed.{any_listed};
ghost use Rattle.be_shape.specs.Plain.{parts_as};
ghost use Rattle.be_shape.specs.Shape.{attrs_of, is_used, may_stand, whole};
ghost use Rattle.be_plan.specs.Shifts.{gains_among, any_gains, is_small, are_small};

use crate::shares::{Share, is_gain, share_at, width_of};
use be_base::AttrNo;
use be_model::{Pred, Row, Schema};
use be_score::FULL_WEIGHT;
use be_shape::{Leaf, Part, RowAttrs, whole_range};

// Whether the attribute's domain has at most as many values as weights have steps.
fn is_small(s: &Schema, a: AttrNo) -> bool
    ensures { result ≡ is_small (whole s.now a) }
{
    match whole_range(s, a) {
        Some((_, domain)) => width_of(domain) <= FULL_WEIGHT,
        None => true,
    }
}

/// Whether that holds of the attribute of each part.
pub(crate) fn are_small(parts: &[Part], s: &Schema) -> bool
    ensures { result ≡ are_small s.now (attrs_of (parts_as parts.now)) }
{
    for part in parts {
        if !is_small(s, part.attr) {
            return false;
        }
    }
    true
}

/// Whether there is a part of the attribute.
pub(crate) fn is_among(parts: &[Part], a: AttrNo) -> bool
    ensures { result ≡ is_used (attrs_of (parts_as parts.now)) a }
{
    for part in parts {
        if part.attr.0 == a.0 {
            return true;
        }
    }
    false
}

/// A row at its place, the part that it may leave, its share of that part's domain, and the parts to which it may move.
#[derive(Drop)]
pub(crate) struct Mover<'a> {
    pub(crate) leaf: &'a Leaf,
    pub(crate) place: usize,
    pub(crate) row: &'a Row,
    pub(crate) s: &'a Schema,
    pub(crate) from: AttrNo,
    pub(crate) own: Share,
    pub(crate) parts: &'a [Part],
    pub(crate) ghost at: { slice_get leaf.now place ≡ Some row.now },
    pub(crate) ghost may: { may_stand s.now row.now ≡ true },
    pub(crate) ghost weighs: { weight s.now from row.now ≡ FULL_WEIGHT - FULL_WEIGHT * own.values / own.domain },
}

// Whether there is a part of the attribute, and the row weighs enough more there.
fn gains_on(a: AttrNo, m: &Mover) -> bool
    ensures { result ≡ gains_among m.now.s.now (attrs_of (parts_as m.now.parts.now)) m.now.from m.now.row.now a }
{
    a.0 != m.from.0
        && is_among(m.parts, a)
        && is_gain(m.own, share_at(m.leaf, m.place, m.row, m.s, a))
}

// Whether that holds of the attribute of one of these predicates.
fn gains_by(preds: &[Pred], m: &Mover) -> bool
    ensures { result ≡ list_any (λ (p : Pred). gains_among m.now.s.now (attrs_of (parts_as m.now.parts.now)) m.now.from m.now.row.now p.attr) preds.now }
{
    for pred in preds {
        if gains_on(pred.attr, m) {
            return true;
        }
    }
    false
}

// Whether that holds of the attribute of this number.
fn gains_on_one(x: u8, m: &Mover) -> bool
    ensures { result ≡ gains_among m.now.s.now (attrs_of (parts_as m.now.parts.now)) m.now.from m.now.row.now (numbered x) }
{
    gains_on(AttrNo(u16::from(x)), m)
}

fn gains_on_two(x: u8, y: u8, m: &Mover) -> bool
    ensures { result ≡ (gains_among m.now.s.now (attrs_of (parts_as m.now.parts.now)) m.now.from m.now.row.now (numbered x) || gains_among m.now.s.now (attrs_of (parts_as m.now.parts.now)) m.now.from m.now.row.now (numbered y)) }
{
    gains_on_one(x, m) || gains_on_one(y, m)
}

fn gains_on_three(x: u8, y: u8, z: u8, m: &Mover) -> bool
    ensures { result ≡ (gains_among m.now.s.now (attrs_of (parts_as m.now.parts.now)) m.now.from m.now.row.now (numbered x) || gains_among m.now.s.now (attrs_of (parts_as m.now.parts.now)) m.now.from m.now.row.now (numbered y) || gains_among m.now.s.now (attrs_of (parts_as m.now.parts.now)) m.now.from m.now.row.now (numbered z)) }
{
    gains_on_two(x, y, m) || gains_on_one(z, m)
}

// Whether that holds of one of the attributes.
fn gains_on_any(attrs: RowAttrs, m: &Mover) -> bool
    ensures { result ≡ any_listed (gains_among m.now.s.now (attrs_of (parts_as m.now.parts.now)) m.now.from m.now.row.now) attrs }
{
    match attrs {
        RowAttrs::Zero => false,
        RowAttrs::One(x) => gains_on_one(x, m),
        RowAttrs::Two(x, y) => gains_on_two(x, y, m),
        RowAttrs::Three(x, y, z) => gains_on_three(x, y, z, m),
        RowAttrs::Many => false,
    }
}

/// Whether the row weighs enough more on an attribute of its own of which there is a part. A row of few attributes isn't
/// looked at for them.
#[tactic(auto, using(be_shape::proofs::FewAttrs::any_is_listed, std::proofs::lemmas::Option::slice_get_within))]
pub(crate) fn gains_somewhere(m: &Mover) -> bool
    ensures { result ≡ any_gains m.now.s.now (attrs_of (parts_as m.now.parts.now)) m.now.from m.now.row.now }
{
    let attrs = m.leaf.attrs(m.place);
    if attrs.is_many() {
        gains_by(m.row.conj.preds(), m)
    } else {
        gains_on_any(attrs, m)
    }
}
