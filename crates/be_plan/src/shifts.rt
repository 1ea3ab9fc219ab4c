//! The first shift at a node.

ghost use Rattle.std.specs.Prelude.{◌≡◌, ◌≤ℤ◌, ℕ, ◌+◌, ◌<◌, ◌∷◌, [], length, true, false, nat_le, slice_get, pos, Some, None};
ghost use Rattle.std.specs.List.{list_all};
ghost use Rattle.be_base.specs.declared.limits.TheConstants.{SHIFT_GAIN, LEAF_ROWS};
ghost use Rattle.be_model.specs.Lies.{row_lies};
ghost use Rattle.be_model.specs.Schemas.{IsSchema};
ghost use Rattle.be_model.specs.declared.paths.Hop.{Hop};
ghost use Rattle.be_score.specs.Scores.{weight};
ghost use Rattle.be_shape.specs.Ranges.{is_bounded, is_rising};
ghost use Rattle.be_shape.specs.Paths.{in_half};
ghost use Rattle.be_shape.specs.Plain.{Plain, plain, parts_as, half_as, part_as, parts_of, rows_below, rows_in_parts, rows_in_half, parts_under};
ghost use Rattle.be_shape.specs.Shape.{attrs_of, may_stand, whole};
ghost use Rattle.be_plan.specs.Shifts.{gain_of, lower_id, least_gain, first_shift, are_small, is_narrow, IsBelow, ChildBelow, PartsBelow, IsRightSomewhere};

use crate::movers::{Mover, are_small, gains_somewhere, is_among};
use crate::shares::{is_light, share_at, width_of};
use be_base::{AttrNo, Id, LEAF_ROWS, SHIFT_GAIN};
use be_model::{Row, Schema};
use be_score::weight;
use be_shape::{Leaf, Node, NodeRange, Part, has_attr, lower_range, upper_range, whole_range};

/// The part that rows may leave, and the parts of the node, with whether all their domains are small.
#[derive(Drop)]
pub(crate) struct From<'a> {
    pub(crate) attr: AttrNo,
    pub(crate) parts: &'a [Part],
    pub(crate) s: &'a Schema,
    pub(crate) small: bool,
    ghost is: { small ≡ are_small s.now (attrs_of (parts_as parts.now)) },
}

// Of two gains that of the lower id.
fn lower_id(best: Option<(Id, AttrNo)>, next: Option<(Id, AttrNo)>) -> Option<(Id, AttrNo)>
    ensures { result ≡ lower_id best next }
{
    match (best, next) {
        (None, _) => next,
        (_, None) => best,
        (Some(first), Some(second)) => { if first.0.0 < second.0.0 { best } else { next } }
    }
}

// Whether the row weighs so much more on the attribute than this.
fn gains(row: &Row, s: &Schema, own: i64, to: AttrNo) -> bool
    requires lies { row_lies s.now row.now ≡ true }
    requires positive { pos 0 ≤ℤ own }
    ensures { (from : ℕ) → own ≡ pos from → result ≡ nat_le (from + SHIFT_GAIN) (weight s.now to row.now) }
{
    has_attr(row, to) && SHIFT_GAIN as i64 <= weight(s, row, to) - own
}

// The first part in which the row weighs so much more than this, with the row's id.
fn first_gain(row: &Row, from: &From, own: i64) -> Option<(Id, AttrNo)>
    requires lies { row_lies from.now.s.now row.now ≡ true }
    requires own { own ≡ pos (weight from.now.s.now from.now.attr row.now) }
    ensures { result ≡ gain_of from.now.s.now (attrs_of (parts_as from.now.parts.now)) from.now.attr row.now }
{
    for part in from.parts {
        if gains(row, from.s, own, part.attr) {
            return Some((row.id, part.attr));
        }
    }
    None
}

// The first part in which the row, which stands at this place of the leaf, weighs enough more, with the row's id. A row that
// takes little of its own part's domain gains nowhere. The row itself is mostly looked at only where it gains.
fn gain_at(leaf: &Leaf, place: usize, row: &Row, from: &From) -> Option<(Id, AttrNo)>
    requires at { slice_get leaf.now place ≡ Some row.now }
    requires may { may_stand from.now.s.now row.now ≡ true }
    ensures { result ≡ gain_of from.now.s.now (attrs_of (parts_as from.now.parts.now)) from.now.attr row.now }
{
    let own = share_at(leaf, place, row, from.s, from.attr);
    if is_light(from.small, own.values, own.domain) {
        return None;
    }
    let mover = Mover {
        leaf,
        place,
        row,
        s: from.s,
        from: from.attr,
        own,
        parts: from.parts,
    };
    if !gains_somewhere(&mover) {
        return None;
    }
    first_gain(row, from, own.weight() as i64)
}

// Whether the range is so little of the attribute's domain that no row inside gains.
fn is_narrow(range: NodeRange, from: &From) -> bool
    requires bounded { is_bounded range ≡ true }
    requires rising { is_rising range ≡ true }
    ensures narrow { result ≡ is_narrow from.now.small range (whole from.now.s.now from.now.attr) }
    ensures form { IsSchema from.now.s.now }
{
    // The count shows the form of the schema.
    let _ = from.s.count();
    match (range, whole_range(from.s, from.attr)) {
        (Some((b, inner)), Some((_, outer))) => {
            b.0 == from.attr.0 && is_light(from.small, width_of(inner), width_of(outer))
        }
        _ => false,
    }
}

// The gain of the lowest id among the rows below a node and the best so far. It passes over a node whose range makes each
// row below it weigh too much.
#[cycle(gains)]
fn least_below(
    n: &Node,
    range: NodeRange,
    met: bool,
    from: &From,
    best: Option<(Id, AttrNo)>,
) -> Option<(Id, AttrNo)>
    requires { IsBelow from.now.s.now (attrs_of (parts_as from.now.parts.now)) from.now.attr met range (plain n.now) }
    ensures { result ≡ lower_id best (least_gain from.now.s.now (attrs_of (parts_as from.now.parts.now)) from.now.attr (rows_below (plain n.now))) }
{
    if is_narrow(range, from) {
        return best;
    }
    let best = least_in_leaf(&n.leaf, met, from, best);
    let best = least_in_parts(n.parts.as_slice(), met, from, best);
    let best = least_in_half(&n.low, lower_range(range), met, from, best);
    least_in_half(&n.high, upper_range(range), met, from, best)
}

#[cycle(gains)]
fn least_in_parts(
    parts: &[Part],
    met: bool,
    from: &From,
    best: Option<(Id, AttrNo)>,
) -> Option<(Id, AttrNo)>
    requires { PartsBelow from.now.s.now (attrs_of (parts_as from.now.parts.now)) from.now.attr met (parts_as parts.now) }
    ensures { result ≡ lower_id best (least_gain from.now.s.now (attrs_of (parts_as from.now.parts.now)) from.now.attr (rows_in_parts (parts_as parts.now))) }
{
    let mut best = best;
    for part in parts {
        best = least_in_part(part, met, from, best);
    }
    best
}

#[cycle(gains)]
fn least_in_part(
    part: &Part,
    met: bool,
    from: &From,
    best: Option<(Id, AttrNo)>,
) -> Option<(Id, AttrNo)>
    requires { ChildBelow from.now.s.now (attrs_of (parts_as from.now.parts.now)) from.now.attr met None (Hop.Part (part_as part.now).0, (part_as part.now).1) }
    ensures { result ≡ lower_id best (least_gain from.now.s.now (attrs_of (parts_as from.now.parts.now)) from.now.attr (rows_in_parts (parts_of (part_as part.now ∷ [])))) }
{
    let range = whole_range(from.s, part.attr);
    let met = met || is_among(from.parts, part.attr);
    least_below(&part.root, range, met, from, best)
}

#[cycle(gains)]
fn least_in_half(
    half: &Option<Box<Node>>,
    range: NodeRange,
    met: bool,
    from: &From,
    best: Option<(Id, AttrNo)>,
) -> Option<(Id, AttrNo)>
    requires { (m : Plain) → in_half (half_as half.now) ≡ Some m → IsBelow from.now.s.now (attrs_of (parts_as from.now.parts.now)) from.now.attr met range m }
    ensures { result ≡ lower_id best (least_gain from.now.s.now (attrs_of (parts_as from.now.parts.now)) from.now.attr (rows_in_half (half_as half.now))) }
{
    match half {
        Some(n) => least_below(n, range, met, from, best),
        None => best,
    }
}

/// The gain of the lowest id among the rows of a leaf and the best so far. The rows of a leaf of more than 16 have no attributes but those used on the way, so where none of the other parts' was met
/// none of them gains.
pub(crate) fn least_in_leaf(
    leaf: &Leaf,
    met: bool,
    from: &From,
    best: Option<(Id, AttrNo)>,
) -> Option<(Id, AttrNo)>
    requires may { list_all (may_stand from.now.s.now) leaf.now ≡ true }
    requires stuck { met ≡ false → LEAF_ROWS < length leaf.now → least_gain from.now.s.now (attrs_of (parts_as from.now.parts.now)) from.now.attr leaf.now ≡ None }
    ensures { result ≡ lower_id best (least_gain from.now.s.now (attrs_of (parts_as from.now.parts.now)) from.now.attr leaf.now) }
{
    if !met && LEAF_ROWS < leaf.len() {
        return best;
    }
    let mut best = best;
    for place in 0..leaf.len() {
        best = lower_id(best, gain_at(leaf, place, leaf.row(place), from));
    }
    best
}

/// The first part with a row that gains by a shift, the row of the lowest id, and the first part in which it gains.
pub(crate) fn shift_at(n: &Node, s: &Schema) -> Option<(AttrNo, Id, AttrNo)>
    requires { IsRightSomewhere s.now (plain n.now) }
    ensures { result ≡ first_shift s.now (attrs_of (parts_under (plain n.now))) (parts_under (plain n.now)) }
{
    if n.parts.len() < 2 {
        return None;
    }
    let small = are_small(n.parts.as_slice(), s);
    for part in n.parts.as_slice() {
        let from = From {
            attr: part.attr,
            parts: n.parts.as_slice(),
            s,
            small,
        };
        let range = whole_range(s, part.attr);
        if let Some((id, to)) = least_below(&part.root, range, false, &from, None) {
            return Some((part.attr, id, to));
        }
    }
    None
}
