//! The first splits at a node.

ghost use Rattle.std.specs.Prelude.{◌≡◌, ◌≤◌, ◌<◌, ◌+◌, ◌-◌, ◌||◌, true, not, length, nat_le, slice_get, Some, if◌then◌else◌};
ghost use Rattle.std.specs.List.{list_all};
ghost use Rattle.be_base.specs.declared.limits.TheConstants.{EARLY_ROWS, LEAF_ROWS};
ghost use Rattle.be_model.specs.Lies.{row_lies};
ghost use Rattle.be_model.specs.Schemas.{numbered};
ghost use Rattle.be_model.specs.declared.paths.Hop.TheVariants.{Low, High};
ghost use Rattle.be_shape.specs.Shape.{can_split, is_inside, is_stuck};
ghost use Rattle.be_shape.specs.Children.{may_pass};
ghost use Rattle.be_shape.specs.Listed.{any_listed};
ghost use Rattle.be_shape.specs.Ranges.{is_bounded, is_rising};
ghost use Rattle.be_shape.specs.Spots.{known_of};
ghost use Rattle.be_plan.specs.Splits.{enough_pass, is_had, any_is_had, early_part, early_half};

use be_base::{AttrNo, EARLY_ROWS, LEAF_ROWS};
use be_model::{Hop, Row, Schema};
use be_score::pick_attr;
use be_shape::{
    Leaf, NodeRange, RowAttrs, Spot, can_split, is_used, lower_range, may_pass_at, upper_range,
};

// How many rows of the leaf may fail a test that at least 8 are to pass.
fn spare_rows(leaf: &Leaf) -> usize
    requires { EARLY_ROWS ≤ length leaf.now }
    ensures { result ≡ length leaf.now - EARLY_ROWS }
{
    leaf.len() - EARLY_ROWS
}

// Whether at least 8 rows of the leaf may pass the step. It looks no further once too many may not.
fn enough_pass(leaf: &Leaf, s: &Schema, hop: Hop, range: NodeRange) -> bool
    requires lie { list_all (row_lies s.now) leaf.now ≡ true }
    requires bounded { is_bounded range ≡ true }
    requires rising { is_rising range ≡ true }
    requires many { EARLY_ROWS ≤ length leaf.now }
    ensures { result ≡ enough_pass s.now hop range leaf.now }
{
    let mut spare = spare_rows(leaf);
    for place in 0..leaf.len() {
        if !may_pass_at(leaf, place, leaf.row(place), s, hop, range) {
            if spare == 0 {
                return false;
            }
            spare -= 1;
        }
    }
    true
}

// Whether the attribute isn't used, and at least 8 rows of the leaf have it.
fn is_had(a: AttrNo, leaf: &Leaf, s: &Schema, k: &Spot) -> bool
    requires lie { list_all (row_lies s.now) leaf.now ≡ true }
    requires many { EARLY_ROWS ≤ length leaf.now }
    ensures { result ≡ is_had (known_of k.now).used leaf.now a }
{
    if is_used(k.used.as_slice(), a) {
        return false;
    }
    enough_pass(leaf, s, Hop::Part(a), k.range)
}

// Whether that holds of an attribute of the schema.
fn any_below_is_had(leaf: &Leaf, s: &Schema, k: &Spot) -> bool
    requires lie { list_all (row_lies s.now) leaf.now ≡ true }
    requires many { EARLY_ROWS ≤ length leaf.now }
    ensures { result ≡ any_is_had (known_of k.now).used leaf.now (length s.now) }
{
    for number in 0..s.count() {
        if is_had(AttrNo(number), leaf, s, k) {
            return true;
        }
    }
    false
}

// Whether it holds of the attribute of this number.
fn one_is_had(x: u8, leaf: &Leaf, s: &Schema, k: &Spot) -> bool
    requires lie { list_all (row_lies s.now) leaf.now ≡ true }
    requires many { EARLY_ROWS ≤ length leaf.now }
    ensures { result ≡ is_had (known_of k.now).used leaf.now (numbered x) }
{
    is_had(AttrNo(u16::from(x)), leaf, s, k)
}

fn either_is_had(x: u8, y: u8, leaf: &Leaf, s: &Schema, k: &Spot) -> bool
    requires lie { list_all (row_lies s.now) leaf.now ≡ true }
    requires many { EARLY_ROWS ≤ length leaf.now }
    ensures { result ≡ (is_had (known_of k.now).used leaf.now (numbered x) || is_had (known_of k.now).used leaf.now (numbered y)) }
{
    one_is_had(x, leaf, s, k) || one_is_had(y, leaf, s, k)
}

// Whether it holds of one of the attributes.
fn listed_is_had(attrs: RowAttrs, leaf: &Leaf, s: &Schema, k: &Spot) -> bool
    requires lie { list_all (row_lies s.now) leaf.now ≡ true }
    requires many { EARLY_ROWS ≤ length leaf.now }
    ensures { result ≡ any_listed (is_had (known_of k.now).used leaf.now) attrs }
{
    match attrs {
        RowAttrs::Zero => false,
        RowAttrs::One(x) => one_is_had(x, leaf, s, k),
        RowAttrs::Two(x, y) => either_is_had(x, y, leaf, s, k),
        RowAttrs::Three(x, y, z) => { either_is_had(x, y, leaf, s, k) || one_is_had(z, leaf, s, k) }
        RowAttrs::Many => false,
    }
}

// Whether at least 8 rows of the leaf have some attribute that isn't used. Only those are asked that the leaf tells,
// where it tells them.
fn any_is_had(leaf: &Leaf, s: &Schema, k: &Spot) -> bool
    requires lie { list_all (row_lies s.now) leaf.now ≡ true }
    requires many { EARLY_ROWS ≤ length leaf.now }
    ensures { result ≡ any_is_had (known_of k.now).used leaf.now (length s.now) }
{
    // The count shows the form of the schema.
    let _ = s.count();
    let common = leaf.common();
    if common.is_many() {
        any_below_is_had(leaf, s, k)
    } else {
        listed_is_had(common, leaf, s, k)
    }
}

// Whether a leaf has too few rows for a split, or more than 16, of which none can move.
fn is_still(leaf: &Leaf) -> bool
    ensures { result ≡ (not (nat_le EARLY_ROWS (length leaf.now)) || not (nat_le (length leaf.now) LEAF_ROWS)) }
{
    leaf.len() < EARLY_ROWS || LEAF_ROWS < leaf.len()
}

// Whether the row, which stands at this place of the leaf, may stand in the low half of the range, and whether in the high
// one. Few rows are looked at.
#[tactic(auto, using(std::proofs::lemmas::Option::slice_get_within))]
fn sides_at(leaf: &Leaf, place: usize, row: &Row, s: &Schema, range: NodeRange) -> (bool, bool)
    requires at { slice_get leaf.now place ≡ Some row.now }
    requires lies { row_lies s.now row.now ≡ true }
    requires bounded { is_bounded range ≡ true }
    requires rising { is_rising range ≡ true }
    ensures low { result.0 ≡ may_pass s.now Low range row.now }
    ensures high { result.1 ≡ may_pass s.now High range row.now }
{
    match (lower_range(range), upper_range(range)) {
        (Some((a, low)), Some((_, high))) => match leaf.span(place, s, a) {
            Some(span) => (is_inside(low, span), is_inside(high, span)),
            None => (false, false),
        },
        _ => (true, true),
    }
}

fn is_inside(whole: (i64, i64), span: (i64, i64)) -> bool
    ensures { result ≡ is_inside whole (Some span) }
{
    whole.0 <= span.0 && span.1 <= whole.1
}

// One more that fails, where it does.
fn with_fail(fails: usize, passes: bool) -> usize
    requires { fails < 18446744073709551615 }
    ensures { result + (if passes then 1 else 0) ≡ fails + 1 }
{
    if passes { fails } else { fails + 1 }
}

// The first half of the range that encloses at least 8 rows of the leaf. It looks no further once too many are outside of
// either.
fn half_for(leaf: &Leaf, s: &Schema, range: NodeRange) -> Option<Hop>
    requires lie { list_all (row_lies s.now) leaf.now ≡ true }
    requires bounded { is_bounded range ≡ true }
    requires rising { is_rising range ≡ true }
    requires splits { can_split range ≡ true }
    requires many { EARLY_ROWS ≤ length leaf.now }
    ensures { result ≡ early_half s.now range leaf.now }
{
    let spare = spare_rows(leaf);
    let mut low = 0;
    let mut high = 0;
    for place in 0..leaf.len() {
        let sides = sides_at(leaf, place, leaf.row(place), s, range);
        low = with_fail(low, sides.0);
        high = with_fail(high, sides.1);
        if spare < low && spare < high {
            return None;
        }
    }
    if low <= spare {
        Some(Hop::Low)
    } else if high <= spare {
        Some(Hop::High)
    } else {
        None
    }
}

/// The attribute that divides the leaf best, where at least 8 of its rows have it.
pub(crate) fn part_split_at(leaf: &Leaf, s: &Schema, k: &Spot, alpha: u8) -> Option<AttrNo>
    requires lie { list_all (row_lies s.now) leaf.now ≡ true }
    requires settled { (nat_le (length leaf.now) LEAF_ROWS || list_all (is_stuck s.now (known_of k.now)) leaf.now) ≡ true }
    ensures { result ≡ early_part s.now alpha (known_of k.now) leaf.now }
{
    if is_still(leaf) {
        return None;
    }
    if !any_is_had(leaf, s, k) {
        return None;
    }
    match pick_attr(s, leaf, k.used.as_slice(), alpha) {
        Some(a) if enough_pass(leaf, s, Hop::Part(a), k.range) => Some(a),
        _ => None,
    }
}

/// The first half that encloses at least 8 rows of the leaf.
pub(crate) fn half_split_at(leaf: &Leaf, s: &Schema, k: &Spot) -> Option<Hop>
    requires lie { list_all (row_lies s.now) leaf.now ≡ true }
    requires settled { (nat_le (length leaf.now) LEAF_ROWS || list_all (is_stuck s.now (known_of k.now)) leaf.now) ≡ true }
    ensures { result ≡ early_half s.now k.now.range leaf.now }
{
    if is_still(leaf) {
        return None;
    }
    if !can_split(k.range) {
        return None;
    }
    half_for(leaf, s, k.range)
}
