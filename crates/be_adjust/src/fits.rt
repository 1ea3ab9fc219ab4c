//! Whether the rows of a node may go to the leaf above it.

ghost use Rattle.std.specs.Prelude.{◌≡◌, ◌&&◌, ◌∷◌, [], true, not, length};
ghost use Rattle.std.specs.List.{list_any, list_all};
ghost use Rattle.be_model.specs.Forms.{attrs_rise};
ghost use Rattle.be_model.specs.Lies.{row_lies};
ghost use Rattle.be_model.specs.Rows.{has};
ghost use Rattle.be_shape.specs.Plain.{plain, parts_as, half_as, part_as, parts_of, parts_under, rows_below, rows_in_parts, rows_in_half};
ghost use Rattle.be_shape.specs.Shape.{known, fits_half, attrs_of, may_stand};
ghost use Rattle.be_shape.specs.Ranges.{is_bounded, is_rising};
ghost use Rattle.be_shape.specs.Steps.{can_merge};
ghost use Rattle.be_adjust.specs.Fits.{leads_to, is_low, is_high, passes_others, stays, fit};

use be_base::{AttrNo, LEAF_ROWS, MERGE_ROWS};
use be_model::{Hop, Row, Schema};
use be_shape::{Leaf, Node, NodeRange, Part, child, has_attr, lower_range, takes, upper_range};

fn leads_to(hop: Hop, a: AttrNo) -> bool
    ensures { result ≡ leads_to hop a }
{
    match hop {
        Hop::Part(b) => a.0 == b.0,
        Hop::Low | Hop::High => false,
    }
}

fn is_low(hop: Hop) -> bool
    ensures { result ≡ is_low hop }
{
    matches!(hop, Hop::Low)
}

fn is_high(hop: Hop) -> bool
    ensures { result ≡ is_high hop }
{
    matches!(hop, Hop::High)
}

// Whether the row has the attribute of a part other than that at the end of the step.
fn has_other_part(parts: &[Part], hop: Hop, row: &Row) -> bool
    ensures { result ≡ list_any (λ a. not (leads_to hop a) && has a row.now) (attrs_of (parts_as parts.now)) }
{
    for part in parts {
        if !leads_to(hop, part.attr) && has_attr(row, part.attr) {
            return true;
        }
    }
    false
}

// Whether the half is another than that at the end of the step, is there, and encloses the row's span.
fn other_takes(
    half: &Option<Box<Node>>,
    is_own: bool,
    s: &Schema,
    range: NodeRange,
    row: &Row,
) -> bool
    requires { row_lies s.now row.now ≡ true }
    ensures { result ≡ (not is_own && fits_half s.now (known range []) (half_as half.now) row.now) }
{
    !is_own && takes(half, s, range, row)
}

// Whether the row may pass to a child other than that at the end of the step.
#[tactic(auto, using(be_shape::proofs::Plains::plain_out))]
fn passes_others(n: &Node, s: &Schema, hop: Hop, range: NodeRange, row: &Row) -> bool
    requires lies { row_lies s.now row.now ≡ true }
    requires bounded { is_bounded range ≡ true }
    requires rising { is_rising range ≡ true }
    ensures { result ≡ passes_others s.now hop range (plain n.now) row.now }
{
    has_other_part(n.parts.as_slice(), hop, row)
        || other_takes(&n.low, is_low(hop), s, lower_range(range), row)
        || other_takes(&n.high, is_high(hop), s, upper_range(range), row)
}

// How many of the places are left when the rows of the leaf take theirs; none where one doesn't stay, or they are more.
fn fit_leaf(
    rows: &Leaf,
    most: usize,
    n: &Node,
    s: &Schema,
    hop: Hop,
    range: NodeRange,
) -> Option<usize>
    requires may { list_all (may_stand s.now) rows.now ≡ true }
    requires rise { attrs_rise (attrs_of (parts_under (plain n.now))) ≡ true }
    requires bounded { is_bounded range ≡ true }
    requires rising { is_rising range ≡ true }
    ensures { result ≡ fit (stays s.now hop range (plain n.now)) most rows.now }
{
    if most < rows.len() {
        return None;
    }
    for place in 0..rows.len() {
        if passes_others(n, s, hop, range, rows.row(place)) {
            return None;
        }
    }
    Some(most - rows.len())
}

// The same of the rows of a node and of all below it.
#[cycle(fits)]
fn fit_node(
    m: &Node,
    most: usize,
    n: &Node,
    s: &Schema,
    hop: Hop,
    range: NodeRange,
) -> Option<usize>
    requires may { list_all (may_stand s.now) (rows_below (plain m.now)) ≡ true }
    requires rise { attrs_rise (attrs_of (parts_under (plain n.now))) ≡ true }
    requires bounded { is_bounded range ≡ true }
    requires rising { is_rising range ≡ true }
    ensures { result ≡ fit (stays s.now hop range (plain n.now)) most (rows_below (plain m.now)) }
{
    let left = fit_leaf(&m.leaf, most, n, s, hop, range)?;
    let left = fit_parts(m.parts.as_slice(), left, n, s, hop, range)?;
    let left = fit_half(&m.low, left, n, s, hop, range)?;
    fit_half(&m.high, left, n, s, hop, range)
}

#[cycle(fits)]
fn fit_parts(
    parts: &[Part],
    most: usize,
    n: &Node,
    s: &Schema,
    hop: Hop,
    range: NodeRange,
) -> Option<usize>
    requires may { list_all (may_stand s.now) (rows_in_parts (parts_as parts.now)) ≡ true }
    requires rise { attrs_rise (attrs_of (parts_under (plain n.now))) ≡ true }
    requires bounded { is_bounded range ≡ true }
    requires rising { is_rising range ≡ true }
    ensures { result ≡ fit (stays s.now hop range (plain n.now)) most (rows_in_parts (parts_as parts.now)) }
{
    let mut left = most;
    for part in parts {
        left = fit_part(part, left, n, s, hop, range)?;
    }
    Some(left)
}

#[cycle(fits)]
fn fit_part(
    part: &Part,
    most: usize,
    n: &Node,
    s: &Schema,
    hop: Hop,
    range: NodeRange,
) -> Option<usize>
    requires may { list_all (may_stand s.now) (rows_in_parts (parts_of (part_as part.now ∷ []))) ≡ true }
    requires rise { attrs_rise (attrs_of (parts_under (plain n.now))) ≡ true }
    requires bounded { is_bounded range ≡ true }
    requires rising { is_rising range ≡ true }
    ensures { result ≡ fit (stays s.now hop range (plain n.now)) most (rows_in_parts (parts_of (part_as part.now ∷ []))) }
{
    fit_node(&part.root, most, n, s, hop, range)
}

#[cycle(fits)]
fn fit_half(
    half: &Option<Box<Node>>,
    most: usize,
    n: &Node,
    s: &Schema,
    hop: Hop,
    range: NodeRange,
) -> Option<usize>
    requires may { list_all (may_stand s.now) (rows_in_half (half_as half.now)) ≡ true }
    requires rise { attrs_rise (attrs_of (parts_under (plain n.now))) ≡ true }
    requires bounded { is_bounded range ≡ true }
    requires rising { is_rising range ≡ true }
    ensures { result ≡ fit (stays s.now hop range (plain n.now)) most (rows_in_half (half_as half.now)) }
{
    match half {
        Some(m) => fit_node(m, most, n, s, hop, range),
        None => Some(most),
    }
}

/// Whether the rows of the child at the end of the step and of all below it are few, have room in the leaf, and may pass to
/// no other child.
pub(crate) fn can_merge(n: &Node, s: &Schema, hop: Hop, range: NodeRange) -> bool
    requires may { list_all (may_stand s.now) (rows_below (plain n.now)) ≡ true }
    requires rise { attrs_rise (attrs_of (parts_under (plain n.now))) ≡ true }
    requires bounded { is_bounded range ≡ true }
    requires rising { is_rising range ≡ true }
    ensures { result ≡ can_merge s.now hop (known range []) (plain n.now) }
{
    let Some(m) = child(n, hop) else {
        return false;
    };
    match fit_node(m, MERGE_ROWS, n, s, hop, range) {
        Some(left) => n.leaf.len() <= LEAF_ROWS - MERGE_ROWS + left,
        None => false,
    }
}
