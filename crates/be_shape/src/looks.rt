//! What a row may do at a node.

ghost use Rattle.std.specs.Prelude.{◌≡◌, ◌<◌, ◌&&◌, ◌||◌, true, [], slice_get, Some};
ghost use Rattle.be_model.specs.declared.paths.Hop.TheVariants.{Low, High};
ghost use Rattle.std.specs.List.{count_by, list_all};
ghost use Rattle.be_model.specs.Lies.{row_lies};
ghost use Rattle.be_model.specs.Rows.{has};
ghost use Rattle.be_shape.specs.Plain.{half_as};
ghost use Rattle.be_shape.specs.Shape.{known, spans_inside, can_split, fits_half, is_used, is_stuck};
ghost use Rattle.be_shape.specs.Paths.{is_part_of, is_used_on};
ghost use Rattle.be_shape.specs.Ranges.{is_bounded, is_rising};
ghost use Rattle.be_shape.specs.Children.{may_pass};
ghost use Rattle.be_shape.specs.Spots.{known_of};

use crate::leaves::Leaf;
use crate::nodes::Node;
use crate::ranges::{NodeRange, lower_range, upper_range};
use crate::spots::Spot;
use be_base::AttrNo;
use be_model::{Hop, Row, Schema};

/// Whether the row has its span inside the range. Without a range this says nothing.
pub fn is_inside(row: &Row, s: &Schema, range: NodeRange) -> bool
    requires { row_lies s.now row.now ≡ true }
    ensures { result ≡ spans_inside s.now range row.now }
{
    match range {
        None => true,
        Some((a, ends)) => match row.conj.span(s, a) {
            Some(span) => ends.0 <= span.0 && span.1 <= ends.1,
            None => false,
        },
    }
}

/// Whether the half is there and encloses the row's span.
pub fn takes(half: &Option<Box<Node>>, s: &Schema, range: NodeRange, row: &Row) -> bool
    requires { row_lies s.now row.now ≡ true }
    ensures { result ≡ fits_half s.now (known range []) (half_as half.now) row.now }
{
    match half {
        Some(_) => is_inside(row, s, range),
        None => false,
    }
}

/// Whether the row has a predicate on the attribute.
pub fn has_attr(row: &Row, a: AttrNo) -> bool
    ensures { result ≡ has a row.now }
{
    row.conj.preds().iter().any(|pred| pred.attr.0 == a.0)
}

/// Whether the row may stand below the step.
pub fn may_pass(row: &Row, s: &Schema, hop: Hop, range: NodeRange) -> bool
    requires lies { row_lies s.now row.now ≡ true }
    requires bounded { is_bounded range ≡ true }
    requires rising { is_rising range ≡ true }
    ensures { result ≡ may_pass s.now hop range row.now }
{
    match hop {
        Hop::Part(a) => has_attr(row, a),
        Hop::Low => is_inside(row, s, lower_range(range)),
        Hop::High => is_inside(row, s, upper_range(range)),
    }
}

// Whether the row at a place of the leaf has its span inside the range.
#[tactic(auto, using(std::proofs::lemmas::Option::slice_get_within))]
fn is_inside_at(leaf: &Leaf, place: usize, row: &Row, s: &Schema, range: NodeRange) -> bool
    requires at { slice_get leaf.now place ≡ Some row.now }
    requires lies { row_lies s.now row.now ≡ true }
    ensures { result ≡ spans_inside s.now range row.now }
{
    match range {
        None => true,
        Some((a, ends)) => match leaf.span(place, s, a) {
            Some(span) => ends.0 <= span.0 && span.1 <= ends.1,
            None => false,
        },
    }
}

/// Whether the row, which stands at this place of the leaf, may stand below the step. Mostly the row isn't looked at.
#[tactic(auto, using(std::proofs::lemmas::Option::slice_get_within))]
pub fn may_pass_at(
    leaf: &Leaf,
    place: usize,
    row: &Row,
    s: &Schema,
    hop: Hop,
    range: NodeRange,
) -> bool
    requires at { slice_get leaf.now place ≡ Some row.now }
    requires lies { row_lies s.now row.now ≡ true }
    requires bounded { is_bounded range ≡ true }
    requires rising { is_rising range ≡ true }
    ensures { result ≡ may_pass s.now hop range row.now }
{
    match hop {
        Hop::Part(a) => leaf.has_attr(place, a),
        Hop::Low => is_inside_at(leaf, place, row, s, lower_range(range)),
        Hop::High => is_inside_at(leaf, place, row, s, upper_range(range)),
    }
}

/// Whether the range has more than one value.
pub fn can_split(range: NodeRange) -> bool
    ensures { result ≡ can_split range }
{
    match range {
        None => false,
        Some((_, (lo, hi))) => lo < hi,
    }
}

/// Whether the attribute is among those used on a path.
pub fn is_used(used: &[AttrNo], a: AttrNo) -> bool
    ensures { result ≡ is_used used.now a }
{
    used.iter().any(|u| u.0 == a.0)
}

/// Whether the attribute is used on the path from the root.
pub fn is_used_on(hops: &[Hop], a: AttrNo) -> bool
    ensures { result ≡ is_used_on hops.now a }
{
    hops.iter().any(|hop| is_part_of(*hop, a))
}

fn is_part_of(hop: Hop, a: AttrNo) -> bool
    ensures { result ≡ is_part_of a hop }
{
    match hop {
        Hop::Part(b) => b.0 == a.0,
        Hop::Low | Hop::High => false,
    }
}

fn are_all_used(row: &Row, used: &[AttrNo]) -> bool
    ensures { result ≡ list_all (λ p. is_used used.now p.attr) row.now.conj }
{
    row.conj.preds().iter().all(|pred| is_used(used, pred.attr))
}

/// Whether neither a part nor a half could take the row.
pub fn is_stuck(row: &Row, s: &Schema, k: &Spot) -> bool
    requires { row_lies s.now row.now ≡ true }
    ensures { result ≡ is_stuck s.now (known_of k.now) row.now }
{
    are_all_used(row, k.used.as_slice()) && !fits_a_half(row, s, k.range)
}

/// Whether a half of the range, there or not, encloses the row's span.
pub fn fits_a_half(row: &Row, s: &Schema, range: NodeRange) -> bool
    requires lies { row_lies s.now row.now ≡ true }
    requires bounded { is_bounded range ≡ true }
    requires rising { is_rising range ≡ true }
    ensures { result ≡ (can_split range && (may_pass s.now Low range row.now || may_pass s.now High range row.now)) }
{
    can_split(range) && (may_pass(row, s, Hop::Low, range) || may_pass(row, s, Hop::High, range))
}

/// How many rows of the leaf may pass the step.
pub fn count_passing(leaf: &Leaf, s: &Schema, hop: Hop, range: NodeRange) -> usize
    requires lie { list_all (row_lies s.now) leaf.now ≡ true }
    requires bounded { is_bounded range ≡ true }
    requires rising { is_rising range ≡ true }
    ensures { result ≡ count_by (may_pass s.now hop range) leaf.now }
{
    let mut count = 0;
    for place in 0..leaf.len() {
        if may_pass(leaf.row(place), s, hop, range) {
            count += 1;
        }
    }
    count
}
