//! Where a row is found by its id.

ghost use Rattle.std.specs.Prelude.{◌≡◌, ◌∷◌, [], option_map};
ghost use Rattle.std.specs.Arc.{arc_value};
ghost use Rattle.be_shape.specs.Plain.{plain, parts_as, half_as, part_as, parts_of, rows_below, rows_in_parts, rows_in_half};
ghost use Rattle.be_adjust.specs.Finds.{may_shift, first_of};

use be_base::{AttrNo, Id};
use be_model::Row;
use be_shape::{Leaf, Node, Part, has_attr};
use std::sync::Arc;

// Whether the row has the id, and a predicate on the attribute.
fn may_shift(row: &Row, to: AttrNo, id: Id) -> bool
    ensures { result ≡ may_shift to id.0 row.now }
{
    row.id.0 == id.0 && has_attr(row, to)
}

// The first such row of a leaf.
fn find_in_leaf<'a>(leaf: &'a Leaf, to: AttrNo, id: Id) -> Option<&'a Arc<Row>>
    ensures { option_map (λ r. arc_value r.now) result ≡ first_of (may_shift to id.0) leaf.now }
{
    for place in 0..leaf.len() {
        if may_shift(leaf.row(place), to, id) {
            return Some(leaf.row(place));
        }
    }
    None
}

/// The first row below the node that has the id and a predicate on the attribute.
#[cycle(finds)]
pub(crate) fn find_in_node<'a>(n: &'a Node, to: AttrNo, id: Id) -> Option<&'a Arc<Row>>
    ensures { option_map (λ r. arc_value r.now) result ≡ first_of (may_shift to id.0) (rows_below (plain n.now)) }
{
    if let Some(row) = find_in_leaf(&n.leaf, to, id) {
        return Some(row);
    }
    if let Some(row) = find_in_parts(n.parts.as_slice(), to, id) {
        return Some(row);
    }
    if let Some(row) = find_in_half(&n.low, to, id) {
        return Some(row);
    }
    find_in_half(&n.high, to, id)
}

#[cycle(finds)]
fn find_in_parts<'a>(parts: &'a [Part], to: AttrNo, id: Id) -> Option<&'a Arc<Row>>
    ensures { option_map (λ r. arc_value r.now) result ≡ first_of (may_shift to id.0) (rows_in_parts (parts_as parts.now)) }
{
    for part in parts {
        if let Some(row) = find_in_part(part, to, id) {
            return Some(row);
        }
    }
    None
}

#[cycle(finds)]
fn find_in_part<'a>(part: &'a Part, to: AttrNo, id: Id) -> Option<&'a Arc<Row>>
    ensures { option_map (λ r. arc_value r.now) result ≡ first_of (may_shift to id.0) (rows_in_parts (parts_of (part_as part.now ∷ []))) }
{
    find_in_node(&part.root, to, id)
}

#[cycle(finds)]
fn find_in_half<'a>(half: &'a Option<Box<Node>>, to: AttrNo, id: Id) -> Option<&'a Arc<Row>>
    ensures { option_map (λ r. arc_value r.now) result ≡ first_of (may_shift to id.0) (rows_in_half (half_as half.now)) }
{
    match half {
        Some(n) => find_in_node(n, to, id),
        None => None,
    }
}
