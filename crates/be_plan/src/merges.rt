//! Where a child may be merged into its node.

ghost use Rattle.std.specs.Prelude.{◌≡◌, ◌∷◌, [], ◌&&◌, true, not, length, Some};
ghost use Rattle.std.specs.List.{list_all, list_any};
ghost use Rattle.be_model.specs.Forms.{attrs_rise};
ghost use Rattle.be_model.specs.Lies.{row_lies};
ghost use Rattle.be_model.specs.Rows.{has};
ghost use Rattle.be_shape.specs.Paths.{child};
ghost use Rattle.be_shape.specs.Plain.{plain, parts_as, half_as, part_as, parts_of, parts_under, rows_below, rows_in_parts, rows_in_half};
ghost use Rattle.be_shape.specs.Shape.{known, attrs_of, is_here};
ghost use Rattle.be_shape.specs.Ranges.{is_bounded, is_rising};
ghost use Rattle.be_shape.specs.Children.{may_pass};
ghost use Rattle.be_shape.specs.Steps.{can_merge};
ghost use Rattle.be_plan.specs.Merges.{left_after, passes_elsewhere, all_stay, is_to, is_same};

use be_base::{AttrNo, LEAF_ROWS, MERGE_ROWS};
use be_model::{Hop, Row, Schema};
use be_shape::{Leaf, Node, NodeRange, Part, has_attr, may_pass};

// What is left of so much room after so many rows.
fn left(room: usize, rows: usize) -> Option<usize>
    ensures { result ≡ left_after room rows }
{
    if rows <= room {
        Some(room - rows)
    } else {
        None
    }
}

// What the rows below a node leave of so much room. It looks no further than the room goes.
#[cycle(room)]
fn room_under(n: &Node, room: usize) -> Option<usize>
    ensures { result ≡ left_after room (length (rows_below (plain n.now))) }
{
    let room = left(room, n.leaf.len())?;
    let room = room_under_parts(n.parts.as_slice(), room)?;
    let room = room_under_half(&n.low, room)?;
    room_under_half(&n.high, room)
}

#[cycle(room)]
fn room_under_parts(parts: &[Part], room: usize) -> Option<usize>
    ensures { result ≡ left_after room (length (rows_in_parts (parts_as parts.now))) }
{
    let mut room = room;
    for part in parts {
        room = room_under_part(part, room)?;
    }
    Some(room)
}

#[cycle(room)]
fn room_under_part(part: &Part, room: usize) -> Option<usize>
    ensures { result ≡ left_after room (length (rows_in_parts (parts_of (part_as part.now ∷ [])))) }
{
    room_under(&part.root, room)
}

#[cycle(room)]
fn room_under_half(half: &Option<Box<Node>>, room: usize) -> Option<usize>
    ensures { result ≡ left_after room (length (rows_in_half (half_as half.now))) }
{
    match half {
        Some(n) => room_under(n, room),
        None => Some(room),
    }
}

/// A node, which of its children is to be merged into it, and the node's range.
#[derive(Drop)]
pub(crate) struct Above<'a> {
    pub(crate) node: &'a Node,
    pub(crate) hop: Hop,
    pub(crate) range: NodeRange,
    pub(crate) ghost bounded: { is_bounded range ≡ true },
    pub(crate) ghost rising: { is_rising range ≡ true },
    pub(crate) ghost rise: { attrs_rise (attrs_of (parts_under (plain node.now))) ≡ true },
}

/// Whether the child may be merged into the node: its rows are few and have room in the leaf, and none may pass to another
/// child.
pub(crate) fn may_merge(above: &Above, n: &Node, s: &Schema) -> bool
    requires there { child above.now.hop (plain above.now.node.now) ≡ Some (plain n.now) }
    requires lie { list_all (row_lies s.now) (rows_below (plain n.now)) ≡ true }
    ensures { result ≡ can_merge s.now above.now.hop (known above.now.range []) (plain above.now.node.now) }
{
    let Some(room) = room_under(n, MERGE_ROWS) else {
        return false;
    };
    let rows = MERGE_ROWS - room;
    if LEAF_ROWS - rows < above.node.leaf.len() {
        return false;
    }
    node_stays(n, above, s)
}

// Whether none of the rows below a node may pass to another child.
#[cycle(stay)]
fn node_stays(n: &Node, above: &Above, s: &Schema) -> bool
    requires { list_all (row_lies s.now) (rows_below (plain n.now)) ≡ true }
    ensures { result ≡ all_stay s.now above.now.hop above.now.range (plain above.now.node.now) (rows_below (plain n.now)) }
{
    if !leaf_stays(&n.leaf, above, s) {
        return false;
    }
    if !parts_stay(n.parts.as_slice(), above, s) {
        return false;
    }
    if !half_stays(&n.low, above, s) {
        return false;
    }
    half_stays(&n.high, above, s)
}

#[cycle(stay)]
fn parts_stay(parts: &[Part], above: &Above, s: &Schema) -> bool
    requires { list_all (row_lies s.now) (rows_in_parts (parts_as parts.now)) ≡ true }
    ensures { result ≡ all_stay s.now above.now.hop above.now.range (plain above.now.node.now) (rows_in_parts (parts_as parts.now)) }
{
    for part in parts {
        if !part_stays(part, above, s) {
            return false;
        }
    }
    true
}

#[cycle(stay)]
fn part_stays(part: &Part, above: &Above, s: &Schema) -> bool
    requires { list_all (row_lies s.now) (rows_in_parts (parts_of (part_as part.now ∷ []))) ≡ true }
    ensures { result ≡ all_stay s.now above.now.hop above.now.range (plain above.now.node.now) (rows_in_parts (parts_of (part_as part.now ∷ []))) }
{
    node_stays(&part.root, above, s)
}

#[cycle(stay)]
fn half_stays(half: &Option<Box<Node>>, above: &Above, s: &Schema) -> bool
    requires { list_all (row_lies s.now) (rows_in_half (half_as half.now)) ≡ true }
    ensures { result ≡ all_stay s.now above.now.hop above.now.range (plain above.now.node.now) (rows_in_half (half_as half.now)) }
{
    match half {
        Some(n) => node_stays(n, above, s),
        None => true,
    }
}

fn leaf_stays(leaf: &Leaf, above: &Above, s: &Schema) -> bool
    requires { list_all (row_lies s.now) leaf.now ≡ true }
    ensures { result ≡ all_stay s.now above.now.hop above.now.range (plain above.now.node.now) leaf.now }
{
    for place in 0..leaf.len() {
        if passes_elsewhere(leaf.row(place), above, s) {
            return false;
        }
    }
    true
}

// Whether the row may pass to another child.
fn passes_elsewhere(row: &Row, above: &Above, s: &Schema) -> bool
    requires { row_lies s.now row.now ≡ true }
    ensures { result ≡ passes_elsewhere s.now above.now.hop above.now.range (plain above.now.node.now) row.now }
{
    if passes_other_part(row, above.node.parts.as_slice(), above.hop) {
        return true;
    }
    if passes_other_half(row, &above.node.low, Hop::Low, above, s) {
        return true;
    }
    passes_other_half(row, &above.node.high, Hop::High, above, s)
}

fn passes_other_part(row: &Row, parts: &[Part], hop: Hop) -> bool
    ensures { result ≡ list_any (λ a. not (is_to a hop) && has a row.now) (attrs_of (parts_as parts.now)) }
{
    for part in parts {
        if !is_to(part.attr, hop) && has_attr(row, part.attr) {
            return true;
        }
    }
    false
}

// Whether the step leads to the part of the attribute.
fn is_to(a: AttrNo, hop: Hop) -> bool
    ensures { result ≡ is_to a hop }
{
    match hop {
        Hop::Part(b) => a.0 == b.0,
        Hop::Low => false,
        Hop::High => false,
    }
}

fn passes_other_half(
    row: &Row,
    half: &Option<Box<Node>>,
    hop: Hop,
    above: &Above,
    s: &Schema,
) -> bool
    requires { row_lies s.now row.now ≡ true }
    ensures { result ≡ (is_here (half_as half.now) && not (is_same hop above.now.hop) && may_pass s.now hop above.now.range row.now) }
{
    match half {
        Some(_) => !is_same(hop, above.hop) && may_pass(row, s, hop, above.range),
        None => false,
    }
}

fn is_same(half: Hop, hop: Hop) -> bool
    ensures { result ≡ is_same half hop }
{
    match (half, hop) {
        (Hop::Low, Hop::Low) => true,
        (Hop::High, Hop::High) => true,
        _ => false,
    }
}
