//! Where a row is looked for.

ghost use Rattle.std.specs.Prelude.{◌≡◌, ◌↔◌, ◌<◌, ◌∷◌, length, true, [], List, Some, None, IsPermutation, IsSome, IfSome, OnSome, IfNone};
ghost use Rattle.std.specs.List.{Contains, AllByRecursion, list_any};
ghost use Rattle.std.specs.Arc.{arc_value};
ghost use Rattle.be_base.specs.declared.names.AttrNo.{AttrNo};
ghost use Rattle.be_model.specs.Lies.{row_lies};
ghost use Rattle.be_model.specs.Rows.{id_of, has};
ghost use Rattle.be_model.specs.ByIds.{row_at, without_id};
ghost use Rattle.be_shape.specs.Plain.{plain, parts_as, half_as, rows_below, contents};
ghost use Rattle.be_shape.specs.Shape.{known, fits_half, attrs_of};
ghost use Rattle.be_shape.specs.Ranges.{is_bounded, is_rising};
ghost use Rattle.be_shape.specs.Right.{IsRight};
ghost use Rattle.be_shape.specs.Spots.{known_of};
ghost use Rattle.be_shape.specs.Children.{roots_of, root_of, known_below};
ghost use Rattle.be_shape.specs.Less.{IsRightIn, IsRightBelow, IsLess};
ghost use Rattle.be_remove.specs.Taken.{has_way, Lacks};
ghost use Rattle.be_remove.specs.Turns.{place_at};

use crate::leaves::{drop_half, drop_part, take_row};
use be_insert::best_part;
use be_model::{Hop, Row, Schema};
use be_shape::{
    Node, NodeRange, Part, Spot, Tree, child_range, has_attr, is_inside, lower_range, may_pass,
    upper_range,
};
use std::sync::Arc;

// Whether the row has the attribute of a part.
fn has_part(parts: &[Part], row: &Row) -> bool
    ensures { result ≡ list_any (λ a. has a row.now) (attrs_of (parts_as parts.now)) }
{
    for part in parts {
        if has_attr(row, part.attr) {
            return true;
        }
    }
    false
}

// Whether the half is there and encloses the row's span.
fn has_half(half: &Option<Box<Node>>, s: &Schema, range: NodeRange, row: &Row) -> bool
    requires { row_lies s.now row.now ≡ true }
    ensures { result ≡ fits_half s.now (known range []) (half_as half.now) row.now }
{
    match half {
        Some(_) => is_inside(row, s, range),
        None => false,
    }
}

// Whether the row may pass to one of the children.
fn has_way(n: &Node, s: &Schema, range: NodeRange, row: &Row) -> bool
    requires lies { row_lies s.now row.now ≡ true }
    requires bounded { is_bounded range ≡ true }
    requires rising { is_rising range ≡ true }
    ensures { result ≡ has_way s.now range (plain n.now) row.now }
{
    if has_half(&n.low, s, lower_range(range), row) {
        return true;
    }
    if has_half(&n.high, s, upper_range(range), row) {
        return true;
    }
    has_part(n.parts.as_slice(), row)
}

// Takes the row out below a child.
#[cycle(takes)]
pub(crate) fn take_from_child(
    n: &mut Node,
    s: &Schema,
    hop: Hop,
    range: NodeRange,
    row: &Row,
) -> Option<Arc<Row>>
    requires lies { row_lies s.now row.now ≡ true }
    requires bounded { is_bounded range ≡ true }
    requires rising { is_rising range ≡ true }
    requires right { IsRightBelow s.now range (hop, plain n.old) }
    ensures same { IfSome result (λ r. arc_value r ≡ row.now) }
    ensures taken { OnSome result (IsPermutation (rows_below (plain n.old)) (row.now ∷ rows_below (plain n.new))) }
    ensures right { (used : List AttrNo) → IsRight s.now (known_below s.now hop (known range used)) (plain n.old) → IsRight s.now (known_below s.now hop (known range used)) (plain n.new) }
    ensures none { IfNone result (plain n.new ≡ plain n.old) }
    ensures lacks { IfNone result (Lacks row.now (plain n.old)) }
{
    if may_pass(row, s, hop, range) {
        take_from(n, s, child_range(s, hop, range), row)
    } else {
        None
    }
}

// Takes the row out below a half.
#[cycle(takes)]
fn take_from_half(
    half: &mut Option<Box<Node>>,
    s: &Schema,
    hop: Hop,
    range: NodeRange,
    row: &Row,
) -> Option<Arc<Row>>
    requires lies { row_lies s.now row.now ≡ true }
    requires bounded { is_bounded range ≡ true }
    requires rising { is_rising range ≡ true }
    requires right { AllByRecursion (IsRightBelow s.now range) (root_of hop (half_as half.old)) }
    ensures same { IfSome result (λ r. arc_value r ≡ row.now) }
    ensures less { OnSome result (IsLess s.now range row.now (root_of hop (half_as half.old)) (root_of hop (half_as half.new))) }
    ensures none { IfNone result (half_as half.new ≡ half_as half.old) }
    ensures lacks { IfNone result (AllByRecursion (λ x. Lacks row.now x.1) (root_of hop (half_as half.old))) }
{
    let taken = match half {
        Some(n) => take_from_child(n, s, hop, range, row)?,
        None => return None,
    };
    drop_half(half);
    Some(taken)
}

// The place of the part in which the row mostly stands: the one in which it weighs most.
fn likely_part(parts: &[Part], s: &Schema, row: &Row) -> usize
    requires lies { row_lies s.now row.now ≡ true }
    ensures { 0 < length parts.now → result < length parts.now }
{
    best_part(parts, s, row).unwrap_or(0)
}

// The place that is looked at in a turn: the likely one first, and then the others as they stand.
fn place_at(likely: usize, turn: usize) -> usize
    ensures { result ≡ place_at likely turn }
{
    if turn == 0 {
        likely
    } else if turn <= likely {
        turn - 1
    } else {
        turn
    }
}

// Takes the row out below a part.
#[cycle(takes)]
fn take_from_parts(
    parts: &mut Vec<Part>,
    s: &Schema,
    range: NodeRange,
    row: &Row,
) -> Option<Arc<Row>>
    requires lies { row_lies s.now row.now ≡ true }
    requires bounded { is_bounded range ≡ true }
    requires rising { is_rising range ≡ true }
    requires right { AllByRecursion (IsRightBelow s.now range) (roots_of (parts_as parts.old.items)) }
    ensures same { IfSome result (λ r. arc_value r ≡ row.now) }
    ensures less { OnSome result (IsLess s.now range row.now (roots_of (parts_as parts.old.items)) (roots_of (parts_as parts.new.items))) }
    ensures none { IfNone result (parts_as parts.new.items ≡ parts_as parts.old.items) }
    ensures lacks { IfNone result (AllByRecursion (λ x. Lacks row.now x.1) (roots_of (parts_as parts.old.items))) }
{
    let likely = likely_part(parts.as_slice(), s, row);
    for turn in 0..parts.len() {
        let place = place_at(likely, turn);
        let hop = Hop::Part(parts[place].attr);
        if let Some(taken) = take_from_child(&mut parts[place].root, s, hop, range, row) {
            drop_part(parts, place);
            return Some(taken);
        }
    }
    None
}

// Takes the row out below a node. A leaf has it only where it may pass to no child.
#[cycle(takes)]
fn take_from(n: &mut Node, s: &Schema, range: NodeRange, row: &Row) -> Option<Arc<Row>>
    requires lies { row_lies s.now row.now ≡ true }
    requires bounded { is_bounded range ≡ true }
    requires rising { is_rising range ≡ true }
    requires right { IsRightIn s.now range (plain n.old) }
    ensures same { IfSome result (λ r. arc_value r ≡ row.now) }
    ensures taken { OnSome result (IsPermutation (rows_below (plain n.old)) (row.now ∷ rows_below (plain n.new))) }
    ensures right { (used : List AttrNo) → IsRight s.now (known range used) (plain n.old) → IsRight s.now (known range used) (plain n.new) }
    ensures none { IfNone result (plain n.new ≡ plain n.old) }
    ensures lacks { IfNone result (Lacks row.now (plain n.old)) }
{
    if !has_way(n, s, range, row) {
        return take_row(&mut n.leaf, row);
    }
    let Node {
        leaf: _,
        parts,
        low,
        high,
    } = n;
    if let Some(taken) = take_from_half(low, s, Hop::Low, range, row) {
        return Some(taken);
    }
    if let Some(taken) = take_from_half(high, s, Hop::High, range, row) {
        return Some(taken);
    }
    take_from_parts(parts, s, range, row)
}

/// Takes the row out below a node, and drops the nodes below it that are left without a row. It takes no memory.
pub fn take_below(n: &mut Node, s: &Schema, k: &Spot, row: &Row) -> Option<Arc<Row>>
    requires lies { row_lies s.now row.now ≡ true }
    requires right { IsRight s.now (known_of k.now) (plain n.old) }
    ensures there { IsSome result ↔ Contains (rows_below (plain n.old)) row.now }
    ensures same { IfSome result (λ r. arc_value r ≡ row.now) }
    ensures taken { OnSome result (IsPermutation (rows_below (plain n.old)) (row.now ∷ rows_below (plain n.new))) }
    ensures none { IfNone result (plain n.new ≡ plain n.old) }
    ensures right { IsRight s.now (known_of k.now) (plain n.new) }
{
    take_from(n, s, k.range, row)
}

/// Takes the row out of the tree. A row counts as there only where all its fields are equal. It enters the parts whose attributes
/// the row has, the one in which it weighs most first, and the halves that enclose its span until it is found, and drops the
/// nodes that are left without a row. It takes no memory.
pub fn take(t: &mut Tree, row: &Row) -> Option<Arc<Row>>
    ensures there { IsSome result ↔ (row_at (id_of row.now) (contents (plain t.old.root)) ≡ Some row.now) }
    ensures same { IfSome result (λ r. arc_value r ≡ row.now) }
    ensures taken { OnSome result (contents (plain t.new.root) ≡ without_id (id_of row.now) (contents (plain t.old.root))) }
    ensures none { IfNone result (plain t.new.root ≡ plain t.old.root) }
    ensures schema { t.new.schema ≡ t.old.schema }
    ensures alpha { t.new.alpha ≡ t.old.alpha }
{
    if !row.lies(&t.schema) {
        return None;
    }
    take_from(&mut t.root, &t.schema, None, row)
}
