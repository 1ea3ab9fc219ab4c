//! Splits of a leaf.

ghost use Rattle.std.specs.Prelude.{◌≡◌, ◌<◌, ◌≤◌, ◌+◌, ◌-◌, ◌++◌, true, false, not, [], length, take, filter, slice_get, Some, None, nat_le, vec_len, vec_capacity, if◌then◌else◌, IsPermutation, OnOk, OnErr, IfOk, IfErr};
ghost use Rattle.std.specs.List.{list_all, list_any};
ghost use Rattle.std.specs.Arc.{arc_value};
ghost use Rattle.be_base.specs.declared.limits.TheConstants.{LEAF_ROWS};
ghost use Rattle.be_model.specs.Lies.{row_lies};
ghost use Rattle.be_shape.specs.Plain.{plain, parts_as, node, no_part, no_half, leaf_of, rows_below};
ghost use Rattle.be_shape.specs.Paths.{child};
ghost use Rattle.be_shape.specs.Ranges.{is_bounded, is_rising};
ghost use Rattle.be_shape.specs.Children.{is_open, known_below, may_pass, with_part, with_child, with_leaf};
ghost use Rattle.be_shape.specs.Spots.{known_of};
ghost use Rattle.be_insert.specs.Refusals.{back};
ghost use Rattle.be_shape.specs.Right.{IsRight};
ghost use Rattle.be_insert.specs.Filled.{IsFilled};
ghost use Rattle.be_insert.specs.Rooms.{HasRoom, part_place};

use crate::leaves::{choose, first_loose, is_overfull, move_rows};
use be_base::{AttrNo, NoMemory};
use be_model::{Hop, Row, Schema};
use be_shape::{Node, NodeRange, Part, Spot};
use std::sync::Arc;

/// Takes the last row of the leaf out. It takes no memory.
pub(crate) fn take_last(n: &mut Node) -> Arc<Row>
    requires { 0 < length (leaf_of (plain n.old)) }
    ensures row { slice_get (leaf_of (plain n.old)) (length (leaf_of (plain n.old)) - 1) ≡ Some (arc_value result) }
    ensures rest { plain n.new ≡ with_leaf (take (length (leaf_of (plain n.old)) - 1) (leaf_of (plain n.old))) (plain n.old) }
{
    let last = n.leaf.len() - 1;
    n.leaf.take(last)
}

/// Moves the rows of the leaf that may pass the step into a new node. It takes no memory.
pub(crate) fn draw_off(
    n: &mut Node,
    below: &mut Node,
    s: &Schema,
    hop: Hop,
    range: NodeRange,
    first: usize,
)
    requires lie { list_all (row_lies s.now) (leaf_of (plain n.old)) ≡ true }
    requires bounded { is_bounded range ≡ true }
    requires rising { is_rising range ≡ true }
    requires within { first ≤ length (leaf_of (plain n.old)) }
    requires before { list_all (λ row. not (may_pass s.now hop range row)) (take first (leaf_of (plain n.old))) ≡ true }
    requires empty { plain below.old ≡ node [] no_part no_half no_half }
    requires few { length (filter (may_pass s.now hop range) (leaf_of (plain n.old))) ≤ LEAF_ROWS + 1 }
    requires room { HasRoom hop n.old }
    ensures left { plain n.new ≡ with_leaf (filter (λ row. not (may_pass s.now hop range row)) (leaf_of (plain n.old))) (plain n.old) }
    ensures moved { plain below.new ≡ node (filter (may_pass s.now hop range) (leaf_of (plain n.old))) no_part no_half no_half }
    ensures room { HasRoom hop n.new }
{
    move_rows(&mut n.leaf, &mut below.leaf, s, hop, range, first);
    n.leaf.note_common();
    below.leaf.note_common();
}

/// Takes the memory of a new child: for the node, and for its place among the parts.
pub(crate) fn make_room(n: &mut Node, hop: Hop) -> Result<Box<Node>, NoMemory>
    ensures same { plain n.new ≡ plain n.old }
    ensures made { IfOk result (λ below. plain below.value ≡ node [] no_part no_half no_half) }
    ensures room { OnOk result (HasRoom hop n.new) }
{
    let alloc = *n.parts.allocator();
    let below = Box::new(alloc, Node::make(alloc))?;
    n.parts.reserve(1)?;
    Ok(below)
}

/// Takes the memory of a split, and goes to the new child.
pub(crate) fn prepare(
    n: &mut Node,
    s: &Schema,
    k: &mut Spot,
    hop: Hop,
) -> Result<Box<Node>, NoMemory>
    requires { is_open hop (known_of k.old) ≡ true }
    ensures same { plain n.new ≡ plain n.old }
    ensures made { IfOk result (λ below. plain below.value ≡ node [] no_part no_half no_half) }
    ensures room { OnOk result (HasRoom hop n.new) }
    ensures entered { OnOk result (known_of k.new ≡ known_below s.now hop (known_of k.old)) }
{
    let below = make_room(n, hop)?;
    k.enter(s, hop)?;
    Ok(below)
}

// Where a part of the attribute belongs among parts that rise.
fn place_for(parts: &[Part], a: AttrNo) -> usize
    ensures place { result ≡ part_place a (parts_as parts.now) }
    ensures within { result ≤ length parts.now }
{
    let mut place = 0;
    for part in parts {
        if a.0 < part.attr.0 {
            return place;
        }
        place += 1;
    }
    place
}

// Puts a part among parts that rise, for which there is room.
fn put_part(parts: &mut Vec<Part>, attr: AttrNo, root: Box<Node>)
    requires { vec_len parts.old < vec_capacity parts.old }
    ensures { parts_as parts.new.items ≡ with_part attr (plain root.value) (parts_as parts.old.items) }
{
    let place = place_for(parts.as_slice(), attr);
    match parts.insert(place, Part { attr, root }) {
        Ok(()) => {}
        Err(_) => unreachable!(),
    }
}

/// Puts a child at the end of a step, for which there is room.
pub(crate) fn attach(n: &mut Node, hop: Hop, below: Box<Node>)
    requires { HasRoom hop n.old }
    ensures { plain n.new ≡ with_child hop (plain below.value) (plain n.old) }
{
    match hop {
        Hop::Part(attr) => put_part(&mut n.parts, attr, below),
        Hop::Low => n.low = Some(below),
        Hop::High => n.high = Some(below),
    }
}

/// Splits a leaf that has a row too much, and so on below. Where memory is wanting, the last row is taken out again and
/// handed back, and no child is left without a row.
pub(crate) fn settle(
    n: &mut Node,
    s: &Schema,
    alpha: u8,
    k: &mut Spot,
) -> Result<(), (Arc<Row>, NoMemory)>
    requires { IsFilled s.now (known_of k.old) (plain n.old) }
    ensures right { IsRight s.now (known_of k.old) (plain n.new) }
    ensures rows { IsPermutation (rows_below (plain n.old)) (rows_below (plain n.new) ++ back result) }
    ensures last { IfErr result (λ e. slice_get (leaf_of (plain n.old)) (length (leaf_of (plain n.old)) - 1) ≡ Some (arc_value e.0)) }
    ensures many { OnErr result (LEAF_ROWS < length (leaf_of (plain n.old))) }
{
    if !is_overfull(&n.leaf, s, k) {
        return Ok(());
    }
    // The count shows the form of the schema.
    let _ = s.count();
    let first = first_loose(&n.leaf);
    let hop = choose(&n.leaf, s, alpha, k);
    let range = k.range;
    match prepare(n, s, k, hop) {
        Err(NoMemory) => Err((take_last(n), NoMemory)),
        Ok(mut below) => {
            draw_off(n, &mut below, s, hop, range, first);
            let done = settle(&mut below, s, alpha, k);
            attach(n, hop, below);
            done
        }
    }
}
