//! A row below one part of a node.

ghost use Rattle.std.specs.Prelude.{◌≡◌, ◌≢◌, ◌↔◌, ◌∷◌, true, IsPermutation, IsSome, IfSome, OnSome, IfNone, MatchOption, None};
ghost use Rattle.std.specs.List.{Contains, AllByRecursion};
ghost use Rattle.std.specs.Arc.{arc_value};
ghost use Rattle.be_base.specs.declared.names.AttrNo.{AttrNo};
ghost use Rattle.be_model.specs.declared.paths.Hop.{Hop};
ghost use Rattle.be_model.specs.Forms.{attrs_rise};
ghost use Rattle.be_model.specs.Lies.{row_lies};
ghost use Rattle.be_shape.specs.Plain.{plain, parts_as, rows_below, leaf_of};
ghost use Rattle.be_shape.specs.Shape.{attrs_of};
ghost use Rattle.be_shape.specs.Paths.{child, part_on};
ghost use Rattle.be_shape.specs.Ranges.{is_bounded, is_rising};
ghost use Rattle.be_shape.specs.Right.{IsRight};
ghost use Rattle.be_shape.specs.Spots.{known_of};
ghost use Rattle.be_shape.specs.Steps.{rows_at};
ghost use Rattle.be_shape.specs.Children.{roots_of};
ghost use Rattle.be_shape.specs.Less.{IsRightBelow, IsLess};
ghost use Rattle.be_remove.specs.Taken.{is_first, rows_on, without_bare};

use crate::leaves::{drop_half, drop_part};
use crate::takes::take_from_child;
use be_base::AttrNo;
use be_model::{Hop, Row, Schema};
use be_shape::{Node, NodeRange, Part, Spot};
use std::sync::Arc;

// The place of the part of an attribute.
fn place_of(parts: &[Part], a: AttrNo) -> Option<usize>
    ensures { MatchOption result (part_on a (parts_as parts.now) ≡ None) (λ place. is_first a place (parts_as parts.now) ≡ true) }
{
    let mut place = 0;
    for part in parts {
        if part.attr.0 == a.0 {
            return Some(place);
        }
        place += 1;
    }
    None
}

// Takes the row out below the part of an attribute among parts that rise.
fn take_from_part(
    parts: &mut Vec<Part>,
    s: &Schema,
    a: AttrNo,
    range: NodeRange,
    row: &Row,
) -> Option<Arc<Row>>
    requires lies { row_lies s.now row.now ≡ true }
    requires bounded { is_bounded range ≡ true }
    requires rising { is_rising range ≡ true }
    requires right { AllByRecursion (IsRightBelow s.now range) (roots_of (parts_as parts.old.items)) }
    requires rise { attrs_rise (attrs_of (parts_as parts.old.items)) ≡ true }
    ensures same { IfSome result (λ r. arc_value r ≡ row.now) }
    ensures less { OnSome result (IsLess s.now range row.now (roots_of (parts_as parts.old.items)) (roots_of (parts_as parts.new.items))) }
    ensures taken { OnSome result (IsPermutation (rows_on a (parts_as parts.old.items)) (row.now ∷ rows_on a (parts_as parts.new.items))) }
    ensures others { (b : AttrNo) → b ≢ a → part_on b (parts_as parts.new.items) ≡ part_on b (parts_as parts.old.items) }
    ensures none { IfNone result (parts_as parts.new.items ≡ parts_as parts.old.items) }
    ensures lacks { IfNone result (Contains (rows_on a (parts_as parts.old.items)) row.now → ⊥) }
{
    let place = place_of(parts.as_slice(), a)?;
    let hop = Hop::Part(parts[place].attr);
    let taken = take_from_child(&mut parts[place].root, s, hop, range, row)?;
    drop_part(parts, place);
    Some(taken)
}

/// Takes the row out below the part of an attribute, and drops the part where it is left without a row. The row may stand
/// elsewhere below the node too. It takes no memory.
pub fn take_below_part(n: &mut Node, s: &Schema, k: &Spot, a: AttrNo, row: &Row) -> Option<Arc<Row>>
    requires lies { row_lies s.now row.now ≡ true }
    requires right { IsRight s.now (known_of k.now) (plain n.old) }
    ensures there { IsSome result ↔ Contains (rows_at (Hop.Part a) (plain n.old)) row.now }
    ensures same { IfSome result (λ r. arc_value r ≡ row.now) }
    ensures taken { OnSome result (IsPermutation (rows_at (Hop.Part a) (plain n.old)) (row.now ∷ rows_at (Hop.Part a) (plain n.new))) }
    ensures rows { OnSome result (IsPermutation (rows_below (plain n.old)) (row.now ∷ rows_below (plain n.new))) }
    ensures others { (hop : Hop) → hop ≢ Hop.Part a → child hop (plain n.new) ≡ child hop (plain n.old) }
    ensures leaf { leaf_of (plain n.new) ≡ leaf_of (plain n.old) }
    ensures none { IfNone result (plain n.new ≡ plain n.old) }
    ensures right { IsRight s.now (known_of k.now) (plain n.new) }
{
    take_from_part(&mut n.parts, s, a, k.range, row)
}

/// Drops the child at the end of a step where it has no rows, parts or halves, and so none below. It takes no memory.
pub fn drop_bare(n: &mut Node, hop: Hop)
    ensures { plain n.new ≡ without_bare hop (plain n.old) }
{
    match hop {
        Hop::Part(a) => {
            if let Some(place) = place_of(n.parts.as_slice(), a) {
                drop_part(&mut n.parts, place);
            }
        }
        Hop::Low => drop_half(&mut n.low),
        Hop::High => drop_half(&mut n.high),
    }
}
