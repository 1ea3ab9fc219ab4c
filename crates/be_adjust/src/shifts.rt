//! Shifts of a row from one part of a node to another.

ghost use Rattle.std.specs.Prelude.{◌≡◌, ◌↔◌, true, false, [], ◌∷◌, IsPermutation, MatchOption, OnOk, OnErr};
ghost use Rattle.std.specs.Arc.{arc_value};
ghost use Rattle.be_model.specs.ByIds.{ids_differ};
ghost use Rattle.be_model.specs.Rows.{id_of};
ghost use Rattle.be_model.specs.Schemas.{IsSchema};
ghost use Rattle.be_model.specs.declared.paths.Hop.TheVariants.{Part};
ghost use Rattle.be_model.specs.declared.paths.Step.TheVariants.{Shift};
ghost use Rattle.be_model.specs.declared.paths.StepDone.TheVariants.{Done, NotHere};
ghost use Rattle.be_shape.specs.Plain.{plain, rows_below, contents};
ghost use Rattle.be_shape.specs.Paths.{child, walk};
ghost use Rattle.be_shape.specs.Shape.{nothing};
ghost use Rattle.be_shape.specs.Children.{known_below};
ghost use Rattle.be_shape.specs.Right.{IsRight};
ghost use Rattle.be_shape.specs.Spots.{known_of};
ghost use Rattle.be_shape.specs.Steps.{at_end, can_shift, IsShifted, IsShiftedAt, stands, IsMade};
ghost use Rattle.be_adjust.specs.Shifts.{MayShift, MayShiftAt, PartTakes, PlacedBelow};

use crate::finds::find_in_node;
use be_base::{AttrNo, Id, NoMemory};
use be_insert::place_below;
use be_model::{Hop, Path, Row, Schema, StepDone};
use be_remove::take_below_part;
use be_shape::{Node, Spot, Tree, child, swap_at, walk};
use std::sync::Arc;

// The row of the id below the first part, where the second is there too and the row has its attribute.
fn find_below<'a>(n: &'a Node, from: AttrNo, to: AttrNo, id: Id) -> Option<&'a Arc<Row>>
    ensures { MatchOption result (can_shift from to id.0 (plain n.now) ≡ false) (λ r. MayShift from to id.0 (plain n.now) (arc_value r.now)) }
{
    if from.0 == to.0 {
        return None;
    }
    match (child(n, Hop::Part(from)), child(n, Hop::Part(to))) {
        (Some(below), Some(_)) => find_in_node(below, to, id),
        _ => None,
    }
}

// The same at the end of a path.
fn find_at<'a>(t: &'a Tree, hops: &[Hop], from: AttrNo, to: AttrNo, id: Id) -> Option<&'a Arc<Row>>
    ensures { MatchOption result (at_end (λ k n. can_shift from to id.0 n) (arc_value t.now.schema) hops.now (plain t.now.root) ≡ false) (λ r. MayShiftAt from to id.0 (walk hops.now (plain t.now.root)) (arc_value r.now)) }
{
    match walk(&t.root, hops) {
        Some(n) => find_below(n, from, to, id),
        None => None,
    }
}

// Places the row below a part of the node, which is taken out of its place and put back.
fn place_in_part(
    n: &mut Node,
    s: &Schema,
    alpha: u8,
    below: &mut Spot,
    to: AttrNo,
    row: Arc<Row>,
) -> Result<(), NoMemory>
    requires there { PartTakes s.now (known_of below.old) (arc_value row) (child (Part to) (plain n.old)) }
    ensures placed { OnOk result (PlacedBelow s.now (known_of below.old) (Part to) (arc_value row) (plain n.old) (plain n.new) []) }
    ensures refused { OnErr result (PlacedBelow s.now (known_of below.old) (Part to) (arc_value row) (plain n.old) (plain n.new) (arc_value row ∷ [])) }
{
    let hops = [Hop::Part(to)];
    let mut part = Node::make(*n.parts.allocator());
    swap_at(n, &hops, &mut part);
    let placed = place_below(&mut part, s, alpha, below, row);
    swap_at(n, &hops, &mut part);
    match placed {
        Ok(()) => Ok(()),
        Err((_, NoMemory)) => Err(NoMemory),
    }
}

// Places the row below the second part, and then takes it out below the first.
fn shift_row(
    n: &mut Node,
    s: &Schema,
    alpha: u8,
    k: &Spot,
    below: &mut Spot,
    from: AttrNo,
    to: AttrNo,
    row: Arc<Row>,
) -> Result<(), NoMemory>
    requires form { IsSchema s.now }
    requires right { IsRight s.now (known_of k.now) (plain n.old) }
    requires differ { ids_differ (rows_below (plain n.old)) ≡ true }
    requires below { known_of below.old ≡ known_below s.now (Part to) (known_of k.now) }
    requires may { MayShift from to (id_of (arc_value row)) (plain n.old) (arc_value row) }
    ensures right { IsRight s.now (known_of k.now) (plain n.new) }
    ensures rows { IsPermutation (rows_below (plain n.old)) (rows_below (plain n.new)) }
    ensures done { OnOk result (IsShifted from to (id_of (arc_value row)) (plain n.old) (plain n.new)) }
{
    let same = Arc::try_clone(&row)?;
    place_in_part(n, s, alpha, below, to, row)?;
    match take_below_part(n, s, k, from, &same) {
        Some(_) => Ok(()),
        None => unreachable!(),
    }
}

// Shifts the row at the end of the path: the node is taken out of its place, changed, and put back.
fn shift_at(
    root: &mut Node,
    s: &Schema,
    alpha: u8,
    hops: &[Hop],
    from: AttrNo,
    to: AttrNo,
    row: Arc<Row>,
) -> Result<(), NoMemory>
    requires form { IsSchema s.now }
    requires right { IsRight s.now nothing (plain root.old) }
    requires differ { ids_differ (rows_below (plain root.old)) ≡ true }
    requires may { MayShiftAt from to (id_of (arc_value row)) (walk hops.now (plain root.old)) (arc_value row) }
    ensures right { IsRight s.now nothing (plain root.new) }
    ensures rows { IsPermutation (rows_below (plain root.old)) (rows_below (plain root.new)) }
    ensures done { OnOk result (IsShiftedAt from to (id_of (arc_value row)) hops.now (plain root.old) (plain root.new)) }
{
    let alloc = *root.parts.allocator();
    let spot = Spot::along(alloc, s, hops)?;
    let mut below = Spot::along(alloc, s, hops)?;
    below.enter(s, Hop::Part(to))?;
    let mut here = Node::make(alloc);
    swap_at(root, hops, &mut here);
    let done = shift_row(&mut here, s, alpha, &spot, &mut below, from, to, row);
    swap_at(root, hops, &mut here);
    done
}

/// Moves the row of the id from one part of the node at the end of the path to another. It is placed below the second part
/// before it is taken out below the first; where memory is wanting in between, the contents are as before, and the tree may
/// have another shape.
pub fn shift(t: &mut Tree, path: &Path, from: AttrNo, to: AttrNo, id: Id) -> StepDone
    ensures not_here { result ≡ NotHere ↔ stands (arc_value t.old.schema) (Shift path.now from to id) (plain t.old.root) ≡ false }
    ensures done { result ≡ Done → IsMade (arc_value t.old.schema) (Shift path.now from to id) (plain t.old.root) (plain t.new.root) }
    ensures nothing { result ≡ NotHere → plain t.new.root ≡ plain t.old.root }
    ensures contents { contents (plain t.new.root) ≡ contents (plain t.old.root) }
    ensures schema { t.new.schema ≡ t.old.schema }
    ensures alpha { t.new.alpha ≡ t.old.alpha }
{
    let hops = path.hops();
    let Some(row) = find_at(t, hops, from, to, id) else {
        return StepDone::NotHere;
    };
    let Ok(row) = Arc::try_clone(row) else {
        return StepDone::Skipped;
    };
    // The count shows the form of the schema.
    let _ = t.schema.count();
    match shift_at(&mut t.root, &t.schema, t.alpha, hops, from, to, row) {
        Ok(()) => StepDone::Done,
        Err(NoMemory) => StepDone::Skipped,
    }
}
