//! Splits as steps of their own.

ghost use Rattle.std.specs.Prelude.{◌≡◌, ◌≢◌, ◌↔◌, ◌≤◌, true, false, [], length, Some, OnOk, OnErr};
ghost use Rattle.std.specs.List.{list_all, list_any};
ghost use Rattle.std.specs.Arc.{arc_value};
ghost use Rattle.be_base.specs.declared.limits.TheConstants.{LEAF_ROWS};
ghost use Rattle.be_model.specs.Lies.{row_lies};
ghost use Rattle.be_model.specs.declared.paths.Hop.TheVariants.{Part};
ghost use Rattle.be_model.specs.declared.paths.Step.TheVariants.{SplitPart, SplitHalf};
ghost use Rattle.be_model.specs.declared.paths.StepDone.TheVariants.{Done, NotHere};
ghost use Rattle.be_shape.specs.Plain.{plain, leaf_of, contents};
ghost use Rattle.be_shape.specs.Shape.{known, nothing};
ghost use Rattle.be_shape.specs.Ranges.{is_bounded, is_rising};
ghost use Rattle.be_shape.specs.Children.{is_open, may_pass};
ghost use Rattle.be_shape.specs.Right.{IsRight};
ghost use Rattle.be_shape.specs.NodeList.{known_along};
ghost use Rattle.be_shape.specs.Steps.{at_end, can_split_off, split_off, changed_at, stands};

use crate::splits::{attach, draw_off, make_room};
use be_base::{AttrNo, NoMemory};
use be_model::{Hop, Path, Schema, StepDone};
use be_shape::{
    Leaf, Node, NodeRange, Tree, can_split, child, count_passing, is_used_on, swap_at, walk,
    walk_range,
};

// Whether the step may be made below a node of this range at the end of the path.
fn is_open(hops: &[Hop], hop: Hop, range: NodeRange) -> bool
    ensures { (s : _) → range ≡ (known_along s hops.now nothing).range → result ≡ is_open hop (known_along s hops.now nothing) }
{
    match hop {
        Hop::Part(a) => !is_used_on(hops, a),
        Hop::Low | Hop::High => can_split(range),
    }
}

// Whether a row may pass the step.
fn any_may_pass(leaf: &Leaf, s: &Schema, hop: Hop, range: NodeRange) -> bool
    requires lie { list_all (row_lies s.now) leaf.now ≡ true }
    requires bounded { is_bounded range ≡ true }
    requires rising { is_rising range ≡ true }
    ensures { result ≡ list_any (may_pass s.now hop range) leaf.now }
{
    0 < count_passing(leaf, s, hop, range)
}

// Whether rows of the leaf of the node at the end of the path may be split off to a new child.
fn can_split_off(n: &Node, s: &Schema, hops: &[Hop], hop: Hop, range: NodeRange) -> bool
    requires right { IsRight s.now (known_along s.now hops.now nothing) (plain n.now) }
    requires at { range ≡ (known_along s.now hops.now nothing).range }
    requires bounded { is_bounded range ≡ true }
    requires rising { is_rising range ≡ true }
    ensures { result ≡ can_split_off s.now hop (known_along s.now hops.now nothing) (plain n.now) }
{
    is_open(hops, hop, range) && child(n, hop).is_none() && any_may_pass(&n.leaf, s, hop, range)
}

// Whether the split stands in the tree.
fn can_split_at(t: &Tree, hops: &[Hop], hop: Hop) -> bool
    ensures { result ≡ at_end (can_split_off (arc_value t.now.schema) hop) (arc_value t.now.schema) hops.now (plain t.now.root) }
{
    match walk(&t.root, hops) {
        Some(n) => {
            let range = walk_range(&t.root, &t.schema, hops);
            can_split_off(n, &t.schema, hops, hop, range)
        }
        None => false,
    }
}

// Makes a child of the rows of the leaf that may pass the step. It takes its memory before it moves a row.
fn split_off(n: &mut Node, s: &Schema, hop: Hop, range: NodeRange) -> Result<(), NoMemory>
    requires lie { list_all (row_lies s.now) (leaf_of (plain n.old)) ≡ true }
    requires few { length (leaf_of (plain n.old)) ≤ LEAF_ROWS }
    requires bounded { is_bounded range ≡ true }
    requires rising { is_rising range ≡ true }
    ensures done { OnOk result (plain n.new ≡ split_off s.now hop (known range []) (plain n.old)) }
    ensures refused { OnErr result (plain n.new ≡ plain n.old) }
{
    let mut below = make_room(n, hop)?;
    draw_off(n, &mut below, s, hop, range, 0);
    attach(n, hop, below);
    Ok(())
}

// Splits the node at the end of the path: it is taken out of its place, split, and put back.
fn split_at(root: &mut Node, s: &Schema, hops: &[Hop], hop: Hop) -> Result<(), NoMemory>
    requires right { IsRight s.now nothing (plain root.old) }
    requires stands { at_end (can_split_off s.now hop) s.now hops.now (plain root.old) ≡ true }
    ensures done { OnOk result (plain root.new ≡ changed_at (split_off s.now hop) s.now hops.now (plain root.old)) }
    ensures refused { OnErr result (plain root.new ≡ plain root.old) }
{
    let range = walk_range(root, s, hops);
    let mut here = Node::make(*root.parts.allocator());
    swap_at(root, hops, &mut here);
    let done = split_off(&mut here, s, hop, range);
    swap_at(root, hops, &mut here);
    done
}

fn split(t: &mut Tree, hops: &[Hop], hop: Hop) -> StepDone
    ensures not_here { result ≡ NotHere ↔ at_end (can_split_off (arc_value t.old.schema) hop) (arc_value t.old.schema) hops.now (plain t.old.root) ≡ false }
    ensures done { result ≡ Done → plain t.new.root ≡ changed_at (split_off (arc_value t.old.schema) hop) (arc_value t.old.schema) hops.now (plain t.old.root) }
    ensures same { result ≢ Done → plain t.new.root ≡ plain t.old.root }
    ensures contents { contents (plain t.new.root) ≡ contents (plain t.old.root) }
    ensures schema { t.new.schema ≡ t.old.schema }
    ensures alpha { t.new.alpha ≡ t.old.alpha }
{
    if !can_split_at(t, hops, hop) {
        return StepDone::NotHere;
    }
    // The count shows the form of the schema.
    let _ = t.schema.count();
    match split_at(&mut t.root, &t.schema, hops, hop) {
        Ok(()) => StepDone::Done,
        Err(NoMemory) => StepDone::Skipped,
    }
}

/// Moves the rows of the leaf at the end of the path that have the attribute to a new part of it.
pub fn split_part(t: &mut Tree, path: &Path, a: AttrNo) -> StepDone
    ensures not_here { result ≡ NotHere ↔ stands (arc_value t.old.schema) (SplitPart path.now a) (plain t.old.root) ≡ false }
    ensures done { result ≡ Done → plain t.new.root ≡ changed_at (split_off (arc_value t.old.schema) (Part a)) (arc_value t.old.schema) path.now (plain t.old.root) }
    ensures same { result ≢ Done → plain t.new.root ≡ plain t.old.root }
    ensures contents { contents (plain t.new.root) ≡ contents (plain t.old.root) }
    ensures schema { t.new.schema ≡ t.old.schema }
    ensures alpha { t.new.alpha ≡ t.old.alpha }
{
    split(t, path.hops(), Hop::Part(a))
}

/// Moves the rows of the leaf at the end of the path that the half encloses to a new node for it.
pub fn split_half(t: &mut Tree, path: &Path, half: Hop) -> StepDone
    ensures not_here { result ≡ NotHere ↔ stands (arc_value t.old.schema) (SplitHalf path.now half) (plain t.old.root) ≡ false }
    ensures done { result ≡ Done → plain t.new.root ≡ changed_at (split_off (arc_value t.old.schema) half) (arc_value t.old.schema) path.now (plain t.old.root) }
    ensures same { result ≢ Done → plain t.new.root ≡ plain t.old.root }
    ensures contents { contents (plain t.new.root) ≡ contents (plain t.old.root) }
    ensures schema { t.new.schema ≡ t.old.schema }
    ensures alpha { t.new.alpha ≡ t.old.alpha }
{
    match half {
        Hop::Part(_) => StepDone::NotHere,
        Hop::Low | Hop::High => split(t, path.hops(), half),
    }
}
