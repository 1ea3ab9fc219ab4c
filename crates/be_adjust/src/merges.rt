//! Merges of a node into the node above it.

ghost use Rattle.std.specs.Prelude.{◌≡◌, ◌≢◌, ◌↔◌, false, option_map};
ghost use Rattle.std.specs.Arc.{arc_value};
ghost use Rattle.be_model.specs.declared.paths.Step.TheVariants.{Merge};
ghost use Rattle.be_model.specs.declared.paths.StepDone.TheVariants.{Done, NotHere, Skipped};
ghost use Rattle.be_shape.specs.Plain.{plain, contents};
ghost use Rattle.be_shape.specs.Paths.{child, walk};
ghost use Rattle.be_shape.specs.Steps.{at_end, can_merge, merged, without_child, changed_at, stands, IsMade};
ghost use Rattle.be_adjust.specs.Fits.{HasRows, MayMerge};

use crate::fits::can_merge;
use crate::moves::move_node;
use be_model::{Hop, Path, StepDone};
use be_shape::{Node, Tree, place_on, swap_at, walk, walk_range};

// Takes the child at the end of the step off.
fn detach(n: &mut Node, hop: Hop) -> Option<Box<Node>>
    ensures child { option_map (λ b. plain b.value) result ≡ child hop (plain n.old) }
    ensures rest { plain n.new ≡ without_child hop (plain n.old) }
{
    match hop {
        Hop::Part(a) => {
            let place = place_on(n.parts.as_slice(), a)?;
            Some(n.parts.remove(place).root)
        }
        Hop::Low => n.low.take(),
        Hop::High => n.high.take(),
    }
}

// Moves the rows of the child at the end of the step and of all below it to the leaf, and drops the child.
fn merge_child(n: &mut Node, hop: Hop)
    requires { HasRows hop (plain n.old) (child hop (plain n.old)) }
    ensures { plain n.new ≡ merged hop (plain n.old) }
{
    match detach(n, hop) {
        Some(mut below) => move_node(&mut below, &mut n.leaf),
        None => unreachable!(),
    }
    n.leaf.note_common();
}

// Whether the merge of the child at the end of the last step stands in the tree.
fn can_merge_at(t: &Tree, hops: &[Hop], last: Hop) -> bool
    ensures { result ≡ at_end (can_merge (arc_value t.now.schema) last) (arc_value t.now.schema) hops.now (plain t.now.root) }
{
    match walk(&t.root, hops) {
        Some(n) => {
            let range = walk_range(&t.root, &t.schema, hops);
            can_merge(n, &t.schema, last, range)
        }
        None => false,
    }
}

// Merges below the node at the end of the path: it is taken out of its place, changed, and put back.
fn merge_at(root: &mut Node, hops: &[Hop], last: Hop)
    requires { MayMerge last (walk hops.now (plain root.old)) }
    ensures { (s : _) → plain root.new ≡ changed_at (λ k n. merged last n) s hops.now (plain root.old) }
{
    let mut here = Node::make(*root.parts.allocator());
    swap_at(root, hops, &mut here);
    merge_child(&mut here, last);
    swap_at(root, hops, &mut here);
}

/// Moves the rows of the node at the end of the path and of all below it to the leaf above it, and drops the node. It takes
/// no memory.
pub fn merge(t: &mut Tree, path: &Path) -> StepDone
    ensures not_here { result ≡ NotHere ↔ stands (arc_value t.old.schema) (Merge path.now) (plain t.old.root) ≡ false }
    ensures done { result ≡ Done → IsMade (arc_value t.old.schema) (Merge path.now) (plain t.old.root) (plain t.new.root) }
    ensures nothing { result ≡ NotHere → plain t.new.root ≡ plain t.old.root }
    ensures never_skipped { result ≢ Skipped }
    ensures contents { contents (plain t.new.root) ≡ contents (plain t.old.root) }
    ensures schema { t.new.schema ≡ t.old.schema }
    ensures alpha { t.new.alpha ≡ t.old.alpha }
{
    let Some((last, hops)) = path.hops().split_last() else {
        return StepDone::NotHere;
    };
    if !can_merge_at(t, hops, *last) {
        return StepDone::NotHere;
    }
    merge_at(&mut t.root, hops, *last);
    StepDone::Done
}
