//! The way through the nodes of a tree.

ghost use Rattle.std.specs.Prelude.{◌≡◌, ◌-◌, ◌∷◌, [], ◌++◌, true, length, take, Some, OnOk};
ghost use Rattle.std.specs.Arc.{arc_value};
ghost use Rattle.be_model.specs.declared.paths.Step.TheVariants.{Merge};
ghost use Rattle.be_shape.specs.Plain.{plain, half_as, part_as};
ghost use Rattle.be_shape.specs.Shape.{known, in_part};
ghost use Rattle.be_shape.specs.Ranges.{is_bounded, is_rising};
ghost use Rattle.be_shape.specs.Paths.{child, in_half};
ghost use Rattle.be_shape.specs.Children.{known_below};
ghost use Rattle.be_shape.specs.NodeList.{node_at, nodes_from, nodes_in_half};
ghost use Rattle.be_shape.specs.Spots.{known_of, CanLeave, used_above};
ghost use Rattle.be_plan.specs.Merges.{are_full};
ghost use Rattle.be_plan.specs.Plan.{merges, shifts, part_splits, half_splits};
ghost use Rattle.be_plan.specs.Best.{IsAt, first, better, after_others, best_after, below_after};

use crate::bests::{Best, HALF_SPLITS, MERGES, PART_SPLITS, SHIFTS};
use crate::fulls::are_full;
use crate::merges::{Above, may_merge};
use crate::shifts::shift_at;
use crate::splits::{half_split_at, part_split_at};
use be_base::NoMemory;
use be_model::{Hop, Path, Step};
use be_shape::{Node, NodeRange, Part, Spot, Tree};

// Looks at the child that a step leads to, as one to be merged, but where all children are too full for that.
fn look_at_merge(
    t: &Tree,
    n: &Node,
    full: bool,
    hop: Hop,
    m: &Node,
    k: &Spot,
    path: &Path,
    best: &mut Best,
) -> Result<(), NoMemory>
    requires at { IsAt (arc_value t.now.schema) (plain t.now.root) path.now (known_of k.now) (plain n.now) }
    requires full { full ≡ are_full (plain n.now) }
    requires there { child hop (plain n.now) ≡ Some (plain m.now) }
    ensures { OnOk result (best.new ≡ better MERGES (first (arc_value t.now.schema) (plain t.now.root) (Merge (path.now ++ hop ∷ []) ∷ [])) best.old) }
{
    if full {
        return Ok(());
    }
    if best.sought <= MERGES {
        return Ok(());
    }
    let above = Above {
        node: n,
        hop,
        range: k.range,
    };
    if !may_merge(&above, m, &t.schema) {
        return Ok(());
    }
    let mut path = path.copy()?;
    path.push(hop)?;
    best.put(MERGES, Step::Merge { path });
    Ok(())
}

fn look_at_shift(t: &Tree, n: &Node, k: &Spot, path: &Path, best: &mut Best) -> Result<(), NoMemory>
    requires { IsAt (arc_value t.now.schema) (plain t.now.root) path.now (known_of k.now) (plain n.now) }
    ensures { OnOk result (best.new ≡ better SHIFTS (first (arc_value t.now.schema) (plain t.now.root) (shifts (arc_value t.now.schema) (node_at path.now (known_of k.now) (plain n.now)))) best.old) }
{
    if best.sought <= SHIFTS {
        return Ok(());
    }
    let Some((from, id, to)) = shift_at(n, &t.schema) else {
        return Ok(());
    };
    let path = path.copy()?;
    best.put(SHIFTS, Step::Shift { path, from, to, id });
    Ok(())
}

pub(crate) fn look_at_part_split(
    t: &Tree,
    n: &Node,
    k: &Spot,
    path: &Path,
    best: &mut Best,
) -> Result<(), NoMemory>
    requires { IsAt (arc_value t.now.schema) (plain t.now.root) path.now (known_of k.now) (plain n.now) }
    ensures { OnOk result (best.new ≡ better PART_SPLITS (first (arc_value t.now.schema) (plain t.now.root) (part_splits (arc_value t.now.schema) t.now.alpha (node_at path.now (known_of k.now) (plain n.now)))) best.old) }
{
    if best.sought <= PART_SPLITS {
        return Ok(());
    }
    let Some(attr) = part_split_at(&n.leaf, &t.schema, k, t.alpha) else {
        return Ok(());
    };
    let path = path.copy()?;
    best.put(PART_SPLITS, Step::SplitPart { path, attr });
    Ok(())
}

pub(crate) fn look_at_half_split(
    t: &Tree,
    n: &Node,
    k: &Spot,
    path: &Path,
    best: &mut Best,
) -> Result<(), NoMemory>
    requires { IsAt (arc_value t.now.schema) (plain t.now.root) path.now (known_of k.now) (plain n.now) }
    ensures { OnOk result (best.new ≡ better HALF_SPLITS (first (arc_value t.now.schema) (plain t.now.root) (half_splits (arc_value t.now.schema) (node_at path.now (known_of k.now) (plain n.now)))) best.old) }
{
    if best.sought <= HALF_SPLITS {
        return Ok(());
    }
    let Some(half) = half_split_at(&n.leaf, &t.schema, k) else {
        return Ok(());
    };
    let path = path.copy()?;
    best.put(HALF_SPLITS, Step::SplitHalf { path, half });
    Ok(())
}

// Looks for the steps at a node that aren't merges.
fn look(t: &Tree, n: &Node, k: &Spot, path: &Path, best: &mut Best) -> Result<(), NoMemory>
    requires { IsAt (arc_value t.now.schema) (plain t.now.root) path.now (known_of k.now) (plain n.now) }
    ensures { OnOk result (best.new ≡ after_others (arc_value t.now.schema) t.now.alpha (plain t.now.root) (node_at path.now (known_of k.now) (plain n.now)) best.old) }
{
    look_at_shift(t, n, k, path, best)?;
    look_at_part_split(t, n, k, path, best)?;
    look_at_half_split(t, n, k, path, best)
}

/// Looks at a child as one to be merged, and goes down to it.
pub(crate) fn go_down(
    t: &Tree,
    n: &Node,
    full: bool,
    hop: Hop,
    m: &Node,
    k: &mut Spot,
    path: &mut Path,
    best: &mut Best,
) -> Result<(), NoMemory>
    requires at { IsAt (arc_value t.now.schema) (plain t.now.root) path.old (known_of k.old) (plain n.now) }
    requires full { full ≡ are_full (plain n.now) }
    requires there { child hop (plain n.now) ≡ Some (plain m.now) }
    ensures best { OnOk result (best.new ≡ better MERGES (first (arc_value t.now.schema) (plain t.now.root) (Merge (path.old ++ hop ∷ []) ∷ [])) best.old) }
    ensures path { OnOk result (path.new ≡ path.old ++ hop ∷ []) }
    ensures known { OnOk result (known_of k.new ≡ known_below (arc_value t.now.schema) hop (known_of k.old)) }
{
    look_at_merge(t, n, full, hop, m, k, path, best)?;
    path.push(hop)?;
    k.enter(&t.schema, hop)?;
    Ok(())
}

/// Goes back up the step, to a node of this range.
pub(crate) fn go_up(hop: Hop, range: NodeRange, k: &mut Spot, path: &mut Path)
    requires bounded { is_bounded range ≡ true }
    requires rising { is_rising range ≡ true }
    requires used { CanLeave hop (known_of k.old).used }
    ensures path { path.new ≡ take (length path.old - 1) path.old }
    ensures known { known_of k.new ≡ known range (used_above hop (known_of k.old).used) }
{
    k.leave(hop, range);
    let _ = path.pop();
}

// Looks at a node, but as one to be merged, and at all nodes below it. Path and spot come back as they were.
#[cycle(seeks)]
pub(crate) fn seek(
    t: &Tree,
    n: &Node,
    k: &mut Spot,
    path: &mut Path,
    best: &mut Best,
) -> Result<(), NoMemory>
    requires { IsAt (arc_value t.now.schema) (plain t.now.root) path.old (known_of k.old) (plain n.now) }
    ensures best { OnOk result (best.new ≡ below_after (arc_value t.now.schema) t.now.alpha (plain t.now.root) (nodes_from (arc_value t.now.schema) path.old (known_of k.old) (plain n.now)) best.old) }
    ensures path { OnOk result (path.new ≡ path.old) }
    ensures known { OnOk result (known_of k.new ≡ known_of k.old) }
{
    // A merge was found: nothing is better.
    if best.sought == MERGES {
        return Ok(());
    }
    let full = are_full(n);
    look(t, n, k, path, best)?;
    for part in n.parts.as_slice() {
        seek_part(t, part, n, full, k, path, best)?;
    }
    seek_half(t, &n.low, Hop::Low, n, full, k, path, best)?;
    seek_half(t, &n.high, Hop::High, n, full, k, path, best)?;
    Ok(())
}

// Looks at the root of a part and at all nodes below it.
#[cycle(seeks)]
fn seek_part(
    t: &Tree,
    part: &Part,
    n: &Node,
    full: bool,
    k: &mut Spot,
    path: &mut Path,
    best: &mut Best,
) -> Result<(), NoMemory>
    requires at { IsAt (arc_value t.now.schema) (plain t.now.root) path.old (known_of k.old) (plain n.now) }
    requires full { full ≡ are_full (plain n.now) }
    requires there { child (Hop.Part (part_as part.now).0) (plain n.now) ≡ Some (part_as part.now).1 }
    ensures best { OnOk result (best.new ≡ best_after (arc_value t.now.schema) t.now.alpha (plain t.now.root) (nodes_from (arc_value t.now.schema) (path.old ++ Hop.Part (part_as part.now).0 ∷ []) (in_part (arc_value t.now.schema) (part_as part.now).0 (known_of k.old)) (part_as part.now).1) best.old) }
    ensures path { OnOk result (path.new ≡ path.old) }
    ensures known { OnOk result (known_of k.new ≡ known_of k.old) }
{
    let hop = Hop::Part(part.attr);
    let range = k.range;
    go_down(t, n, full, hop, &part.root, k, path, best)?;
    seek(t, &part.root, k, path, best)?;
    go_up(hop, range, k, path);
    Ok(())
}

// Looks at a half that is there and at all nodes below it.
#[cycle(seeks)]
fn seek_half(
    t: &Tree,
    half: &Option<Box<Node>>,
    hop: Hop,
    n: &Node,
    full: bool,
    k: &mut Spot,
    path: &mut Path,
    best: &mut Best,
) -> Result<(), NoMemory>
    requires at { IsAt (arc_value t.now.schema) (plain t.now.root) path.old (known_of k.old) (plain n.now) }
    requires full { full ≡ are_full (plain n.now) }
    requires there { child hop (plain n.now) ≡ in_half (half_as half.now) }
    ensures best { OnOk result (best.new ≡ best_after (arc_value t.now.schema) t.now.alpha (plain t.now.root) (nodes_in_half (arc_value t.now.schema) (path.old ++ hop ∷ []) (known_below (arc_value t.now.schema) hop (known_of k.old)) (half_as half.now)) best.old) }
    ensures path { OnOk result (path.new ≡ path.old) }
    ensures known { OnOk result (known_of k.new ≡ known_of k.old) }
{
    let Some(m) = half else {
        return Ok(());
    };
    let range = k.range;
    go_down(t, n, full, hop, m, k, path, best)?;
    seek(t, m, k, path, best)?;
    go_up(hop, range, k, path);
    Ok(())
}
