//! A look for a step through some of the nodes of a tree.

ghost use Rattle.std.specs.Prelude.{◌≡◌, ◌++◌, ◌∷◌, [], Some, OnOk, IfOk};
ghost use Rattle.std.specs.Arc.{arc_value};
ghost use Rattle.be_model.specs.declared.paths.Hop.{Hop};
ghost use Rattle.be_shape.specs.Plain.{plain, half_as, part_as};
ghost use Rattle.be_shape.specs.Paths.{child, in_half};
ghost use Rattle.be_shape.specs.Spots.{known_of};
ghost use Rattle.be_plan.specs.Best.{IsAt};
ghost use Rattle.be_plan.specs.Looks.{Stands};
ghost use Rattle.be_plan.specs.Merges.{are_full};

use crate::bests::{Best, SHIFTS};
use crate::fulls::are_full;
use crate::leaving::leaver_above;
use crate::seeks::{go_down, go_up, look_at_half_split, look_at_part_split};
use be_base::NoMemory;
use be_model::{Hop, Path, Step};
use be_shape::{Node, Part, Spot, Tree};
use std::alloc::Global;

/// What a look found, and where the next one begins: nowhere, where it came to the end of the tree.
#[derive(Drop)]
pub struct Look {
    pub step: Option<Step>,
    pub next: Option<Path>,
}

// A look on its way: the best step so far, how much it may still go through, and the path of the first node that it left out.
#[derive(Drop)]
struct Slice {
    best: Best,
    left: u64,
    next: Option<Path>,
}

impl Slice {
    // Whether the node is one of those that the look goes through. It costs one, and one for each row of its leaf and for each part.
    fn takes(&mut self, n: &Node, path: &Path) -> Result<bool, NoMemory>
        ensures { self.new.best ≡ self.old.best }
    {
        if self.left == 0 {
            self.next = Some(path.copy()?);
            return Ok(false);
        }
        let cost = (n.leaf.len() as u64).saturating_add(n.parts.len() as u64);
        self.left = self.left.saturating_sub(cost.saturating_add(1));
        Ok(true)
    }

    fn is_over(&self) -> bool {
        self.next.is_some()
    }
}

// The place of a child among those of its node.
fn place_of(hop: Hop) -> u32 {
    match hop {
        Hop::Part(a) => u32::from(a.0),
        Hop::Low => 65536,
        Hop::High => 65537,
    }
}

// The way that is left below a child, where the look begins at the end of this one: none where the child stands before it.
fn way_below<'a>(way: &'a [Hop], hop: Hop) -> Option<&'a [Hop]> {
    let Some((first, below)) = way.split_first() else {
        return Some(way);
    };
    if place_of(hop) < place_of(*first) {
        return None;
    }
    if place_of(*first) < place_of(hop) {
        return Some(&way[way.len()..]);
    }
    Some(below)
}

// The path of these steps.
fn path_of(alloc: Global, hops: &[Hop]) -> Result<Path, NoMemory>
    ensures { IfOk result (λ path. path ≡ hops.now) }
{
    let mut path = Path::make(alloc);
    for hop in hops {
        path.push(*hop)?;
    }
    Ok(path)
}

// Looks for a row of the node's leaf that gains by a shift at a node above.
fn look_at_leavers(
    t: &Tree,
    n: &Node,
    k: &Spot,
    path: &Path,
    best: &mut Best,
) -> Result<(), NoMemory>
    requires at { IsAt (arc_value t.now.schema) (plain t.now.root) path.now (known_of k.now) (plain n.now) }
    requires stands { Stands (arc_value t.now.schema) (plain t.now.root) best.old.step }
    ensures { OnOk result (Stands (arc_value t.now.schema) (plain t.now.root) best.new.step) }
{
    if best.sought <= SHIFTS {
        return Ok(());
    }
    let way = path.hops();
    let Some(leaver) = leaver_above(&t.root, way, &n.leaf, &t.schema) else {
        return Ok(());
    };
    let above = path_of(*t.root.parts.allocator(), &way[..leaver.depth])?;
    let step = Step::Shift {
        path: above,
        from: leaver.from,
        to: leaver.to,
        id: leaver.id,
    };
    best.put(SHIFTS, step);
    Ok(())
}

// Looks at a node for all steps but its own merge.
fn look_here(t: &Tree, n: &Node, k: &Spot, path: &Path, best: &mut Best) -> Result<(), NoMemory>
    requires at { IsAt (arc_value t.now.schema) (plain t.now.root) path.now (known_of k.now) (plain n.now) }
    requires stands { Stands (arc_value t.now.schema) (plain t.now.root) best.old.step }
    ensures { OnOk result (Stands (arc_value t.now.schema) (plain t.now.root) best.new.step) }
{
    look_at_leavers(t, n, k, path, best)?;
    look_at_part_split(t, n, k, path, best)?;
    look_at_half_split(t, n, k, path, best)?;
    Ok(())
}

// Looks at a node where the way ends, if it is still one of those that the look goes through.
fn look_at_end(
    t: &Tree,
    n: &Node,
    way: &[Hop],
    k: &Spot,
    path: &Path,
    slice: &mut Slice,
) -> Result<(), NoMemory>
    requires at { IsAt (arc_value t.now.schema) (plain t.now.root) path.now (known_of k.now) (plain n.now) }
    requires stands { Stands (arc_value t.now.schema) (plain t.now.root) slice.old.best.step }
    ensures { OnOk result (Stands (arc_value t.now.schema) (plain t.now.root) slice.new.best.step) }
{
    if !way.is_empty() {
        return Ok(());
    }
    if !slice.takes(n, path)? {
        return Ok(());
    }
    look_here(t, n, k, path, &mut slice.best)
}

// Goes through the nodes from that at the end of the way on, which begins at this one.
#[cycle(looks)]
fn look_from(
    t: &Tree,
    n: &Node,
    way: &[Hop],
    k: &mut Spot,
    path: &mut Path,
    slice: &mut Slice,
) -> Result<(), NoMemory>
    requires at { IsAt (arc_value t.now.schema) (plain t.now.root) path.old (known_of k.old) (plain n.now) }
    requires stands { Stands (arc_value t.now.schema) (plain t.now.root) slice.old.best.step }
    ensures stands { OnOk result (Stands (arc_value t.now.schema) (plain t.now.root) slice.new.best.step) }
    ensures path { OnOk result (path.new ≡ path.old) }
    ensures known { OnOk result (known_of k.new ≡ known_of k.old) }
{
    look_at_end(t, n, way, k, path, slice)?;
    let full = are_full(n);
    for part in n.parts.as_slice() {
        look_in_part(t, part, n, full, way, k, path, slice)?;
    }
    look_in_half(t, &n.low, Hop::Low, n, full, way, k, path, slice)?;
    look_in_half(t, &n.high, Hop::High, n, full, way, k, path, slice)
}

// The same of a part of the node, where the way doesn't lead past it.
#[cycle(looks)]
fn look_in_part(
    t: &Tree,
    part: &Part,
    n: &Node,
    full: bool,
    way: &[Hop],
    k: &mut Spot,
    path: &mut Path,
    slice: &mut Slice,
) -> Result<(), NoMemory>
    requires at { IsAt (arc_value t.now.schema) (plain t.now.root) path.old (known_of k.old) (plain n.now) }
    requires full { full ≡ are_full (plain n.now) }
    requires there { child (Hop.Part (part_as part.now).0) (plain n.now) ≡ Some (part_as part.now).1 }
    requires stands { Stands (arc_value t.now.schema) (plain t.now.root) slice.old.best.step }
    ensures stands { OnOk result (Stands (arc_value t.now.schema) (plain t.now.root) slice.new.best.step) }
    ensures path { OnOk result (path.new ≡ path.old) }
    ensures known { OnOk result (known_of k.new ≡ known_of k.old) }
{
    let hop = Hop::Part(part.attr);
    let Some(way) = way_below(way, hop) else {
        return Ok(());
    };
    if slice.is_over() {
        return Ok(());
    }
    let range = k.range;
    go_down(t, n, full, hop, &part.root, k, path, &mut slice.best)?;
    look_from(t, &part.root, way, k, path, slice)?;
    go_up(hop, range, k, path);
    Ok(())
}

// The same of a half that is there.
#[cycle(looks)]
fn look_in_half(
    t: &Tree,
    half: &Option<Box<Node>>,
    hop: Hop,
    n: &Node,
    full: bool,
    way: &[Hop],
    k: &mut Spot,
    path: &mut Path,
    slice: &mut Slice,
) -> Result<(), NoMemory>
    requires at { IsAt (arc_value t.now.schema) (plain t.now.root) path.old (known_of k.old) (plain n.now) }
    requires full { full ≡ are_full (plain n.now) }
    requires there { child hop (plain n.now) ≡ in_half (half_as half.now) }
    requires stands { Stands (arc_value t.now.schema) (plain t.now.root) slice.old.best.step }
    ensures stands { OnOk result (Stands (arc_value t.now.schema) (plain t.now.root) slice.new.best.step) }
    ensures path { OnOk result (path.new ≡ path.old) }
    ensures known { OnOk result (known_of k.new ≡ known_of k.old) }
{
    let Some(m) = half else {
        return Ok(());
    };
    let Some(way) = way_below(way, hop) else {
        return Ok(());
    };
    if slice.is_over() {
        return Ok(());
    }
    let range = k.range;
    go_down(t, n, full, hop, m, k, path, &mut slice.best)?;
    look_from(t, m, way, k, path, slice)?;
    go_up(hop, range, k, path);
    Ok(())
}

// The steps to where a look begins.
fn way_to<'a>(from: Option<&'a Path>) -> &'a [Hop] {
    match from {
        Some(path) => path.hops(),
        None => &[],
    }
}

/// A step that stands: the best of those found at the nodes of about so many rows, where there is one. The look goes through the nodes
/// in the plan's order, from that to which the path leads, or from the root; from the next one, where it isn't there any more. It
/// takes memory as a plan does.
pub fn look_on(t: &Tree, from: Option<&Path>, most: u64) -> Result<Look, NoMemory>
    ensures { IfOk result (λ found. Stands (arc_value t.now.schema) (plain t.now.root) found.step) }
{
    let alloc = *t.root.parts.allocator();
    let mut slice = Slice {
        best: Best::none(),
        left: most,
        next: None,
    };
    let mut path = Path::make(alloc);
    let mut spot = Spot::root(alloc);
    look_from(t, &t.root, way_to(from), &mut spot, &mut path, &mut slice)?;
    Ok(Look {
        step: slice.best.step,
        next: slice.next,
    })
}
