//! Rows of a leaf that gain by a shift at a node above it.

ghost use Rattle.std.specs.Prelude.{◌≡◌, ◌<◌, ◌∷◌, true, length, take, IfSome};
ghost use Rattle.std.specs.List.{list_all};
ghost use Rattle.be_shape.specs.Plain.{plain};
ghost use Rattle.be_shape.specs.Shape.{may_stand};
ghost use Rattle.be_shape.specs.Steps.{at_end, can_shift};
ghost use Rattle.be_plan.specs.Looks.{LeadsTo};

use crate::movers::{are_small, is_among};
use crate::shifts::{From, least_in_leaf};
use be_base::{AttrNo, Id, LEAF_ROWS};
use be_model::{Hop, Schema};
use be_shape::{Leaf, Node, Part, child};

/// A row that may move from one part of a node to another, and how many steps lead from the root to the node.
#[derive(Clone, Copy)]
pub(crate) struct Leaver {
    pub(crate) depth: usize,
    pub(crate) from: AttrNo,
    pub(crate) to: AttrNo,
    pub(crate) id: Id,
}

fn is_half(hop: &Hop) -> bool {
    matches!(hop, Hop::Low | Hop::High)
}

// Whether the way goes to a half of a half of the part: no row there takes enough of the part's domain to gain.
fn is_narrow(below: &[Hop]) -> bool {
    match below {
        [first, second, ..] => is_half(first) && is_half(second),
        _ => false,
    }
}

// Whether the way enters a part of one of these attributes.
fn meets(parts: &[Part], below: &[Hop]) -> bool {
    for hop in below {
        if let Hop::Part(a) = hop {
            if is_among(parts, *a) {
                return true;
            }
        }
    }
    false
}

// Whether a row of the leaf, to which the way leads from a part of a node with these, might gain by leaving the part. The rows of
// a leaf of more than 16 have no attributes but those used on the way.
fn may_leave(parts: &[Part], below: &[Hop], leaf: &Leaf) -> bool {
    if parts.len() < 2 || leaf.len() == 0 || is_narrow(below) {
        return false;
    }
    leaf.len() <= LEAF_ROWS || meets(parts, below)
}

// Where a step leads to a part, and the way from there to the leaf, the row of the lowest id that gains by leaving the part: the part,
// the row's id, and the part to which it may move.
fn leaver_at(
    n: &Node,
    hop: Hop,
    below: &[Hop],
    leaf: &Leaf,
    s: &Schema,
) -> Option<(AttrNo, Id, AttrNo)>
    requires leads { LeadsTo (hop ∷ below.now) (plain n.now) leaf.now }
    requires may { list_all (may_stand s.now) leaf.now ≡ true }
    ensures { IfSome result (λ x. can_shift x.0 x.2 x.1.0 (plain n.now) ≡ true) }
{
    let Hop::Part(attr) = hop else {
        return None;
    };
    let parts = n.parts.as_slice();
    if !may_leave(parts, below, leaf) {
        return None;
    }
    let from = From {
        attr,
        parts,
        s,
        small: are_small(parts, s),
    };
    let (id, to) = least_in_leaf(leaf, true, &from, None)?;
    Some((attr, id, to))
}

/// A row of the leaf, to which the way leads from the root, that gains by a shift, at the first node on the way where one does.
pub(crate) fn leaver_above(root: &Node, way: &[Hop], leaf: &Leaf, s: &Schema) -> Option<Leaver>
    requires leads { LeadsTo way.now (plain root.now) leaf.now }
    requires may { list_all (may_stand s.now) leaf.now ≡ true }
    ensures can { IfSome result (λ x. at_end (λ k n. can_shift x.from x.to x.id.0 n) s.now (take x.depth way.now) (plain root.now) ≡ true) }
    ensures within { IfSome result (λ x. x.depth < length way.now) }
{
    let mut at = root;
    for depth in 0..way.len() {
        let hop = way[depth];
        if let Some((from, id, to)) = leaver_at(at, hop, &way[depth + 1..], leaf, s) {
            return Some(Leaver {
                depth,
                from,
                to,
                id,
            });
        }
        let Some(below) = child(at, hop) else {
            return None;
        };
        at = below;
    }
    None
}
