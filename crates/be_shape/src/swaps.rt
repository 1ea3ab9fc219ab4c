//! A node in the place of another.

ghost use Rattle.std.specs.Prelude.{◌≡◌};
ghost use Rattle.be_shape.specs.Plain.{plain, parts_as};
ghost use Rattle.be_shape.specs.Paths.{walk};
ghost use Rattle.be_shape.specs.Steps.{is_node, replaced};
ghost use Rattle.be_shape.specs.Swaps.{place_on, node_or};

use crate::nodes::{Node, Part};
use be_base::AttrNo;
use be_model::Hop;
use std::mem::swap;

/// The place of the part of the attribute.
pub fn place_on(parts: &[Part], a: AttrNo) -> Option<usize>
    ensures { result ≡ place_on a (parts_as parts.now) }
{
    let mut place = 0;
    for part in parts {
        if part.attr.0 == a.0 {
            return Some(place);
        }
        place += 1;
    }
    None
}

/// Swaps the node at the end of the path with another, and tells whether it was there. It takes no memory.
pub fn swap_at(n: &mut Node, hops: &[Hop], other: &mut Node) -> bool
    ensures there { result ≡ is_node (walk hops.now (plain n.old)) }
    ensures taken { plain other.new ≡ node_or (plain other.old) (walk hops.now (plain n.old)) }
    ensures put { plain n.new ≡ replaced hops.now (plain other.old) (plain n.old) }
{
    let Some((hop, rest)) = hops.split_first() else {
        swap(n, other);
        return true;
    };
    match *hop {
        Hop::Part(a) => match place_on(n.parts.as_slice(), a) {
            Some(place) => swap_at(&mut n.parts[place].root, rest, other),
            None => false,
        },
        Hop::Low => match &mut n.low {
            Some(low) => swap_at(low, rest, other),
            None => false,
        },
        Hop::High => match &mut n.high {
            Some(high) => swap_at(high, rest, other),
            None => false,
        },
    }
}
