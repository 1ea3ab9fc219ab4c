//! Walks from the root down to a node.

ghost use Rattle.std.specs.Prelude.{◌≡◌, true, option_map, option_and_then};
ghost use Rattle.be_shape.specs.Plain.{plain, parts_as, half_as};
ghost use Rattle.be_shape.specs.Paths.{part_on, in_half, child, walk, range_below, range_along};
ghost use Rattle.be_shape.specs.Ranges.{is_bounded, is_rising, may_step, StandsIn};

use crate::nodes::{Node, Part};
use crate::ranges::{NodeRange, lower_range, upper_range, whole_range};
use be_base::AttrNo;
use be_model::{Hop, Schema};

/// The node at the end of the steps. There is none where the path isn't there.
pub fn walk<'a>(n: &'a Node, hops: &[Hop]) -> Option<&'a Node>
    ensures { option_map (λ m. plain m.now) result ≡ walk hops.now (plain n.now) }
{
    let mut at = n;
    for hop in hops {
        at = child(at, *hop)?;
    }
    Some(at)
}

/// The range of the node at the end of the steps from the root.
pub fn walk_range(n: &Node, s: &Schema, hops: &[Hop]) -> NodeRange
    requires { StandsIn s.now None (plain n.now) }
    ensures range { result ≡ option_and_then (λ m. range_along s.now hops.now None) (walk hops.now (plain n.now)) }
    ensures bounded { is_bounded result ≡ true }
    ensures rising { is_rising result ≡ true }
{
    let mut at = n;
    let mut range = None;
    for hop in hops {
        let below = child(at, *hop)?;
        range = child_range(s, *hop, range);
        at = below;
    }
    range
}

/// The range of a child.
pub fn child_range(s: &Schema, hop: Hop, range: NodeRange) -> NodeRange
    requires bounded { is_bounded range ≡ true }
    requires rising { is_rising range ≡ true }
    ensures range { result ≡ range_below s.now hop range }
    ensures bounded { is_bounded result ≡ true }
    ensures rising { may_step hop range ≡ true → is_rising result ≡ true }
{
    match hop {
        Hop::Part(a) => whole_range(s, a),
        Hop::Low => lower_range(range),
        Hop::High => upper_range(range),
    }
}

/// The child at the end of the step.
#[tactic(auto, using(crate::proofs::Plains::plain_out))]
pub fn child<'a>(n: &'a Node, hop: Hop) -> Option<&'a Node>
    ensures { option_map (λ m. plain m.now) result ≡ child hop (plain n.now) }
{
    match hop {
        Hop::Part(a) => part_on(n.parts.as_slice(), a),
        Hop::Low => in_half(&n.low),
        Hop::High => in_half(&n.high),
    }
}

fn part_on<'a>(parts: &'a [Part], a: AttrNo) -> Option<&'a Node>
    ensures { option_map (λ m. plain m.now) result ≡ part_on a (parts_as parts.now) }
{
    for part in parts {
        if part.attr.0 == a.0 {
            return Some(&*part.root);
        }
    }
    None
}

fn in_half<'a>(half: &'a Option<Box<Node>>) -> Option<&'a Node>
    ensures { option_map (λ m. plain m.now) result ≡ in_half (half_as half.now) }
{
    match half {
        Some(n) => Some(&**n),
        None => None,
    }
}
