//! What a search costs, without the search.

ghost use Rattle.std.specs.Prelude.{◌≡◌, ◌+◌, ◌<◌, ◌^◌, true, ◌∷◌, [], length};
ghost use Rattle.be_model.specs.Costs.{cost};
ghost use Rattle.be_model.specs.Matching.{is_assigned};
ghost use Rattle.be_shape.specs.Plain.{plain, parts_as, half_as, part_as, parts_of};
ghost use Rattle.be_shape.specs.Ranges.{is_bounded, is_rising};
ghost use Rattle.be_shape.specs.Search.{visited, visited_in_parts, visited_in_half};
ghost use Rattle.be_match.specs.Leaves.{AreCountable, cost_of_leaves};

use be_base::AttrNo;
use be_model::{Cost, Event, Schema};
use be_shape::{Leaf, Node, NodeRange, Part, holds_value, lower_range, upper_range, whole_range};

// The cost of a search of a node and of all below it.
#[cycle(costs)]
pub(crate) fn node_cost(n: &Node, s: &Schema, e: &Event, range: NodeRange) -> Cost
    requires bounded { is_bounded range ≡ true }
    requires rising { is_rising range ≡ true }
    requires countable { AreCountable (visited s.now e.now range (plain n.now)) }
    ensures { result ≡ cost_of_leaves (visited s.now e.now range (plain n.now)) }
{
    let parts = parts_cost(n.parts.as_slice(), s, e);
    let low = half_cost(&n.low, s, e, lower_range(range));
    let high = half_cost(&n.high, s, e, upper_range(range));
    joined(&n.leaf, parts, low, high)
}

#[cycle(costs)]
fn parts_cost(parts: &[Part], s: &Schema, e: &Event) -> Cost
    requires countable { AreCountable (visited_in_parts s.now e.now (parts_as parts.now)) }
    ensures { result ≡ cost_of_leaves (visited_in_parts s.now e.now (parts_as parts.now)) }
{
    let mut cost = Cost::none();
    for part in parts {
        cost = cost.plus(part_cost(part, s, e));
    }
    cost
}

#[cycle(costs)]
fn part_cost(part: &Part, s: &Schema, e: &Event) -> Cost
    requires countable { AreCountable (visited_in_parts s.now e.now (parts_of (part_as part.now ∷ []))) }
    ensures { result ≡ cost_of_leaves (visited_in_parts s.now e.now (parts_of (part_as part.now ∷ []))) }
{
    if enters_part(part.attr, e) {
        node_cost(&part.root, s, e, whole_range(s, part.attr))
    } else {
        Cost::none()
    }
}

#[cycle(costs)]
fn half_cost(half: &Option<Box<Node>>, s: &Schema, e: &Event, range: NodeRange) -> Cost
    requires bounded { is_bounded range ≡ true }
    requires countable { AreCountable (visited_in_half s.now e.now range (half_as half.now)) }
    ensures { result ≡ cost_of_leaves (visited_in_half s.now e.now range (half_as half.now)) }
{
    match half {
        Some(n) => {
            if holds_value(range, e) {
                node_cost(n, s, e, range)
            } else {
                Cost::none()
            }
        }
        None => Cost::none(),
    }
}

// Whether a search for the event enters the parts of the attribute.
fn enters_part(a: AttrNo, e: &Event) -> bool
    ensures { result ≡ is_assigned e.now a }
{
    e.values(a).is_some()
}

// What a visit of a leaf costs.
pub(crate) fn leaf_cost(leaf: &Leaf) -> Cost
    ensures { result ≡ cost 1 (length leaf.now) }
{
    Cost {
        visits: 1,
        tested: leaf.len() as u64,
    }
}

// The cost of a node whose parts and halves cost so much.
fn joined(leaf: &Leaf, parts: Cost, low: Cost, high: Cost) -> Cost
    requires visits { 1 + parts.visits + low.visits + high.visits < 2 ^ 64 }
    requires tested { length leaf.now + parts.tested + low.tested + high.tested < 2 ^ 64 }
    ensures { result ≡ cost (1 + parts.visits + low.visits + high.visits) (length leaf.now + parts.tested + low.tested + high.tested) }
{
    let own = leaf_cost(leaf);
    own.plus(parts).plus(low).plus(high)
}
