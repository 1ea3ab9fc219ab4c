//! Counts the leaves of the nodes that a search enters from a node: ahead, before it enters any of them, or each where it enters it.
//! Counted ahead, most of these nodes are looked at for the first time, so the processor can wait for the heads of all at once, and not
//! for one after another.

ghost use Rattle.std.specs.Prelude.{◌≡◌, ◌∷◌, [], if◌then◌else◌};
ghost use Rattle.be_shape.specs.Plain.{plain, parts_as, half_as, part_as, parts_of, leaf_of};
ghost use Rattle.be_match.specs.Ahead.{ahead_below, ahead_in_parts, ahead_in_half};
ghost use Rattle.be_match.specs.Leaves.{AreCountableWith, cost_with};

use crate::counts::leaf_cost;
use be_model::Cost;
use be_shape::{Node, Part, Sight};

// Counts the leaf of the root of a part, where the search enters it.
fn count_part(part: &Part, e: &Sight, cost: &mut Cost)
    requires countable { AreCountableWith cost.old (ahead_in_parts e.now (parts_of (part_as part.now ∷ []))) }
    ensures { cost.new ≡ cost_with cost.old (ahead_in_parts e.now (parts_of (part_as part.now ∷ []))) }
{
    if e.assigns(part.attr) {
        *cost = cost.plus(leaf_cost(&part.root.leaf));
    }
}

fn count_parts(parts: &[Part], e: &Sight, cost: &mut Cost)
    requires countable { AreCountableWith cost.old (ahead_in_parts e.now (parts_as parts.now)) }
    ensures { cost.new ≡ cost_with cost.old (ahead_in_parts e.now (parts_as parts.now)) }
{
    for part in parts {
        count_part(part, e, cost);
    }
}

// Counts the leaf of a half, where the search enters it.
fn count_half(half: &Option<Box<Node>>, enters: bool, cost: &mut Cost)
    requires countable { AreCountableWith cost.old (ahead_in_half enters (half_as half.now)) }
    ensures { cost.new ≡ cost_with cost.old (ahead_in_half enters (half_as half.now)) }
{
    if let Some(n) = half {
        if enters {
            *cost = cost.plus(leaf_cost(&n.leaf));
        }
    }
}

// Counts the leaves of the roots of the parts whose attribute the event assigns, and those of the halves that are said to be entered.
fn count_below(n: &Node, e: &Sight, in_low: bool, in_high: bool, cost: &mut Cost)
    requires countable { AreCountableWith cost.old (ahead_below e.now in_low in_high (plain n.now)) }
    ensures { cost.new ≡ cost_with cost.old (ahead_below e.now in_low in_high (plain n.now)) }
{
    count_parts(n.parts.as_slice(), e, cost);
    count_half(&n.low, in_low, cost);
    count_half(&n.high, in_high, cost);
}

// The same, where these are to be counted ahead at all.
pub(crate) fn count_ahead(
    n: &Node,
    e: &Sight,
    in_low: bool,
    in_high: bool,
    ahead: bool,
    cost: &mut Cost,
)
    requires countable { AreCountableWith cost.old (if ahead then ahead_below e.now in_low in_high (plain n.now) else []) }
    ensures { cost.new ≡ cost_with cost.old (if ahead then ahead_below e.now in_low in_high (plain n.now) else []) }
{
    if ahead {
        count_below(n, e, in_low, in_high, cost);
    }
}

// Counts the leaf of a node that is entered, unless it was counted ahead.
pub(crate) fn count_entered(n: &Node, ahead: bool, cost: &mut Cost)
    requires countable { AreCountableWith cost.old (if ahead then [] else leaf_of (plain n.now) ∷ []) }
    ensures { cost.new ≡ cost_with cost.old (if ahead then [] else leaf_of (plain n.now) ∷ []) }
{
    if !ahead {
        *cost = cost.plus(leaf_cost(&n.leaf));
    }
}
