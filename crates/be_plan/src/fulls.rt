//! Nodes that have too many rows to be merged into the one above.

ghost use Rattle.std.specs.Prelude.{◌≡◌};
ghost use Rattle.be_model.specs.declared.paths.Hop.{Hop};
ghost use Rattle.be_shape.specs.Children.{root_of, roots_of};
ghost use Rattle.be_shape.specs.Plain.{plain, half_as, parts_as};
ghost use Rattle.be_plan.specs.Merges.{is_full, all_full, are_full};

use be_base::MERGE_ROWS;
use be_shape::{Node, Part};

// Whether the node has more rows in its own leaf than are merged.
fn is_full(n: &Node) -> bool
    ensures { result ≡ is_full (plain n.now) }
{
    MERGE_ROWS < n.leaf.len()
}

// Whether the root of each part is full. It looks at all of them, one right after the other, so that the memory is waited for once.
fn are_parts_full(parts: &[Part]) -> bool
    ensures { result ≡ all_full (roots_of (parts_as parts.now)) }
{
    let mut full = true;
    for part in parts {
        if !is_full(&part.root) {
            full = false;
        }
    }
    full
}

fn is_half_full(half: &Option<Box<Node>>) -> bool
    ensures { (hop : Hop) → result ≡ all_full (root_of hop (half_as half.now)) }
{
    match half {
        Some(n) => is_full(n),
        None => true,
    }
}

/// Whether each child is full, so that none can be merged. It looks at the children before the way goes down to the first.
pub(crate) fn are_full(n: &Node) -> bool
    ensures { result ≡ are_full (plain n.now) }
{
    let parts = are_parts_full(n.parts.as_slice());
    let low = is_half_full(&n.low);
    let high = is_half_full(&n.high);
    if !parts {
        return false;
    }
    if !low {
        return false;
    }
    high
}
