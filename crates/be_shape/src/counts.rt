//! How many rows there are.

ghost use Rattle.std.specs.Prelude.{◌≡◌, ◌<◌, ◌^◌, ◌∷◌, [], length};
ghost use Rattle.be_shape.specs.Plain.{plain, parts_as, half_as, part_as, parts_of, rows_below, rows_in_parts, rows_in_half};

use crate::nodes::{Node, Part};

// The rows of a node and of all below it.
#[cycle(counts)]
pub(crate) fn rows_of_node(n: &Node) -> u64
    requires { length (rows_below (plain n.now)) < 2 ^ 64 }
    ensures { result ≡ length (rows_below (plain n.now)) }
{
    let own = n.leaf.len() as u64;
    let parts = rows_of_parts(n.parts.as_slice());
    let low = rows_of_half(&n.low);
    let high = rows_of_half(&n.high);
    own + parts + low + high
}

#[cycle(counts)]
fn rows_of_parts(parts: &[Part]) -> u64
    requires { length (rows_in_parts (parts_as parts.now)) < 2 ^ 64 }
    ensures { result ≡ length (rows_in_parts (parts_as parts.now)) }
{
    let mut count = 0;
    for part in parts {
        count += rows_of_part(part);
    }
    count
}

#[cycle(counts)]
fn rows_of_part(part: &Part) -> u64
    requires { length (rows_in_parts (parts_of (part_as part.now ∷ []))) < 2 ^ 64 }
    ensures { result ≡ length (rows_in_parts (parts_of (part_as part.now ∷ []))) }
{
    rows_of_node(&part.root)
}

#[cycle(counts)]
fn rows_of_half(half: &Option<Box<Node>>) -> u64
    requires { length (rows_in_half (half_as half.now)) < 2 ^ 64 }
    ensures { result ≡ length (rows_in_half (half_as half.now)) }
{
    match half {
        Some(n) => rows_of_node(n),
        None => 0,
    }
}
