//! Rows that go to a leaf, and the nodes that they leave.

ghost use Rattle.std.specs.Prelude.{◌≡◌, ◌≤◌, ◌+◌, ◌++◌, length};
ghost use Rattle.be_base.specs.declared.limits.TheConstants.{LEAF_ROWS};
ghost use Rattle.be_shape.specs.Plain.{plain, parts_as, half_as, rows_below, rows_in_parts, rows_in_half};

use be_shape::{Leaf, Node, Part};

// Moves the rows of one leaf to the end of another. It takes no memory.
fn move_leaf(rows: &mut Leaf, leaf: &mut Leaf)
    requires { length leaf.old + length rows.old ≤ LEAF_ROWS + 1 }
    ensures { leaf.new ≡ leaf.old ++ rows.old }
{
    while 0 < rows.len() {
        leaf.put(rows.take(0));
    }
}

/// Moves the rows of the node and of all below it to the end of a leaf. It takes no memory.
#[cycle(moves)]
pub(crate) fn move_node(n: &mut Node, leaf: &mut Leaf)
    requires { length leaf.old + length (rows_below (plain n.old)) ≤ LEAF_ROWS + 1 }
    ensures { leaf.new ≡ leaf.old ++ rows_below (plain n.old) }
{
    let Node {
        leaf: rows,
        parts,
        low,
        high,
    } = n;
    move_leaf(rows, leaf);
    move_parts(parts, leaf);
    move_half(low, leaf);
    move_half(high, leaf);
}

#[cycle(moves)]
fn move_parts(parts: &mut Vec<Part>, leaf: &mut Leaf)
    requires { length leaf.old + length (rows_in_parts (parts_as parts.old.items)) ≤ LEAF_ROWS + 1 }
    ensures { leaf.new ≡ leaf.old ++ rows_in_parts (parts_as parts.old.items) }
{
    for place in 0..parts.len() {
        move_node(&mut parts[place].root, leaf);
    }
}

#[cycle(moves)]
fn move_half(half: &mut Option<Box<Node>>, leaf: &mut Leaf)
    requires { length leaf.old + length (rows_in_half (half_as half.old)) ≤ LEAF_ROWS + 1 }
    ensures { leaf.new ≡ leaf.old ++ rows_in_half (half_as half.old) }
{
    match half {
        Some(n) => move_node(n, leaf),
        None => {}
    }
}
