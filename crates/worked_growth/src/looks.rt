//! What is asked of a tree. `None` is an answer that no row wants.

use crate::rows::row_of;
use be_base::AttrNo;
use be_event::read_event;
use be_match::{cost_of, find_in};
use be_model::{Cost, Found, Hop, Path, Schema};
use be_shape::{BLOCK, Tree};
use std::alloc::Global;
use std::sync::Arc;
use worked_help::{Seen, look};

// A number that tells lists of rising ids apart.
fn digest(ids: &[u64]) -> u64 {
    let mut digest = 1u64;
    for id in ids {
        digest = digest.wrapping_mul(31).wrapping_add(*id);
    }
    digest
}

fn digest_of(alloc: Global, found: &Found) -> Option<u64> {
    let mut ids = Vec::new(alloc);
    for row in found.rows() {
        ids.push(row.id.0).ok()?;
    }
    Some(digest(ids.as_slice()))
}

/// How many rows an event finds, with their digest.
pub fn find(alloc: Global, tree: &Tree, text: &[u8]) -> Option<(usize, u64)> {
    let event = read_event(alloc, &tree.schema, text).ok()?;
    let mut found = Found::make(alloc);
    let cost = find_in(tree, &event, &mut found).ok()?;
    if cost != cost_of(tree, &event) {
        return None;
    }
    found.order();
    Some((found.len(), digest_of(alloc, &found)?))
}

/// What the search for an event costs.
pub fn cost(alloc: Global, tree: &Tree, text: &[u8]) -> Option<Cost> {
    let event = read_event(alloc, &tree.schema, text).ok()?;
    Some(cost_of(tree, &event))
}

// Rows 1, 2 and 3 that are put into the root's leaf.
fn three_rows(alloc: Global, schema: Arc<Schema>) -> Option<Tree> {
    let mut tree = Tree::make(alloc, schema, 50);
    let first = row_of(alloc, &tree.schema, 1, b"price >= 3")?;
    let second = row_of(alloc, &tree.schema, 2, b"price >= 10")?;
    let third = row_of(alloc, &tree.schema, 3, b"price >= 5")?;
    if first.lies(&tree.schema) && second.lies(&tree.schema) && third.lies(&tree.schema) {
        tree.put_root(first);
        tree.put_root(second);
        tree.put_root(third);
    }
    Some(tree)
}

/// What an event finds among three rows in the root, and what that costs.
pub fn at_root(alloc: Global, tree: &Tree, text: &[u8]) -> Option<((usize, u64), Cost)> {
    let tree = three_rows(alloc, Arc::try_clone(&tree.schema).ok()?)?;
    let found = find(alloc, &tree, text)?;
    Some((found, cost(alloc, &tree, text)?))
}

// A digit is the part of that attribute, `L` and `H` are the halves, and a dash is no step.
fn path_of(alloc: Global, text: &[u8]) -> Option<Path> {
    let mut path = Path::make(alloc);
    for byte in text {
        let hop = match *byte {
            b'-' => continue,
            b'L' => Hop::Low,
            b'H' => Hop::High,
            digit => Hop::Part(AttrNo(u16::from(digit.wrapping_sub(b'0')))),
        };
        path.push(hop).ok()?;
    }
    Some(path)
}

/// The range of the node at the end of a path, and how many rows stand there. The root has no range.
pub fn at(alloc: Global, tree: &Tree, text: &[u8]) -> Option<(Option<(AttrNo, i64, i64)>, u64)> {
    let path = path_of(alloc, text)?;
    let node = tree.at(&path)?;
    Some((tree.range_at(&path), node.leaf.len() as u64))
}

/// Of how many blocks of a node's leaf the rows are told column by column, and how many blocks there are.
pub fn columns(alloc: Global, tree: &Tree, text: &[u8]) -> Option<(u64, u64)> {
    let path = path_of(alloc, text)?;
    let leaf = &tree.at(&path)?.leaf;
    let mut told = 0u64;
    let mut blocks = 0u64;
    for at in 0..leaf.len() {
        if at % BLOCK == 0 {
            blocks = blocks.saturating_add(1);
            if leaf.columns(at).is_some() {
                told = told.saturating_add(1);
            }
        }
    }
    Some((told, blocks))
}

/// Whether all nodes are placed, drawn, pruned and settled, and how many rows there are, with their digest.
pub fn looked(alloc: Global, tree: &Tree) -> Option<(bool, u64, u64)> {
    let mut seen = Seen::make(alloc);
    look(&tree.root, &tree.schema, &mut seen).ok()?;
    seen.ids.sort_unstable();
    Some((seen.is_right, tree.len(), digest(seen.ids.as_slice())))
}
