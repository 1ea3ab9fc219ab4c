//! Nodes of the tree.

ghost use Rattle.std.specs.Prelude.{◌≡◌, ◌<◌, [], length};
ghost use Rattle.std.specs.Arc.{arc_value};
ghost use Rattle.be_shape.specs.Plain.{plain, node, no_part, no_half, leaf_of, with_row};
ghost use Rattle.be_shape.specs.Less.{is_bare};

use crate::leaves::Leaf;
use be_base::AttrNo;
use be_model::Row;
use std::alloc::Global;
use std::sync::Arc;

/// Rows, parts by attribute, and the two halves of the node's range. What a search asks of each node stands first, together.
#[cycle(nodes)]
#[derive(Drop)]
pub struct Node {
    pub low: Option<Box<Node>>,
    pub high: Option<Box<Node>>,
    /// Rising by attribute.
    pub parts: Vec<Part>,
    pub leaf: Leaf,
}

impl Node {
    /// No rows. It takes no memory.
    pub fn make(alloc: Global) -> Node
        ensures { plain result ≡ node [] no_part no_half no_half }
    {
        Node {
            leaf: Leaf::make(alloc),
            parts: Vec::new(alloc),
            low: None,
            high: None,
        }
    }

    // Another node without rows, which takes its memory from the same source.
    pub(crate) fn bare(&self) -> Node
        ensures { plain result ≡ node [] no_part no_half no_half }
    {
        Node::make(*self.parts.allocator())
    }

    /// Whether it has no rows, parts or halves.
    pub fn is_bare(&self) -> bool
        ensures { result ≡ is_bare (plain self.now) }
    {
        match (&self.low, &self.high) {
            (None, None) => self.leaf.len() == 0 && self.parts.is_empty(),
            _ => false,
        }
    }

    /// Puts a row last into the leaf. It takes no memory.
    pub fn put(&mut self, row: Arc<Row>)
        requires { length (leaf_of (plain self.old)) < 17 }
        ensures { plain self.new ≡ with_row (arc_value row) (plain self.old) }
    {
        self.leaf.put(row);
    }
}

/// The rows below that have a predicate on the attribute.
#[cycle(nodes)]
#[derive(Drop)]
pub struct Part {
    pub attr: AttrNo,
    pub root: Box<Node>,
}
