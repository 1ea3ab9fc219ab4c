//! The tree as an index.
//!
//! Its contract: `BeTree` meets `Index` and is bounded; the map is the contents of its tree, and what a search costs is the
//! number of nodes that it visits and of rows that it tests on that tree. It stands on the calls of be_insert, be_remove,
//! be_match, be_adjust and be_plan. Begin with src/tree.rt.
#![tactic(auto)]

mod gathers;
mod tree;

pub use tree::{ALPHA, BeTree};
