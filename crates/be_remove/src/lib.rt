//! Rows are taken out of a tree, and nodes that are left without a row are dropped.
//!
//! `take` is its call on a tree, and its contract speaks of the contents, since the type of a tree keeps the shape. `take_below`
//! does the same below a node, `take_below_part` below one part of a node, and `drop_bare` drops a child that has nothing.
//! It stands on the tree of be_shape, and on be_insert for the part in which a row is looked for first. Begin with
//! `src/takes.rt`; that a node stays right where a child has a row less is in be_shape's `proofs/OneLess`.
#![tactic(auto)]

mod leaves;
mod parts;
mod takes;

pub use parts::{drop_bare, take_below_part};
pub use takes::{take, take_below};
