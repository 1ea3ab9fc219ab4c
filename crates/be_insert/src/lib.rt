//! Rows are put into a tree: the leaf that takes a row, and the splits of a leaf that has a row too much.
//!
//! `place` is its call on a tree, and `place_below` the same below a node; `split_part` and `split_half` are splits made as
//! steps of their own. The contract of `place` speaks of the contents, since the type of a tree keeps the shape, and those of
//! the splits say what stands after them. It stands on the tree of be_shape and on the choice of an attribute of be_score.
//! Begin with `src/places.rt` and `src/splits.rt`; what
//! holds while a row is on its way is in `specs/Filled` and be_shape's `specs/Right`, and what one step does to a node in
//! `proofs/Steps`.
#![tactic(auto)]

mod leaves;
mod places;
mod split_steps;
mod splits;

pub use places::{best_part, place, place_below};
pub use split_steps::{split_half, split_part};
