//! Steps that reshape a tree and leave what it contains.
//!
//! `apply` makes any step; `merge` and `shift` are steps of their own here, as the two splits are in be_insert. The contract
//! says exactly where a step stands, what stands after it, and that the contents are the same. It stands on the tree of
//! be_shape, whose `specs/Steps` has the definitions of all steps, on insertion and on removal. Begin with `src/steps.rt`;
//! what a merge leaves of a node is in `proofs/Merged`, and what a shift does in `proofs/Shifted`.
#![tactic(auto)]

mod finds;
mod fits;
mod merges;
mod moves;
mod shifts;
mod steps;

pub use merges::merge;
pub use shifts::shift;
pub use steps::apply;
