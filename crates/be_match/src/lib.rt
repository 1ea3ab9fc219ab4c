//! The search of a tree for the rows that an event satisfies.
//!
//! Its contract is that of `find_in`: the satisfied rows are found, each once, at the cost that be_shape/specs/Search defines,
//! which is within the bound of be_model/specs/Bounds. The cost is a number about the tree, and no count of what the code does.
//! It stands on be_shape, and on be_index for what hits are put into. Begin with src/finds.rt and these two specs; how the
//! bound is shown is in proofs/VisitsBound and proofs/TestedBound.
#![tactic(auto)]

mod ahead;
mod counts;
mod finds;
mod searches;

pub use finds::{cost_of, find_in};
