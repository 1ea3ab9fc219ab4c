//! The plan: which step that reshapes a tree comes next.
//!
//! `plan` is one of its two calls, and `specs/Plan` its definition: the first step that stands in a list of those that may be named,
//! over all nodes of the tree in order. The other is `look_on`, which goes through some of the nodes, from where the last look ended,
//! and promises only that the step that it found stands. It stands on the nodes and steps of be_shape and on the weights and choices of
//! be_score. Begin with `specs/Plan`, and then with `src/seeks.rt`, which goes through the tree once, or with `src/looks.rt`; `specs/Law` says what
//! the definition comes to.
#![tactic(auto)]

mod bests;
mod fulls;
mod laws;
mod leaving;
mod looks;
mod merges;
mod movers;
mod plans;
mod seeks;
mod shares;
mod shifts;
mod splits;

pub use laws::plan_is_whole;
pub use looks::{Look, look_on};
pub use plans::plan;
