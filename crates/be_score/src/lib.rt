//! Scores: which attribute divides the rows of a leaf best.
//!
//! `weight` says how much a row is narrowed by its predicates on an attribute. `pick_attr` chooses the attribute of the
//! highest score among rows that are handed in as any list of rows; its contract is `IsPick`. Both stand on the spans of
//! be_model. Begin with `specs/Scores`.
#![tactic(auto)]

mod scores;
mod tallies;
mod units;

pub use scores::pick_attr;
pub use tallies::weight;
pub use units::{FULL_ALPHA, FULL_WEIGHT};
