//! The tree of rows: its shape, and what always holds of it.
//!
//! Its contract is the type `Tree`: whatever is done to one, it stays placed, drawn, pruned and settled, and its rows lie in its
//! schema. What a tree contains is a list of rows by their ids, and the laws say what that list is. It stands on be_model.
//! Begin with specs/Plain (a node as plain data) and specs/Shape; specs/Right has all of it for one node and what is below it.
#![tactic(auto)]

mod columns;
mod counts;
mod few_tests;
mod gaps;
mod glances;
mod held;
mod hints;
mod lanes;
mod large;
mod laws;
mod leaves;
mod listings;
mod looks;
mod nodes;
mod orders;
mod places;
mod ranges;
mod sights;
mod small_sets;
mod spots;
mod swaps;
mod tallies;
mod test_counts;
mod trees;
mod walks;
mod widths;

pub use columns::{Columns, Met, NONE_MET};
pub use laws::{
    MAX_TREE_DEPTH, depth_is_bounded, ids_rise, new_ids_are_nowhere, nodes_are_everywhere,
    nodes_are_listed, paths_lead, rows_are_found, rows_are_of_leaves,
};
pub use leaves::{BLOCK, Choice, Chosen, Leaf, NONE_CHOSEN};
pub use listings::RowAttrs;
pub use looks::{
    can_split, count_passing, fits_a_half, has_attr, is_inside, is_stuck, is_used, is_used_on,
    may_pass, may_pass_at, takes,
};
pub use nodes::{Node, Part};
pub use places::Kept;
pub use ranges::{NodeRange, holds_value, lower_range, upper_range, whole_range};
pub use sights::{NOTHING_SEEN, Seen, Sight, fill_seen};
pub use spots::Spot;
pub use swaps::{place_on, swap_at};
pub use trees::Tree;
pub use walks::{child, child_range, walk, walk_range};
