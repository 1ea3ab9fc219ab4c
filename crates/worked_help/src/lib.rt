//! Helpers of tests, no tests of its own: what answers each line of a program's input; an index round any other, which counts its
//! searches and refuses some inserts, as one does where memory is wanting; a tree that grows; and a plain walk through a tree, which
//! sees whether its rows stand where they should, by loops over the nodes and not by the definitions.
#![tactic(auto)]

mod grown;
mod lines;
mod plain_walk;
mod watched;

pub use grown::Grown;
pub use lines::{answer_each, answer_each_in};
pub use plain_walk::{Seen, look};
pub use watched::Watched;
