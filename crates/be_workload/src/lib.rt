//! A generated workload: a schema, and a script of subscriptions and events that is the same for the same numbers.
//!
//! Its contract: `workload` gives exactly the texts that the draws of SplitMix64 make, want of memory aside, and no line of
//! them is refused: a script asks for subscriptions, each under a name of its own, and then for each event twice. It stands
//! on the kit's `rand_xoshiro`, and on be_protocol for what lines mean. Begin with specs/Drawing, which says what is drawn
//! and written, in order, and specs/Asked, which says what it means.
#![tactic(auto)]

mod drawing;
mod generator;
mod laws;
mod texts;

pub use generator::workload;
pub use laws::workloads_are_read;
pub use texts::Workload;
