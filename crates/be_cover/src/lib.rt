//! Covering: which conditions are implied by another one.
//!
//! Its contract: `apart` answers none exactly where each event of single values that satisfies the first condition satisfies
//! the other too, and else an event that satisfies the first and not the other. It stands on be_model. Begin with
//! specs/Covering.
#![tactic(auto)]

mod events;
mod pieces;
mod ranges;
mod values;

pub use events::apart;
pub use ranges::{Allowed, minus};
pub use values::allowed;
