//! How a worker waits until something may have come, and how whoever brings it wakes the worker.
//!
//! Its contract: a wait says at most that what it was told was above a place. No clause says that a wait ends soon, nor that no wake is
//! lost. Why none is: a waiter raises a flag, and then looks; whoever brings something puts it first, and then takes the flag. All of
//! these are in one order (SeqCst), so that one of the two sees the other. It stands on be_io. Begin with `Level` and `Bell`.
#![tactic(auto)]

mod bed;
mod bell;
mod flag;
mod level;

pub use bed::{Bed, SLICE_MILLIS, SystemBed};
pub use bell::Bell;
pub use level::Level;
