//! Tests of waits: by a bed that no clock drives, and by two threads that wake each other.
#![tactic(auto)]

mod fake;
mod tests;
