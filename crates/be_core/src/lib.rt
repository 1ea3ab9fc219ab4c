//! The core: sessions that change and read one list of changes, as atomic acts in any order.
//!
//! `World::run` does acts one after another, and its contract is what the crate is for: whatever their order, the
//! replies to each session are legal over the list that comes of them. specs/World says what each act answers,
//! specs/Sessions reads the replies as a session's lines. No thread and no lock is here: the layers that have them do
//! one act at a time. It stands on be_change. Begin reading at specs/World.
#![tactic(auto)]

mod acts;
pub mod laws;
mod live;
mod seen;
mod steps;
mod world;

pub use crate::acts::{Act, CoreReply};
pub use crate::world::World;
