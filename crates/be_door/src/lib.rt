//! Doors: they give out a bounded number of links to workers, and take them back.
//!
//! Its one contract is the trait `Door` (door.rt, over specs/Door and specs/Counts): each number below the number of links is
//! drawn by exactly one worker, and what came of each draw is counted, so that at the end links given, accepts that failed and
//! accepts for which memory ran out make the number of links together. `MemDoor` gives out links in memory, of which the calls
//! that are to fail can be told, and keeps them; `TcpDoor` gives out connections to a port of 127.0.0.1, and tells nothing of what
//! passes; `NoDoor` can't listen. It stands on be_io, whose links these are, and on atomic_table and be_shared_sums, for the one word
//! that workers share. Begin with door.rt; what workers share is in numbers.rt and specs/Drawn, and what both doors have in common
//! in book.rt.
#![tactic(auto)]

mod accept_errors;
mod book;
mod count;
mod door;
mod kept;
mod memory;
mod meter;
mod none;
mod numbers;
mod pause;
mod stock;
mod sums;
mod tcp;
mod tcp_link;
mod views;

pub use accept_errors::is_passing;
pub use count::DoorCount;
pub use door::Door;
pub use memory::MemDoor;
pub use meter::{Meter, Metered};
pub use none::NoDoor;
pub use sums::Sums;
pub use tcp::TcpDoor;
pub use tcp_link::TcpLink;
