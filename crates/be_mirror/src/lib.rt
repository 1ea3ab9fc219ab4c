//! A mirror: a follower that serves while it follows.
//!
//! `run_mirror` is all of it: it takes a feed from an input and serves so many links of a door meanwhile. A `Feeder` takes the bytes
//! of a feed, while another thread publishes what they mean: the changes go from one to the other through a ring. Its contract: the list
//! behind it is what all bytes that were taken mean; readers see a beginning of it, and no less than before; and after a `publish` they
//! see all of it, but where memory was wanting. A `Session` serves a whole conversation from a glass. Its contract: each end
//! with its cause, and with what was read and written; every list that goes on from what is known at the end bears the replies out, as
//! those of a session that makes no change; and no more of them tell of a read or of a refused entry than the glass counted. It stands
//! on be_follow for feeds, on be_published for the two copies, and on be_protocol for conversations. Begin with specs/Feeders, and with
//! specs/Legal and specs/Reading.
#![tactic(auto)]

mod asking;
mod bell;
mod feeder;
mod feeding;
mod links;
mod outlet;
mod printing;
mod reads;
mod ring;
mod serving;
mod session;
mod settling;
mod workers;

pub use feeder::Feeder;
pub use feeding::FeedEnd;
pub use printing::Printer;
pub use serving::{MirrorFault, Mirrored, run_mirror};
pub use session::Session;
