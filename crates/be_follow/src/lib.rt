//! A follower: a copy of a leader's list of changes, made from the leader's own words for it.
//!
//! Its contract: the list is what all bytes that were taken mean, however they were cut, up to the first faulty line; over a
//! leader's bytes it is a beginning of the leader's list. Another list can take the place of the follower's own (`FeedList`, into
//! which an `Intake` puts a feed). It stands on be_copy, on be_expr for the texts of changes, and on be_protocol for lines, replies
//! and conversations. Begin with specs/Feeds, then specs/Followers.
#![tactic(auto)]

mod asking;
mod faults;
mod feed_list;
mod fitting;
mod followed;
mod follower;
mod intake;
pub mod laws;
mod reads;
mod saying;
mod stands;

pub use faults::{FeedFault, FeedKind};
pub use feed_list::FeedList;
pub use followed::Followed;
pub use follower::Follower;
pub use intake::Intake;
pub use reads::serve_reads;
