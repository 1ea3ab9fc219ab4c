//! One session over a board and a link: reads lines, answers each, and leaves.
//!
//! Its contract: whatever list of changes keeps the board's word at return bears out every reply, as a legal transcript of the lines
//! that were read, and each end has its cause. It stands on be_board, and on be_protocol for lines, replies and conversations. Begin with
//! specs/Served.
#![tactic(auto)]

mod changes;
mod letters;
mod reads;
mod room;
mod serve;
mod waiting;

pub use be_protocol::SessionEnd;
pub use room::Room;
pub use serve::serve_link;
