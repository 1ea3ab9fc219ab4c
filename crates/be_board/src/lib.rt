//! What a session asks of the list of changes and of what is live in it.
//!
//! Its contract is the trait `Board`: each answer is one of a list that keeps the board's word. A `LocalBoard` is a board over
//! one copy, for one session alone. It stands on be_copy. Begin with specs/Word, then specs/Changes.
#![tactic(auto)]

mod answers;
mod board;
mod letter_box;
mod local;
mod local_copy;
mod openings;
mod posting;

pub use answers::{Answer, Sent};
pub use board::Board;
pub use local::LocalBoard;
pub use local_copy::SESSION;
pub use posting::{count_addressed, make_letters};
