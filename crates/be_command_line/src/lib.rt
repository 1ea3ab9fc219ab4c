//! The words of the command line as plain data.
//!
//! Its contract: `read_words` gives the request that the words are, and refuses exactly words that have no reading, want of
//! memory aside. It stands on `be_base` and the kit's `clap`. Begin with specs/Words, whose table has a row for each
//! command, and specs/Arguments, which says what a word that begins with `-` is.
#![tactic(auto)]

mod arguments;
mod words;

pub use words::{Request, WordsFault, read_words};
