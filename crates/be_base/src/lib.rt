//! What every layer uses: names, numbers in texts, tokens, and the limits by their names.
//!
//! Its contract: a `Name` is 1 to 64 allowed bytes; a text's tokens are found from the left, the longest first. It stands
//! on nothing. Begin with specs/Text and specs/Tokens.
#![tactic(auto)]

mod laws;
mod limits;
mod names;
mod numbers;
mod readers;
mod refusals;
mod reserve;
mod sets;
mod tokens;

pub use laws::tokens_are_from_the_left;
pub use limits::{
    ASKED, ATTRIBUTES, BOX_LETTERS, COUNT_END, EARLY_ROWS, FEED_LINE_BYTES, FILE_BYTES, FIRST_INT,
    GENERATED_EVENTS, GENERATED_SUBSCRIPTIONS, INT_SIZE, LAST_INT, LEAF_ROWS, LINE_BYTES, LINKS,
    LOG_CHANGES, MERGE_ROWS, NAME_BYTES, PREDICATES, READ_BYTES, REMOVALS_KEPT, ROUNDS, SEATS,
    SET_VALUES, SHIFT_GAIN, SOURCE_BYTES, SYMBOLS,
};
pub use names::{AttrNo, Id, Name, NameFault, NoMemory, NoRead, SessionNo};
pub use numbers::{read_count, read_int};
pub use readers::{after_brace, after_word, is_end, read_word};
pub use reserve::Reserve;
pub use sets::{SetValue, read_value};
pub use tokens::{Scan, Token, after_blanks, is_blank, is_word_byte, next_token};
