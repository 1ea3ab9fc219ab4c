//! The limits of the product.

/// Bytes of a name.
pub const NAME_BYTES: usize = 64;

/// Attributes of a schema.
pub const ATTRIBUTES: usize = 256;

/// Words of a symbol domain.
pub const SYMBOLS: usize = 4096;

/// The least bound of an integer domain.
pub const FIRST_INT: i64 = -2147483648;

/// The greatest bound of an integer domain.
pub const LAST_INT: i64 = 2147483647;

/// Predicates of a conjunction.
pub const PREDICATES: usize = 32;

/// Values of a set, as written.
pub const SET_VALUES: usize = 64;

/// Bytes of a session's line before its LF.
pub const LINE_BYTES: usize = 65536;

/// Bytes of a feed's line before its LF.
pub const FEED_LINE_BYTES: usize = 262144;

/// Bytes that a reader of lines asks for in one read, at most.
pub const READ_BYTES: usize = 65536;

/// Bytes that one reader takes.
pub const SOURCE_BYTES: u64 = 1099511627776;

/// Bytes of a file.
pub const FILE_BYTES: usize = 67108864;

/// Changes in a list of changes, those that room was made for included.
pub const LOG_CHANGES: usize = 281474976710656;

/// Changes that room is made for behind a subscription, so that removals and leaves find it where memory is wanting.
pub const REMOVALS_KEPT: usize = 1024;

/// The end of what is counted by numbers in texts: 2^63.
pub const COUNT_END: u64 = 9223372036854775808;

/// The size that larger whole numbers in texts are read as: 2^40, which no domain holds.
pub const INT_SIZE: u64 = 1099511627776;

/// The rows that a leaf may have. One that has more has stuck rows alone.
pub const LEAF_ROWS: usize = 16;

/// The rows of a node, and of all below it, that may be merged into the node above.
pub const MERGE_ROWS: usize = 4;

/// The rows of a leaf that are worth a node of their own before the leaf is full.
pub const EARLY_ROWS: usize = 8;

/// The weight that a row has to gain by a move to another part.
pub const SHIFT_GAIN: usize = 500;

/// Seats of a desk, and scripts of one run.
pub const SEATS: u32 = 64;

/// Links that a door gives out.
pub const LINKS: u64 = 1000000;

/// Letters or changes that one line asks for.
pub const ASKED: u64 = 1000000;

/// Milliseconds that one line waits, at most.
pub const WAIT_MILLIS: u64 = 60000;

/// Letters of a mailbox.
pub const BOX_LETTERS: usize = 1024;

/// Rounds of a generated run.
pub const ROUNDS: u64 = 1000000;

/// Subscriptions of a generated run.
pub const GENERATED_SUBSCRIPTIONS: u64 = 100000;

/// Events of a generated run.
pub const GENERATED_EVENTS: u64 = 10000;
