//! The limits of a heat. It has at most SEATS seats.

use be_base::ATTRIBUTES;

/// Words of a heat: one for each attribute of a schema, and one more.
pub const HEAT_WORDS: u32 = ATTRIBUTES as u32 + 1;

/// What one seat adds to one word, at most: 2^40.
pub const SEAT_ADDS: u64 = 1099511627776;
