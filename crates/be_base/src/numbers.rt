//! Numbers in texts.

ghost use Rattle.std.specs.Prelude.{◌≡◌, ◌≤◌, Some, None, min, if◌then◌else◌};
ghost use Rattle.be_base.specs.Numbers.{are_digits, decimal_value, count_of, int_of};

use crate::limits::{COUNT_END, INT_SIZE};

/// Reads one or more digits as a number below 2^63.
pub fn read_count(text: &[u8]) -> Option<u64>
    ensures { result ≡ count_of text.now }
{
    let value = digits_up_to(text, COUNT_END)?;
    if value < COUNT_END { Some(value) } else { None }
}

/// Reads an optional `-` and digits. A number of a greater size than [`INT_SIZE`] is read as that size with its sign,
/// which no domain holds.
pub fn read_int(text: &[u8]) -> Option<i64>
    ensures { result ≡ int_of text.now }
{
    let (first, rest) = text.split_first()?;
    if *first == b'-' {
        let size = digits_up_to(rest, INT_SIZE)?;
        Some(-(size as i64))
    } else {
        let size = digits_up_to(text, INT_SIZE)?;
        Some(size as i64)
    }
}

// The value of one or more digits, or the cap where that is less.
fn digits_up_to(text: &[u8], cap: u64) -> Option<u64>
    ensures { result ≡ (if are_digits text.now then Some (min (decimal_value text.now) cap) else None) }
{
    if text.is_empty() {
        return None;
    }
    let mut value: u64 = 0;
    for b in text {
        if !b.is_ascii_digit() {
            return None;
        }
        let digit = u64::from(*b - b'0');
        value = value.saturating_mul(10).saturating_add(digit).min(cap);
    }
    Some(value)
}
