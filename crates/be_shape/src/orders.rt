//! In which order the rows of a large leaf stand.

use crate::lanes::{LaneAttrs, LaneSlots, Slot, is_free};

/// A class of rows, the number of an attribute, and a bound on it. Any order of rows is right: this one puts rows with like bounds
/// into one block.
pub(crate) type Order = (u8, u8, u32);

// All up to a bound.
const UP_TO: u8 = 0;
// All from a bound on.
const FROM: u8 = 1;
// Those between two bounds.
const BETWEEN: u8 = 2;
// Several lanes on one attribute.
const SEVERAL: u8 = 3;
// Any others, and blanks.
const OTHER: u8 = 4;

/// The order of a blank.
pub(crate) const LAST: Order = (OTHER, u8::MAX, 0);

/// The order of a row with these lanes. Whether they are its whole meaning stands in `sure`.
pub(crate) fn order_of(sure: bool, attrs: LaneAttrs, slots: LaneSlots) -> Order {
    let class = class_of(sure, attrs, slots);
    let bound = if class == UP_TO {
        slots.first.1
    } else {
        slots.first.0
    };
    (class, attrs.first, bound)
}

fn class_of(sure: bool, attrs: LaneAttrs, slots: LaneSlots) -> u8 {
    if !sure || is_free(slots.first) {
        OTHER
    } else if is_free(slots.second) && is_free(slots.third) {
        class_of_one(slots.first)
    } else if is_beside(attrs.first, attrs.second, slots.second)
        && is_beside(attrs.first, attrs.third, slots.third)
    {
        SEVERAL
    } else {
        OTHER
    }
}

// Of rows with one lane that isn't free. The last number of 32 bits but one stands for no bound.
fn class_of_one(slot: Slot) -> u8 {
    let (low, more) = slot;
    if low == 0 {
        UP_TO
    } else if low.checked_add(more) == Some(u32::MAX - 1) {
        FROM
    } else {
        BETWEEN
    }
}

// Whether a lane beside the first is free, or on the attribute of the first.
fn is_beside(first: u8, a: u8, slot: Slot) -> bool {
    is_free(slot) || a == first
}
