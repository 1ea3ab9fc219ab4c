//! Slots of values, which a search of an event of single values asks.

ghost use Rattle.std.specs.Prelude.{◌≡◌, ◌<◌, ◌≤ℤ◌, ◌^◌, pos, negsuc};
ghost use Rattle.be_model.specs.Schemas.{numbered};
ghost use Rattle.be_shape.specs.Lanes.{raised, lowered, lets, slot_of, ends_of, is_free};

use crate::glances::Ends;
use be_base::AttrNo;

/// A first value, counted from the least number of 32 bits, and how many more there are from it on. It goes round.
pub(crate) type Slot = (u32, u32);

/// The slot that lets every event pass, also one without a value.
pub(crate) const FREE: Slot = (0, u32::MAX);

/// The numbers of the attributes of three lanes.
#[derive(Clone, Copy)]
pub(crate) struct LaneAttrs {
    pub(crate) first: u8,
    pub(crate) second: u8,
    pub(crate) third: u8,
}

/// The slots of three lanes.
#[derive(Clone, Copy)]
pub(crate) struct LaneSlots {
    pub(crate) first: Slot,
    pub(crate) second: Slot,
    pub(crate) third: Slot,
}

/// Whether the slot lets every event pass, also one without a value.
pub(crate) fn is_free(slot: Slot) -> bool
    ensures { result ≡ is_free slot }
{
    slot.0 == 0 && slot.1 == u32::MAX
}

/// The number, counted from the least one.
pub(crate) fn raised(v: i32) -> u32
    ensures { result ≡ raised v }
{
    (v as i64 + 2147483648) as u32
}

/// The number that is counted so.
pub(crate) fn lowered(n: u32) -> i32
    ensures { result ≡ lowered n }
{
    (n as i64 - 2147483648) as i32
}

/// That the numbers of a slot have 32 bits. To call it does nothing.
pub(crate) fn slot_fits(slot: Slot)
    ensures low { slot.0 < 2 ^ 32 }
    ensures more { slot.1 < 2 ^ 32 }
{}

/// That ends have 32 bits. To call it does nothing.
pub(crate) fn ends_fit(ends: Ends)
    ensures low_from { negsuc 2147483647 ≤ℤ ends.0 }
    ensures low_to { ends.0 ≤ℤ pos 2147483647 }
    ensures high_from { negsuc 2147483647 ≤ℤ ends.1 }
    ensures high_to { ends.1 ≤ℤ pos 2147483647 }
{}

/// Whether the number is in the slot.
pub(crate) fn lets(x: u32, slot: Slot) -> bool
    ensures { result ≡ lets x slot }
{
    x.wrapping_sub(slot.0) <= slot.1
}

/// The slot of the values between these ends, or of those beyond them where they are turned.
pub(crate) fn slot_of(ends: Ends) -> Slot
    ensures { result ≡ slot_of ends }
{
    let low = raised(ends.0);
    (low, raised(ends.1).wrapping_sub(low))
}

/// The ends of the slot.
pub(crate) fn ends_of(slot: Slot) -> Ends
    ensures { result ≡ ends_of slot }
{
    (lowered(slot.0), lowered(slot.0.wrapping_add(slot.1)))
}

/// The attribute of the number.
pub(crate) fn numbered(a: u8) -> AttrNo
    ensures { result ≡ numbered a }
{
    AttrNo(u16::from(a))
}

/// The attribute and the slot of a lane, of three the first, the second or any other.
pub(crate) fn lane_at(at: u8, attrs: LaneAttrs, slots: LaneSlots) -> (u8, Slot)
    ensures first { at ≡ 1 → result ≡ (attrs.first, slots.first) }
    ensures second { at ≡ 2 → result ≡ (attrs.second, slots.second) }
    ensures third { at ≡ 3 → result ≡ (attrs.third, slots.third) }
{
    if at == 1 {
        (attrs.first, slots.first)
    } else if at == 2 {
        (attrs.second, slots.second)
    } else {
        (attrs.third, slots.third)
    }
}
