//! The gaps between the numbers of a small set, as slots of what isn't in them.

ghost use Rattle.std.specs.Prelude.{◌≡◌, ◌≤ℤ◌, pos, negsuc, IfSome};
ghost use Rattle.be_shape.specs.Lanes.{free, slot_of};
ghost use Rattle.be_shape.specs.Gaps.{AreTwo, AreThree, AreGaps, TellSet};

use crate::glances::{Ends, GREATEST};
use crate::lanes::{FREE, Slot, ends_fit, slot_of};
use be_model::{Op, Pred, Values};

// What isn't strictly between the two.
fn beyond(x: i32, y: i32) -> Slot
    ensures { result ≡ slot_of (y, x) }
{
    slot_of((y, x))
}

fn narrow(v: i64) -> i32
    requires low { negsuc 2147483647 ≤ℤ v }
    requires high { v ≤ℤ pos 2147483647 }
    ensures { result ≡ v }
{
    v as i32
}

// The gap between two numbers, where these are the ends.
fn gaps_of_two(x: i64, z: i64, ends: Ends) -> Option<(Slot, Slot)>
    ensures { IfSome result (λ gaps. AreTwo x z ends × (gaps ≡ (slot_of (ends.1, ends.0), free))) }
{
    if ends.0 as i64 != x {
        return None;
    }
    if ends.1 as i64 != z {
        return None;
    }
    if z <= x {
        return None;
    }
    if GREATEST as i64 <= z {
        return None;
    }
    Some((beyond(ends.0, ends.1), FREE))
}

// The gaps between three numbers, where the first and the last are the ends.
fn gaps_of_three(x: i64, y: i64, z: i64, ends: Ends) -> Option<(Slot, Slot)>
    ensures { IfSome result (λ gaps. AreThree x y z ends × (gaps ≡ (slot_of (y, ends.0), slot_of (ends.1, y)))) }
{
    if ends.0 as i64 != x {
        return None;
    }
    if ends.1 as i64 != z {
        return None;
    }
    if y <= x {
        return None;
    }
    if z <= y {
        return None;
    }
    if GREATEST as i64 <= z {
        return None;
    }
    let middle = narrow(y);
    Some((beyond(ends.0, middle), beyond(middle, ends.1)))
}

// The gaps of a set of two or three numbers with these ends.
fn gaps_of_set(xs: &Values, ends: Ends) -> Option<(Slot, Slot)>
    ensures { IfSome result (λ gaps. AreGaps xs.now ends gaps) }
{
    match xs.as_slice() {
        [x, z] => gaps_of_two(*x, *z, ends),
        [x, y, z] => gaps_of_three(*x, *y, *z, ends),
        _ => None,
    }
}

/// The gaps of the set, where the predicate on the attribute is of one of two or three numbers with these ends.
pub(crate) fn gaps_of(pred: &Pred, a: u8, ends: Ends) -> Option<(Slot, Slot)>
    ensures { IfSome result (λ gaps. TellSet pred.now (a, slot_of ends) (a, gaps.0) (a, gaps.1)) }
{
    if pred.attr.0 != u16::from(a) {
        return None;
    }
    ends_fit(ends);
    match &pred.op {
        Op::OneOf(xs) => gaps_of_set(xs, ends),
        _ => None,
    }
}
