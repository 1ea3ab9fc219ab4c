//! What is told of a small set of numbers, one of which a row wants of an attribute, so that an event can be refused without a
//! look at the row.

ghost use Rattle.std.specs.Prelude.{◌≡◌, ◌<◌, true, IfSome};
ghost use Rattle.be_shape.specs.Lanes.{raised};
ghost use Rattle.be_shape.specs.Listed.{low_part};
ghost use Rattle.be_shape.specs.declared.small_sets.Told.TheVariants.{AsFew};
ghost use Rattle.be_shape.specs.SetNotes.{may_be, LetsSet};
ghost use Rattle.be_shape.specs.Told.{extent_of, is_set, is_sure};

use crate::glances::{Extent, small};
use crate::lanes::{Slot, raised};
use be_model::Values;

/// How much of a row its tests are.
#[derive(Clone, Copy)]
pub(crate) enum Told {
    AsWhole,
    AsFew,
    AsPart,
    /// All of it is a set of two or three numbers, and its lanes pass these alone.
    IsSet,
}

impl Told {
    pub(crate) fn extent(self) -> Extent
        ensures { result ≡ extent_of self }
    {
        match self {
            Told::AsWhole => Extent::Whole,
            Told::AsPart => Extent::Part,
            Told::AsFew | Told::IsSet => Extent::Few,
        }
    }

    pub(crate) fn is_few(self) -> bool
        ensures { result ≡ true → self ≡ AsFew }
    {
        matches!(self, Told::AsFew)
    }

    /// Whether the lanes behind the first are of the gaps of a set, and of no test.
    pub(crate) fn is_set(self) -> bool
        ensures { result ≡ is_set self }
    {
        matches!(self, Told::IsSet)
    }

    /// Whether an event of single values that passes the lanes satisfies the row.
    pub(crate) fn is_sure(self) -> bool
        ensures { result ≡ is_sure self }
    {
        matches!(self, Told::AsWhole | Told::IsSet)
    }
}

/// The lower 6 bits. Most other numbers have others.
fn low_part(n: u32) -> u8
    ensures { result ≡ low_part n }
{
    (n % 64) as u8
}

/// Whether the value that is seen may be in the set whose ends are those of the slot, and of which `middle_of` is `middle`. No end is
/// left out, since which of them it is can't be foreseen.
pub(crate) fn may_be(slot: Slot, middle: u8, x: u32) -> bool
    ensures { result ≡ may_be slot middle x }
{
    (x == slot.0) | (x == slot.0.wrapping_add(slot.1)) | (low_part(x) == middle)
}

// The lower bits of a number, as it is seen.
fn bits_of(v: i64) -> Option<u8>
    ensures { IfSome result (λ m. m ≡ low_part (raised v)) }
{
    Some(low_part(raised(small(v)?)))
}

/// The lower bits of the middle one of three numbers, or of the first of fewer. None of a larger set.
pub(crate) fn middle_of(xs: &Values) -> Option<u8>
    ensures low { IfSome result (λ m. m < 64) }
    ensures set { IfSome result (λ m. LetsSet xs.now m) }
{
    match xs.as_slice() {
        [x] => bits_of(*x),
        [x, _] => bits_of(*x),
        [_, x, _] => bits_of(*x),
        _ => None,
    }
}
