//! How many tests a row has.

ghost use Rattle.std.specs.Prelude.{◌≡◌, ◌+◌, true, length, nat_le};
ghost use Rattle.be_shape.specs.declared.test_counts.Count.TheVariants.{One};
ghost use Rattle.be_shape.specs.FewTests.{count_told, has_first, has_second, has_third, tests_of};
ghost use Rattle.be_shape.specs.Glances.{Test};

use crate::lanes::{LaneSlots, is_free};
use crate::small_sets::Told;

/// How many tests there are.
#[derive(Clone, Copy)]
pub(crate) enum Count {
    Zero,
    One,
    Two,
    Three,
}

impl Count {
    /// Of a place, by its slots: a lane without a test is free.
    pub(crate) fn told(told: Told, slots: LaneSlots) -> Count
        ensures { result ≡ count_told told slots.first slots.second slots.third }
    {
        if told.is_set() {
            Count::One
        } else if is_free(slots.first) {
            Count::Zero
        } else if is_free(slots.second) {
            Count::One
        } else if is_free(slots.third) {
            Count::Two
        } else {
            Count::Three
        }
    }

    pub(crate) fn has_first(self) -> bool
        ensures { result ≡ has_first self }
    {
        !matches!(self, Count::Zero)
    }

    pub(crate) fn is_one(self) -> bool
        ensures { result ≡ true → self ≡ One }
    {
        matches!(self, Count::One)
    }

    pub(crate) fn has_second(self) -> bool
        ensures { result ≡ has_second self }
    {
        matches!(self, Count::Two | Count::Three)
    }

    pub(crate) fn has_third(self) -> bool
        ensures { result ≡ has_third self }
    {
        matches!(self, Count::Three)
    }

    /// Whether there is room for so many tests more.
    pub(crate) fn has_room(self, wanted: usize) -> bool
        ensures { (x y z : Test) → result ≡ nat_le (length (tests_of self x y z) + wanted) 3 }
    {
        match self {
            Count::Zero => wanted <= 3,
            Count::One => wanted <= 2,
            Count::Two => wanted <= 1,
            Count::Three => wanted == 0,
        }
    }
}
