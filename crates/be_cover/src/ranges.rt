//! Sets of values as lists of ranges.

ghost use Rattle.std.specs.Prelude.{◌≡◌, ◌&&◌, true, not, find, Some, option_copied};
ghost use Rattle.be_model.specs.Domains.{is_within};
ghost use Rattle.be_cover.specs.Ranges.{rise_apart, is_in, IsLeast, least_behind, least_outside, least_beyond};

use std::marker::Model;

/// The values of an attribute that a condition allows, as ranges that rise and don't touch.
#[derive(Drop)]
pub struct Allowed {
    ranges: Vec<(i64, i64)>,
}

impl Model for Allowed {
    ghost use Rattle.std.specs.Prelude.{◌≡◌, true, ℤ, List};

    ghost Value = { List (ℤ × ℤ) };

    ghost use Rattle.be_cover.specs.Ranges.{rise_apart};

    ghost view = { λ x. x.ranges.items };

    ghost invariant = { λ x. rise_apart x.ranges.items ≡ true };
}

impl Allowed {
    // The values of these ranges.
    pub(crate) fn of(ranges: Vec<(i64, i64)>) -> Allowed
        requires { rise_apart ranges.items ≡ true }
        ensures { result ≡ ranges.items }
    {
        Allowed { ranges }
    }

    /// Each range by its least and its greatest value.
    pub fn ranges(&self) -> &[(i64, i64)]
        ensures ranges { result.now ≡ self.now }
        ensures form { rise_apart self.now ≡ true }
    {
        self.ranges.as_slice()
    }

    // The least value.
    pub(crate) fn least(&self) -> Option<i64>
        ensures { IsLeast (is_in self.now) result }
    {
        match self.ranges.as_slice() {
            [] => None,
            [first, ..] => Some(first.0),
        }
    }
}

/// The least value of the first set that isn't in the other one. It takes no memory.
pub fn minus(x: &Allowed, y: &Allowed) -> Option<i64>
    ensures { IsLeast (λ v. is_in x.now v && not (is_in y.now v)) result }
{
    least_beyond(x.ranges(), y.ranges())
}

// The least value of the first ranges that isn't in the others.
fn least_beyond(ranges: &[(i64, i64)], others: &[(i64, i64)]) -> Option<i64>
    ensures { result ≡ least_beyond others.now ranges.now }
{
    for range in ranges {
        let least = least_outside(*range, others);
        if least.is_some() {
            return least;
        }
    }
    None
}

// The least value of a range that isn't in the others, which rise and don't touch.
fn least_outside(range: (i64, i64), others: &[(i64, i64)]) -> Option<i64>
    ensures { result ≡ least_outside others.now range }
{
    match holding(others, range) {
        None => Some(range.0),
        Some(other) => least_behind(range, *other),
    }
}

fn least_behind(range: (i64, i64), other: (i64, i64)) -> Option<i64>
    ensures { result ≡ least_behind range (Some other) }
{
    if other.1 < range.1 {
        Some(other.1 + 1)
    } else {
        None
    }
}

// Which of the others holds the least value of a range.
fn holding(others: &[(i64, i64)], range: (i64, i64)) -> Option<&(i64, i64)>
    ensures { option_copied result ≡ find (λ x. is_within x range.0) others.now }
{
    others.iter().find(|x| x.0 <= range.0 && range.0 <= x.1)
}
