//! How much of a domain the span of a row takes, and whether it weighs enough more by it.

ghost use Rattle.std.specs.Prelude.{◌≡◌, ◌≤◌, ◌<◌, ◌≤ℤ◌, ◌+◌, ◌-◌, ◌*◌, ◌/◌, ◌^◌, true, nat_le, slice_get, Some};
ghost use Rattle.be_base.specs.declared.limits.TheConstants.{SHIFT_GAIN, FIRST_INT, LAST_INT};
ghost use Rattle.be_model.specs.Domains.{width};
ghost use Rattle.be_model.specs.Laws.{IsPart};
ghost use Rattle.be_model.specs.Schemas.{IsSchema};
ghost use Rattle.be_score.specs.Scores.{weight};
ghost use Rattle.be_score.specs.declared.units.TheConstants.{FULL_WEIGHT};
ghost use Rattle.be_shape.specs.Shape.{may_stand};
ghost use Rattle.be_plan.specs.Shifts.{is_light};

use be_base::{AttrNo, SHIFT_GAIN};
use be_model::{Row, Schema};
use be_score::FULL_WEIGHT;
use be_shape::Leaf;

/// How many values a span has, and how many the domain.
#[derive(Clone, Copy)]
pub(crate) struct Share {
    pub(crate) values: u64,
    pub(crate) domain: u64,
    pub(crate) ghost there: { 0 < domain },
    pub(crate) ghost within: { values ≤ domain },
    pub(crate) ghost few: { domain ≤ 2 ^ 32 },
}

impl Share {
    /// What a row weighs whose span that is.
    pub(crate) fn weight(self) -> u64
        ensures weighs { result ≡ FULL_WEIGHT - FULL_WEIGHT * self.values / self.domain }
        ensures bounded { result ≤ FULL_WEIGHT }
    {
        FULL_WEIGHT - FULL_WEIGHT * self.values / self.domain
    }
}

/// How many values a range has.
pub(crate) fn width_of(range: (i64, i64)) -> u64
    requires low { FIRST_INT ≤ℤ range.0 }
    requires rising { range.0 ≤ℤ range.1 }
    requires high { range.1 ≤ℤ LAST_INT }
    ensures width { result ≡ width range }
    ensures some { 0 < result }
    ensures few { result ≤ 2 ^ 32 }
{
    (range.1 - range.0 + 1) as u64
}

fn share_of(span: (i64, i64), domain: (i64, i64)) -> Share
    requires part { IsPart domain span }
    requires low { FIRST_INT ≤ℤ domain.0 }
    requires high { domain.1 ≤ℤ LAST_INT }
    ensures values { result.values ≡ width span }
    ensures domain { result.domain ≡ width domain }
{
    Share {
        values: width_of(span),
        domain: width_of(domain),
    }
}

/// The share by which the row, which stands at this place of the leaf, weighs what it does on the attribute. Where it weighs
/// nothing that is all of the domain.
#[tactic(auto, using(std::proofs::lemmas::Option::slice_get_within))]
pub(crate) fn share_at(leaf: &Leaf, place: usize, row: &Row, s: &Schema, a: AttrNo) -> Share
    requires at { slice_get leaf.now place ≡ Some row.now }
    requires may { may_stand s.now row.now ≡ true }
    ensures weighs { weight s.now a row.now ≡ FULL_WEIGHT - FULL_WEIGHT * result.values / result.domain }
    ensures form { IsSchema s.now }
{
    // The count shows the form of the schema.
    let _ = s.count();
    match (s.range(a), leaf.span(place, s, a)) {
        (Some(domain), Some(span)) => share_of(span, domain),
        _ => Share {
            values: 1,
            domain: 1,
        },
    }
}

/// Whether so many values are fewer thousandths of the domain than any row takes which gains.
pub(crate) fn is_light(small: bool, values: u64, domain: u64) -> bool
    requires values { values ≤ 2 ^ 32 }
    requires domain { domain ≤ 2 ^ 32 }
    ensures { result ≡ is_light small values domain }
{
    if small {
        FULL_WEIGHT * values < (SHIFT_GAIN as u64 + 1) * domain
    } else {
        FULL_WEIGHT * values < SHIFT_GAIN as u64 * domain
    }
}

/// Whether a row weighs enough more by the other share than by its own. Mostly the other tells that it doesn't, without
/// a division.
pub(crate) fn is_gain(own: Share, other: Share) -> bool
    ensures { result ≡ nat_le ((FULL_WEIGHT - FULL_WEIGHT * own.values / own.domain) + SHIFT_GAIN) (FULL_WEIGHT - FULL_WEIGHT * other.values / other.domain) }
{
    if (SHIFT_GAIN as u64 + 1) * other.domain <= FULL_WEIGHT * other.values {
        return false;
    }
    own.weight() + SHIFT_GAIN as u64 <= other.weight()
}
