//! The choice of an attribute.

ghost use Rattle.std.specs.Prelude.{◌≡◌, ◌↔◌, ◌≤◌, ◌*◌, ◌^◌, ◌-ℤ◌, ◌*ℤ◌, pos, unsigned_abs, true, option_map, IfSome, IsNone};
ghost use Rattle.std.specs.List.{list_all};
ghost use Rattle.be_model.specs.Lies.{row_lies};
ghost use Rattle.be_base.specs.declared.names.AttrNo.{AttrNo};
ghost use Rattle.be_score.specs.declared.units.TheConstants.{FULL_WEIGHT, FULL_ALPHA};
ghost use Rattle.be_score.specs.Scores.{IsCandidate, IsPick, is_used};
ghost use Rattle.be_score.specs.Picks.{pick};
ghost use Rattle.be_score.specs.Tallies.{IsTally, better_of};

use crate::tallies::Tally;
use crate::units::{FULL_ALPHA, FULL_WEIGHT};
use be_base::AttrNo;
use be_model::{RowList, Schema};

/// The unused attribute of the highest score that some row has, the lower number on a tie. It takes no memory: it goes
/// once over the rows and their predicates, and then once over the schema's attributes.
pub fn pick_attr<R: RowList>(s: &Schema, rows: &R, used: &[AttrNo], alpha: u8) -> Option<AttrNo>
    requires { list_all (row_lies s.now) (R.rows rows.now) ≡ true }
    ensures pick { IfSome result (IsPick s.now (R.rows rows.now) used.now alpha) }
    ensures none { IsNone result ↔ ((a : AttrNo) → ¬ IsCandidate (R.rows rows.now) used.now a) }
    ensures exact { result ≡ pick s.now (R.rows rows.now) used.now alpha }
{
    let tally = tally_of(s, rows);
    let count = rows.len() as u64;
    let mut best = None;
    for number in 0..s.count() {
        let a = AttrNo(number);
        let at = usize::from(number);
        if tally.counts[at] > 0 && !is_used(used, a) {
            let score = score_of(tally.gains[at], count - tally.counts[at], alpha);
            best = Some(better(best, (a, score)));
        }
    }
    attr_of(best)
}

fn attr_of(best: Option<(AttrNo, i128)>) -> Option<AttrNo>
    ensures { result ≡ option_map (λ b. b.0) best }
{
    let (a, _) = best?;
    Some(a)
}

// What the rows give each attribute.
fn tally_of<R: RowList>(s: &Schema, rows: &R) -> Tally
    requires { list_all (row_lies s.now) (R.rows rows.now) ≡ true }
    ensures { IsTally s.now (R.rows rows.now) result.gains result.counts }
{
    let mut tally = Tally::new();
    for place in 0..rows.len() {
        tally.add(s, rows.row(place));
    }
    tally
}

fn is_used(used: &[AttrNo], a: AttrNo) -> bool
    ensures { result ≡ is_used used.now a }
{
    used.iter().any(|u| u.0 == a.0)
}

// The score of a gain where so many rows haven't the attribute.
fn score_of(gain: u128, without: u64, alpha: u8) -> i128
    requires { gain ≤ FULL_WEIGHT * 2 ^ 64 }
    ensures { result ≡ (pos FULL_ALPHA -ℤ pos alpha) *ℤ pos gain -ℤ pos alpha *ℤ pos (FULL_WEIGHT * without) }
{
    let lost = FULL_WEIGHT as u128 * without as u128;
    product(FULL_ALPHA as i64 - alpha as i64, gain) - product(alpha as i64, lost)
}

fn product(x: i64, y: u128) -> i128
    requires factor { unsigned_abs x ≤ 255 }
    requires sum { y ≤ FULL_WEIGHT * 2 ^ 64 }
    ensures exact { result ≡ x *ℤ pos y }
    ensures bounded { unsigned_abs result ≤ 255 * (FULL_WEIGHT * 2 ^ 64) }
{
    x as i128 * y as i128
}

// The later of two where it has the higher score, and else the earlier.
fn better(best: Option<(AttrNo, i128)>, next: (AttrNo, i128)) -> (AttrNo, i128)
    ensures { result ≡ better_of best next }
{
    match best {
        Some(first) if next.1 <= first.1 => first,
        _ => next,
    }
}
