//! What rows give each attribute.

ghost use Rattle.std.specs.Prelude.{◌≡◌, ◌*◌, ◌/◌, ◌-◌, ◌<◌, ◌≤◌, ◌≤ℤ◌, ◌^◌, pos, true, []};
ghost use Rattle.std.specs.List.{list_any};
ghost use Rattle.be_base.specs.declared.limits.TheConstants.{ATTRIBUTES, FIRST_INT, LAST_INT};
ghost use Rattle.be_model.specs.Domains.{width};
ghost use Rattle.be_model.specs.Hulls.{is_on};
ghost use Rattle.be_model.specs.Laws.{IsPart};
ghost use Rattle.be_model.specs.Lies.{row_lies};
ghost use Rattle.be_model.specs.Rows.{has};
ghost use Rattle.be_score.specs.declared.units.TheConstants.{FULL_WEIGHT};
ghost use Rattle.be_score.specs.Scores.{weight};
ghost use Rattle.be_score.specs.Tallies.{Adds, AreZeros, AreBelow};

use crate::units::FULL_WEIGHT;
use be_base::{ATTRIBUTES, AttrNo};
use be_model::{Pred, Row, Schema};

/// How much a row is narrowed by its predicates on an attribute: the full weight, less the thousandths of the domain that
/// the row's span takes. It takes no memory.
pub fn weight(s: &Schema, row: &Row, a: AttrNo) -> i64
    requires lies { row_lies s.now row.now ≡ true }
    requires has { has a row.now ≡ true }
    ensures { result ≡ pos (weight s.now a row.now) }
{
    weight_of(s, row, a) as i64
}

// The weight as a count.
fn weight_of(s: &Schema, row: &Row, a: AttrNo) -> u64
    requires lies { row_lies s.now row.now ≡ true }
    requires has { has a row.now ≡ true }
    ensures weight { result ≡ weight s.now a row.now }
    ensures bounded { result ≤ FULL_WEIGHT }
{
    // The predicates show the form of the condition, and the count that of the schema.
    let _ = row.conj.preds();
    match row.conj.span(s, a) {
        Some(span) if a.0 < s.count() => FULL_WEIGHT - share(span, s.bounds(a)),
        _ => unreachable!(),
    }
}

// How many thousandths of the domain the span takes.
fn share(span: (i64, i64), domain: (i64, i64)) -> u64
    requires part { IsPart domain span }
    requires low { FIRST_INT ≤ℤ domain.0 }
    requires high { domain.1 ≤ℤ LAST_INT }
    ensures share { result ≡ FULL_WEIGHT * width span / width domain }
    ensures bounded { result ≤ FULL_WEIGHT }
{
    FULL_WEIGHT * width_of(span) / width_of(domain)
}

// How many values a range has.
fn width_of(range: (i64, i64)) -> u64
    requires low { FIRST_INT ≤ℤ range.0 }
    requires rising { range.0 ≤ℤ range.1 }
    requires high { range.1 ≤ℤ LAST_INT }
    ensures width { result ≡ width range }
    ensures some { 0 < result }
    ensures few { result ≤ 2 ^ 32 }
{
    (range.1 - range.0 + 1) as u64
}

/// For each attribute, the gain of the rows so far, and how many of them have it. It stands in place.
#[derive(Drop)]
pub struct Tally {
    pub gains: [u128; ATTRIBUTES],
    pub counts: [u64; ATTRIBUTES],
}

impl Tally {
    /// No rows.
    pub fn new() -> Tally
        ensures { AreZeros result.gains × AreZeros result.counts }
    {
        Tally {
            gains: [0; ATTRIBUTES],
            counts: [0; ATTRIBUTES],
        }
    }

    /// A row more. It goes once over the row's predicates, and looks back from each at those before it.
    pub fn add(&mut self, s: &Schema, row: &Row)
        requires lies { row_lies s.now row.now ≡ true }
        requires room { AreBelow (2 ^ 100) self.old.gains }
        requires more { AreBelow (2 ^ 64 - 1) self.old.counts }
        ensures { Adds s.now row.now self.old.gains self.old.counts self.new.gains self.new.counts }
    {
        let preds = row.conj.preds();
        for place in 0..preds.len() {
            let attr = preds[place].attr;
            if !is_among(&preds[..place], attr) {
                let at = index_of(s, row, attr);
                self.gains[at] += weight_of(s, row, attr) as u128;
                self.counts[at] += 1;
            }
        }
    }
}

// Where a tally has the attribute.
fn index_of(s: &Schema, row: &Row, a: AttrNo) -> usize
    requires lies { row_lies s.now row.now ≡ true }
    requires has { has a row.now ≡ true }
    ensures same { result ≡ a.0 }
    ensures below { result < ATTRIBUTES }
{
    // The count shows that the schema has at most so many attributes.
    let _ = s.count();
    usize::from(a.0)
}

// Whether a predicate is on the attribute.
fn is_among(preds: &[Pred], a: AttrNo) -> bool
    ensures { result ≡ list_any (is_on a) preds.now }
{
    preds.iter().any(|pred| pred.attr.0 == a.0)
}
