//! Which predicates of a condition give a test, by how wide their bounds are.

ghost use Rattle.std.specs.Prelude.{◌≡◌};
ghost use Rattle.std.specs.List.{list_any};
ghost use Rattle.be_model.specs.Hulls.{is_on};
ghost use Rattle.be_shape.specs.Glances.{new_bounds, narrow_bounds, are_widest, refusing, further_bounds, with_width_of, narrowest_of};
ghost use Rattle.be_shape.specs.Widths.{width_of, first_three, with_width, has_place};

use crate::glances::{Bounds, Ends, GREATEST, bounds_of};
use be_base::AttrNo;
use be_model::Pred;

// No bounds of a predicate are so far apart.
const ANY: u64 = 4294967295;

// How far the ends are apart.
fn width_of(ends: Ends) -> u64
    ensures { result ≡ width_of ends }
{
    (ends.1 as i64 - ends.0 as i64).unsigned_abs()
}

// How wide the bounds of the predicate at a place are.
#[derive(Clone, Copy)]
struct Width {
    wide: u64,
    at: usize,
}

/// Three predicates of a condition by their places: the narrowest, the narrowest of them first.
#[derive(Clone, Copy)]
pub(crate) struct Narrowest {
    first: Width,
    second: Width,
    third: Width,
}

impl Narrowest {
    // The first three, before any width is known.
    fn first_three() -> Narrowest
        ensures { result ≡ first_three }
    {
        Narrowest {
            first: Width { wide: ANY, at: 0 },
            second: Width { wide: ANY, at: 1 },
            third: Width { wide: ANY, at: 2 },
        }
    }

    // The three narrowest of these and one more. Of equally wide ones those stay that were there.
    fn with(self, width: Width) -> Narrowest
        ensures { result ≡ with_width width self }
    {
        if width.wide < self.first.wide {
            Narrowest {
                first: width,
                second: self.first,
                third: self.second,
            }
        } else if width.wide < self.second.wide {
            Narrowest {
                first: self.first,
                second: width,
                third: self.second,
            }
        } else if width.wide < self.third.wide {
            Narrowest {
                first: self.first,
                second: self.second,
                third: width,
            }
        } else {
            self
        }
    }

    fn with_bounds(self, bounds: Option<Bounds>, at: usize) -> Narrowest
        ensures { result ≡ with_width_of bounds at self }
    {
        match bounds {
            Some(b) => self.with(Width {
                wide: width_of(b.ends),
                at,
            }),
            None => self,
        }
    }

    // Whether the predicate at this place is one of them.
    fn has(self, at: usize) -> bool
        ensures { result ≡ has_place at self }
    {
        self.first.at == at || self.second.at == at || self.third.at == at
    }

    /// Of more than three predicates the narrowest that are the first on their attributes, so that the widest tests are left out, which
    /// mostly refuse few events. By any others what is told would be as true.
    pub(crate) fn of(preds: &[Pred]) -> Narrowest
        ensures { result ≡ narrowest_of preds.now }
    {
        let mut narrowest = Narrowest::first_three();
        if preds.len() <= 3 {
            return narrowest;
        }
        for at in 0..preds.len() {
            narrowest = narrowest.with_bounds(new_bounds(&preds[..at], &preds[at]), at);
        }
        narrowest
    }

    /// The bounds of a predicate behind these, where it is one of the narrowest and the first on its attribute.
    pub(crate) fn bounds(self, before: &[Pred], pred: &Pred) -> Option<Bounds>
        ensures { result ≡ narrow_bounds self before.now pred.now }
    {
        if self.has(before.len()) {
            new_bounds(before, pred)
        } else {
            None
        }
    }
}

// Whether one of the predicates is on the attribute.
fn has_on(preds: &[Pred], a: AttrNo) -> bool
    ensures { result ≡ list_any (is_on a) preds.now }
{
    preds.iter().any(|pred| pred.attr.0 == a.0)
}

// The bounds of a predicate whose attribute none before it has.
fn new_bounds(before: &[Pred], pred: &Pred) -> Option<Bounds>
    ensures { result ≡ new_bounds before.now pred.now }
{
    if has_on(before, pred.attr) {
        None
    } else {
        bounds_of(&pred.op)
    }
}

fn are_widest(ends: Ends) -> bool
    ensures { result ≡ are_widest ends }
{
    ends.0 == i32::MIN && ends.1 == GREATEST
}

// Bounds that refuse some value. So a `!=` leaves its lane to others.
fn refusing(bounds: Option<Bounds>) -> Option<Bounds>
    ensures { result ≡ refusing bounds }
{
    match bounds {
        Some(b) if !are_widest(b.ends) => Some(b),
        _ => None,
    }
}

/// The bounds by which a predicate on an attribute that has a test gives another. Unless few are still to come, it leaves the room to
/// other attributes.
pub(crate) fn further_bounds(few: bool, pred: &Pred) -> Option<Bounds>
    ensures { result ≡ further_bounds few pred.now }
{
    if few {
        refusing(bounds_of(&pred.op))
    } else {
        None
    }
}
