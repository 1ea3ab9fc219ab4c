//! Conditions on events: conjunctions of predicates.

ghost use Rattle.std.specs.Prelude.{◌≡◌, ◌↔◌, ◌<◌, ◌≤◌, [], ◌∷◌, ◌++◌, true, false, not, length, position, find, slice_get, option_copied, Some, option_map, IsTrue, OnOk, OnErr, IsOk, IsNone, IfErr, IfSome};
ghost use Rattle.std.specs.List.{list_any};
ghost use Rattle.be_model.specs.Forms.{IsConj};
ghost use Rattle.be_model.specs.Hulls.{span_in, is_on};
ghost use Rattle.be_model.specs.Lies.{pred_lies, conj_lies};
ghost use Rattle.be_model.specs.Matching.{satisfies};

use crate::events::Event;
use crate::preds::Pred;
use crate::schemas::Schema;
use be_base::{AttrNo, NoMemory, PREDICATES};
use std::alloc::Global;
use std::marker::Model;
use thiserror::Error;

/// At most 32 predicates, all of which have to hold.
#[derive(Drop)]
pub struct Conj {
    preds: Vec<Pred>,
}

impl Model for Conj {
    ghost use Rattle.std.specs.Prelude.{List};
    ghost use Rattle.be_model.specs.declared.preds.Pred.{Pred};

    ghost Value = { List Pred };

    ghost use Rattle.be_model.specs.Forms.{IsConj};

    ghost view = { λ c. c.preds.items };

    ghost invariant = { λ c. IsConj c.preds.items };
}

impl Conj {
    /// No predicate, which every event satisfies. It takes no memory.
    pub fn make(alloc: Global) -> Conj
        ensures { result ≡ [] }
    {
        Conj {
            preds: Vec::new(alloc),
        }
    }

    /// Puts a predicate last.
    pub fn push(&mut self, pred: Pred) -> Result<(), NoMemory>
        requires { length self.old < PREDICATES }
        ensures put { OnOk result (self.new ≡ self.old ++ pred ∷ []) }
        ensures refused { OnErr result (self.new ≡ self.old) }
    {
        // It is asked for the form of the comparison alone.
        let _ = pred.op.lies((0, 0));
        self.preds.push(pred)?;
        Ok(())
    }

    /// Gives back the room behind the last predicate.
    pub fn fit(&mut self)
        ensures { self.new ≡ self.old }
    {
        self.preds.shrink_to_fit();
    }

    /// Whether no further predicate may be put.
    pub fn is_full(&self) -> bool
        ensures { IsTrue result ↔ (PREDICATES ≤ length self.now) }
    {
        PREDICATES <= self.preds.len()
    }

    pub fn len(&self) -> usize
        ensures { result ≡ length self.now }
    {
        self.preds.len()
    }

    pub fn is_empty(&self) -> bool
        ensures { IsTrue result ↔ (self.now ≡ []) }
    {
        self.preds.is_empty()
    }

    pub fn preds(&self) -> &[Pred]
        ensures preds { result.now ≡ self.now }
        ensures form { IsConj self.now }
    {
        self.preds.as_slice()
    }

    /// Whether the event satisfies the condition.
    pub fn satisfied_by(&self, e: &Event) -> bool
        ensures { result ≡ satisfies e.now self.now }
    {
        self.preds.iter().all(|pred| pred.satisfied_by(e))
    }

    /// Whether each predicate lies in the schema.
    pub fn lies(&self, s: &Schema) -> bool
        ensures lies { result ≡ conj_lies s.now self.now }
        ensures form { IsConj self.now }
    {
        self.preds.iter().all(|pred| pred.lies(s))
    }

    /// The hull of the first predicate on the attribute. Each event that satisfies the condition has a value
    /// of the attribute there. There is none where no predicate is on the attribute.
    pub fn span(&self, s: &Schema, a: AttrNo) -> Option<(i64, i64)>
        requires { conj_lies s.now self.now ≡ true }
        ensures span { result ≡ span_in s.now a self.now }
        ensures none { IsNone result ↔ (list_any (is_on a) self.now ≡ false) }
    {
        match first_on(self.preds.as_slice(), a) {
            Some(pred) => Some(pred.hull(s)),
            None => None,
        }
    }
}

// The first predicate on the attribute.
fn first_on(preds: &[Pred], a: AttrNo) -> Option<&Pred>
    ensures { option_copied result ≡ find (is_on a) preds.now }
{
    preds.iter().find(|pred| pred.attr.0 == a.0)
}

/// The first predicate whose attribute the schema doesn't have, or that has a value outside its domain.
#[derive(Clone, Copy, Debug, PartialEq, Eq, Error)]
#[error("predicate {pred} doesn't lie in the schema")]
pub struct DomFault {
    /// The place of the predicate, from 0.
    pub pred: u64,
    pub attr: AttrNo,
}

/// Whether a condition lies in a schema.
pub fn check_conj(s: &Schema, c: &Conj) -> Result<(), DomFault>
    ensures lies { IsOk result ↔ (conj_lies s.now c.now ≡ true) }
    ensures first { IfErr result (λ fault. position (λ p. not (pred_lies s.now p)) c.now ≡ Some fault.pred) }
    ensures form { IsConj c.now }
    ensures attribute { IfErr result (λ fault. option_map (λ p. p.attr) (slice_get c.now fault.pred) ≡ Some fault.attr) }
{
    let preds = c.preds();
    match first_outside(s, preds) {
        None => Ok(()),
        Some(place) => Err(DomFault {
            pred: place as u64,
            attr: preds[place].attr,
        }),
    }
}

fn first_outside(s: &Schema, preds: &[Pred]) -> Option<usize>
    ensures below { IfSome result (λ place. place < length preds.now) }
    ensures exact { result ≡ position (λ p. not (pred_lies s.now p)) preds.now }
{
    preds.iter().position(|pred| !pred.lies(s))
}
