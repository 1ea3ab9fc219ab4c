//! Predicates: comparisons of attributes.

ghost use Rattle.std.specs.Prelude.{◌≡◌, true, Some, option_map};
ghost use Rattle.be_model.specs.Forms.{OpForm};
ghost use Rattle.be_model.specs.Hulls.{hull};
ghost use Rattle.be_model.specs.Lies.{pred_lies};
ghost use Rattle.be_model.specs.Matching.{holds, meets, is_met, values_of};
ghost use Rattle.be_model.specs.Schemas.{range_of};

use crate::events::Event;
use crate::ops::Op;
use crate::schemas::Schema;
use crate::values::Values;
use be_base::AttrNo;

/// A comparison of an attribute's values.
#[derive(Drop)]
pub struct Pred {
    pub attr: AttrNo,
    pub op: Op,
}

impl Pred {
    /// Whether a value meets the comparison.
    pub fn holds(&self, v: i64) -> bool
        ensures { result ≡ holds self.now.op v }
    {
        self.op.holds(v)
    }

    /// Whether at least one of the values meets the comparison.
    pub fn meets(&self, vs: &Values) -> bool
        ensures { result ≡ meets self.now.op vs.now }
    {
        self.op.meets(vs)
    }

    /// Whether the event gives the attribute values, of which at least one meets the comparison.
    pub fn satisfied_by(&self, e: &Event) -> bool
        ensures { result ≡ is_met (values_of e.now self.now.attr) self.now.op }
    {
        match e.values(self.attr) {
            Some(vs) => self.meets(vs),
            None => false,
        }
    }

    /// Whether the schema has the attribute, and each value is in its domain.
    pub fn lies(&self, s: &Schema) -> bool
        ensures lies { result ≡ pred_lies s.now self.now }
        ensures form { OpForm self.now.op }
    {
        match s.range(self.attr) {
            Some(range) => self.op.lies(range),
            None => {
                // It is asked for the form of the comparison alone.
                let _ = self.op.lies((0, 0));
                false
            }
        }
    }

    /// A range of values, beyond which the predicate holds of no value of the domain.
    pub fn hull(&self, s: &Schema) -> (i64, i64)
        requires { pred_lies s.now self.now ≡ true }
        ensures { option_map (λ range. hull range self.now.op) (range_of s.now self.now.attr) ≡ Some result }
    {
        match s.range(self.attr) {
            Some(range) => self.op.hull(range),
            None => unreachable!(),
        }
    }
}
