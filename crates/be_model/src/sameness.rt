//! Whether two conditions, rows or changes say the same. It takes no memory.

ghost use Rattle.std.specs.Prelude.{◌≡◌, ◌↔◌, IsTrue};
ghost use Rattle.be_model.specs.Entries.{entry_of};

use crate::changes::{Change, Row};
use crate::conjs::Conj;
use crate::ops::Op;
use crate::preds::Pred;
use crate::values::Values;

impl Values {
    /// Whether the numbers are the same.
    pub fn same_as(&self, other: &Values) -> bool
        ensures { IsTrue result ↔ (self.now ≡ other.now) }
    {
        self.as_slice() == other.as_slice()
    }
}

impl Op {
    /// Whether the comparison is the same, with the same values.
    pub fn same_as(&self, other: &Op) -> bool
        ensures { IsTrue result ↔ (self.now ≡ other.now) }
    {
        match (self, other) {
            (Op::Lt(x), Op::Lt(y)) => *x == *y,
            (Op::Le(x), Op::Le(y)) => *x == *y,
            (Op::Eq(x), Op::Eq(y)) => *x == *y,
            (Op::Ne(x), Op::Ne(y)) => *x == *y,
            (Op::Ge(x), Op::Ge(y)) => *x == *y,
            (Op::Gt(x), Op::Gt(y)) => *x == *y,
            (Op::Between(x, z), Op::Between(y, w)) => *x == *y && *z == *w,
            (Op::OneOf(xs), Op::OneOf(ys)) => xs.same_as(ys),
            (Op::NoneOf(xs), Op::NoneOf(ys)) => xs.same_as(ys),
            _ => false,
        }
    }
}

impl Pred {
    /// Whether it is the same comparison of the same attribute.
    pub fn same_as(&self, other: &Pred) -> bool
        ensures { IsTrue result ↔ (self.now ≡ other.now) }
    {
        self.attr == other.attr && self.op.same_as(&other.op)
    }
}

impl Conj {
    /// Whether the predicates are the same, in the same order.
    pub fn same_as(&self, other: &Conj) -> bool
        ensures { IsTrue result ↔ (self.now ≡ other.now) }
    {
        are_same(self.preds(), other.preds())
    }
}

fn are_same(preds: &[Pred], others: &[Pred]) -> bool
    ensures { IsTrue result ↔ (preds.now ≡ others.now) }
{
    if preds.len() != others.len() {
        return false;
    }
    for (place, pred) in preds.iter().enumerate() {
        if !pred.same_as(&others[place]) {
            return false;
        }
    }
    true
}

impl Row {
    /// Whether the rows are the same in all their parts.
    pub fn same_as(&self, other: &Row) -> bool
        ensures { IsTrue result ↔ (self.now ≡ other.now) }
    {
        self.id == other.id
            && self.session == other.session
            && self.name == other.name
            && self.conj.same_as(&other.conj)
    }
}

impl Change {
    /// Whether the changes are the same. Rows are compared, and not the references to them.
    pub fn same_as(&self, other: &Change) -> bool
        ensures { IsTrue result ↔ (entry_of self.now ≡ entry_of other.now) }
    {
        match (self, other) {
            (
                Change::Sub {
                    session,
                    serial,
                    row,
                },
                Change::Sub {
                    session: session_2,
                    serial: serial_2,
                    row: row_2,
                },
            ) => *session == *session_2 && *serial == *serial_2 && row.same_as(row_2),
            (
                Change::Unsub {
                    session,
                    serial,
                    name,
                },
                Change::Unsub {
                    session: session_2,
                    serial: serial_2,
                    name: name_2,
                },
            ) => *session == *session_2 && *serial == *serial_2 && **name == **name_2,
            (
                Change::Bye { session, serial },
                Change::Bye {
                    session: session_2,
                    serial: serial_2,
                },
            ) => *session == *session_2 && *serial == *serial_2,
            _ => false,
        }
    }
}
