//! A place of a leaf.

ghost use Rattle.std.specs.Prelude.{◌≡◌, true, Some, None, IsSome, IfSome, option_map};
ghost use Rattle.std.specs.Arc.{arc_value};
ghost use Rattle.be_model.specs.declared.changes.Row.{Row};
ghost use Rattle.be_model.specs.Matching.{satisfies};
ghost use Rattle.be_model.specs.Hulls.{span_in};
ghost use Rattle.be_model.specs.Lies.{row_lies};
ghost use Rattle.be_model.specs.Rows.{has, id_of};
ghost use Rattle.be_model.specs.Forms.{IsConj};
ghost use Rattle.be_shape.specs.Columns.{TellsRow};
ghost use Rattle.be_shape.specs.Glances.{glance, glance_of};
ghost use Rattle.be_shape.specs.Lanes.{are_single};
ghost use Rattle.be_shape.specs.Listed.{attrs_of};
ghost use Rattle.be_shape.specs.Told.{extent_of};

use crate::columns::Entry;
use crate::few_tests::FewTests;
use crate::glances::Glance;
use crate::held::{Held, WIDE};
use crate::listings::RowAttrs;
use crate::orders::Order;
use crate::sights::Sight;
use crate::small_sets::Told;
use be_base::{AttrNo, Id};
use be_model::{Row, Schema};
use std::marker::Model;
use std::sync::Arc;

/// A place of a leaf: a row, or a blank where the leaf ends. It tells at most three tests of the row and its id, so that a row whose
/// attributes are told isn't looked at for these, nor for its spans, and no row for an id below 2^24 - 1.
#[derive(Drop)]
pub struct Kept {
    held: Held,
}

impl Model for Kept {
    ghost use Rattle.std.specs.Prelude.{Option};
    ghost use Rattle.be_model.specs.declared.changes.Row.{Row};

    ghost Value = { Option Row };

    ghost use Rattle.be_shape.specs.Held.{row_of, IsToldIn};

    ghost view = { λ k. row_of k.held };

    ghost invariant = { λ k. IsToldIn k.held };
}

impl Default for Kept {
    fn default() -> Kept
        ensures { result ≡ None }
    {
        Kept { held: Held::Blank }
    }
}

impl Kept {
    pub(crate) fn of(row: Arc<Row>) -> Kept
        ensures { result ≡ Some (arc_value row) }
    {
        let glance = Glance::of(&row.conj);
        let told = glance.told();
        let (told, tests) = glance.tests.settled(told, &row.conj);
        let set_note = tests.set_among(&row.conj);
        Kept {
            held: Held::of(told, set_note, tests, row),
        }
    }

    pub(crate) fn into_row(self) -> Arc<Row>
        requires { IsSome self }
        ensures { self ≡ Some (arc_value result) }
    {
        self.held.into_row()
    }

    /// The row.
    pub fn row(&self) -> &Arc<Row>
        requires { IsSome self.now }
        ensures { self.now ≡ Some (arc_value result.now) }
    {
        self.held.row()
    }

    /// The row's id. The row is looked at only where 24 bits don't tell it.
    pub fn id(&self) -> Id
        requires { IsSome self.now }
        ensures { option_map id_of self.now ≡ Some result.0 }
    {
        let number = self.held.short();
        if number == WIDE {
            self.row().id
        } else {
            Id(u64::from(number))
        }
    }

    /// The row's id. Of a blank there is none.
    pub(crate) fn any_id(&self) -> Option<Id> {
        if self.held.is_blank() {
            None
        } else {
            Some(self.id())
        }
    }

    // The row, and what is told of it.
    fn told(&self) -> (&Arc<Row>, Told, FewTests)
        requires { IsSome self.now }
        ensures row { self.now ≡ Some (arc_value result.0.now) }
        ensures tests { glance result.2.tests (extent_of result.1) ≡ glance_of (arc_value result.0.now).conj }
        ensures form { IsConj (arc_value result.0.now).conj }
    {
        (self.held.row(), self.held.told(), self.held.tests())
    }

    /// The row's attributes.
    pub(crate) fn attrs(&self) -> RowAttrs
        requires { IsSome self.now }
        ensures { option_map (λ row. attrs_of row.conj) self.now ≡ Some result }
    {
        let (_, told, tests) = self.told();
        tests.attrs(told.extent())
    }

    /// Whether the row has a predicate on the attribute.
    pub(crate) fn has_attr(&self, a: AttrNo) -> bool
        requires { IsSome self.now }
        ensures { option_map (λ row. has a row) self.now ≡ Some result }
    {
        let (row, told, tests) = self.told();
        tests.has_attr(told.extent(), row, a)
    }

    /// By what is told without a look at the row, whether the event may satisfy it, and whether it then does for sure. Whether the
    /// event is of single values alone stands in `exact`.
    pub(crate) fn ask(&self, exact: bool, e: &Sight) -> (bool, bool)
        requires row { IsSome self.now }
        requires exact { exact ≡ are_single e.now }
        ensures may { option_map (λ row. satisfies e.now row.conj) self.now ≡ Some true → result.0 ≡ true }
        ensures sure { result.0 ≡ true → result.1 ≡ true → option_map (λ row. satisfies e.now row.conj) self.now ≡ Some true }
    {
        self.held.ask(exact, e)
    }

    /// The attribute of its first lane.
    pub(crate) fn first_attr(&self) -> u8
        requires { IsSome self.now }
    {
        self.held.first_attr()
    }

    /// The row's slots of the attribute, where all lanes are on it and are the row's whole meaning, and its id, where that has 32 bits. The
    /// row is looked at only where 24 bits don't tell it.
    pub(crate) fn entry(&self, a: u8) -> Option<Entry>
        requires { IsSome self.now }
        ensures { (row : Row) → self.now ≡ Some row → IfSome result (λ x. TellsRow a x row) }
    {
        let slots = self.held.slots_on(a)?;
        let id = self.id().0;
        if id <= u64::from(u32::MAX) {
            Some(Entry {
                slots,
                id: id as u32,
            })
        } else {
            None
        }
    }

    // Whether an event of single values satisfies the row. What is told of a set may say no before the row is read.
    fn is_met_by_one(&self, e: &Sight) -> bool
        requires row { IsSome self.now }
        requires single { are_single e.now ≡ true }
        ensures { option_map (λ row. satisfies e.now row.conj) self.now ≡ Some result }
    {
        self.held.may_have_set(e) && self.row().conj.satisfied_by(e.event())
    }

    // Whether the event satisfies the row, by its own values. It stands apart, so that the loop over rows of which most are passed
    // over stays short.
    #[inline(never)]
    fn is_met_by_values(&self, e: &Sight) -> bool
        requires { IsSome self.now }
        ensures { option_map (λ row. satisfies e.now row.conj) self.now ≡ Some result }
    {
        let (row, told, tests) = self.told();
        tests.is_met_by_values(told.extent(), &row.conj, e)
    }

    /// Whether the event satisfies the row. A search asks it only of events that passed the lanes, where these have single values, so
    /// they aren't asked again.
    pub fn is_met(&self, e: &Sight) -> bool
        requires { IsSome self.now }
        ensures { option_map (λ row. satisfies e.now row.conj) self.now ≡ Some result }
    {
        if e.is_exact() {
            self.is_met_by_one(e)
        } else {
            self.is_met_by_values(e)
        }
    }

    /// The row's span on the attribute.
    pub(crate) fn span(&self, s: &Schema, a: AttrNo) -> Option<(i64, i64)>
        requires row { IsSome self.now }
        requires lies { option_map (row_lies s.now) self.now ≡ Some true }
        ensures { option_map (λ row. span_in s.now a row.conj) self.now ≡ Some result }
    {
        let (row, told, tests) = self.told();
        tests.span(told.extent(), &row.conj, s, a)
    }

    /// Where it stands among the rows of a large leaf that are put in order.
    pub(crate) fn order(&self) -> Order {
        self.held.order()
    }
}
