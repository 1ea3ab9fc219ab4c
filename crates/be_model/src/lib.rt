//! Schemas, conditions, events, rows and changes, and when an event satisfies a condition.
//!
//! Its contract: `Conj::satisfied_by` answers `satisfies` of specs/Matching, and the laws of src/laws.rt say what hulls and
//! spans are good for. It stands on be_base. Begin with specs/Schemas, specs/Matching and specs/Hulls.
#![tactic(auto)]

mod changes;
mod conjs;
mod costs;
mod events;
mod found;
mod laws;
mod letters;
mod name_lists;
mod ops;
mod overlaps;
mod paths;
mod preds;
mod row_lists;
mod sameness;
mod schemas;
mod set_texts;
mod texts;
mod values;

pub use changes::{Change, Row};
pub use conjs::{Conj, DomFault, check_conj};
pub use costs::Cost;
pub use events::Event;
pub use found::Found;
pub use laws::{
    halves_split, halvings_count, hulls_hold, names_are_found, spans_are, spans_hold, spans_lie,
    values_are_read, values_are_words,
};
pub use letters::{EventText, Letter};
pub use name_lists::Names;
pub use ops::Op;
pub use paths::{Hop, Path, Step, StepDone};
pub use preds::Pred;
pub use row_lists::RowList;
pub use schemas::{Attribute, Domain, Schema, is_reserved};
pub use set_texts::Met;
pub use values::{VALUES_IN_PLACE, Values};
