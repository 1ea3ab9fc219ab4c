//! The texts of conditions and of changes.
//!
//! Its contract: `read_expr` and `read_change` answer exactly what a text means, or its first fault, and what `write_expr` and
//! `write_change` write is read back as the same. What stands between tokens and meaning are predicates as they are written,
//! with words for values. It stands on be_model. Begin with specs/Grammar and specs/Expressions.
#![tactic(auto)]

mod build;
mod changes;
mod faults;
pub mod laws;
mod named;
mod parts;
mod read;
mod scan;
mod writing;

pub use changes::read_change;
pub use faults::ExprFault;
pub use named::read_named;
pub use read::read_expr;
pub use writing::{append_change, append_expr, write_change, write_expr};
