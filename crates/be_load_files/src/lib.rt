//! Load files: tables of rows with which a list of changes begins.
//!
//! Its contract: `read_table` answers exactly the rows that a text is, or its first fault, and the rows are a table that may open
//! a list. It stands on be_expr (a row's name and condition), be_io (the lines of a file) and be_change (tables), and on
//! be_protocol for the law that a dump is a load file. Begin with specs/Tables, and with specs/Dumps for the law.
#![tactic(auto)]

mod faults;
mod laws;
mod read;

pub use faults::{TableFault, TableKind};
pub use laws::dump_reads_back;
pub use read::read_table;
