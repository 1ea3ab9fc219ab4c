//! What the product takes from the outside and gives to it: sources, sinks, links, shelves and gates, as traits with
//! counts of faults, and lines read from a source.
//!
//! Its contract: lines are those of the bytes read, and a fault comes only where the object that was handed in counted it. Each
//! trait has an object in memory; the thin adapters over the real things (standard.rt) are the trusted edge. It stands on
//! be_base. Begin with specs/Outside, then specs/Reader.
#![tactic(auto)]

mod buffer;
mod calls;
mod faults;
mod file_lines;
mod gate;
mod gathered;
mod lines;
mod link;
mod shelf;
mod sink;
mod source;
mod standard;
mod writing;

pub use faults::{AcceptFault, Failed, LineFault, ListenFault, ShelfFault, SinkFault};
pub use file_lines::{first_line, means_nothing, without_cr};
pub use gate::{Gate, NoGate};
pub use gathered::{GATHERED_BYTES, Gathered};
pub use lines::{Line, LineReader, first_lf};
pub use link::{Link, Pair};
pub use shelf::{MemShelf, Shelf};
pub use sink::{MemSink, Sink};
pub use source::{MemSource, Source};
pub use standard::{FileShelf, StdinSource, StdoutSink};
pub use writing::{hand_on, write_all};
