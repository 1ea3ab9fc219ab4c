//! The texts of events and schemas.
//!
//! Its contract: `read_event` and `read_schema` answer exactly what a text means, or its first fault, and what `write_event`
//! writes is read back as the same. It stands on be_model, and on be_io for the lines of a file. Begin with specs/Grammar and
//! specs/Events, and with specs/SchemaTexts for schemas.
#![tactic(auto)]

mod events;
mod found;
mod items;
mod laws;
mod schema_texts;
mod sending;
mod words;
mod writing;

pub use events::{EventFault, read_event};
pub use laws::{reads_are_written, texts_are_read};
pub use schema_texts::{SchemaFault, SchemaKind, read_schema};
pub use sending::send_event;
pub use writing::write_event;
