//! One writer and many readers of two copies of one list of changes.
//!
//! `make_pair` gives the writer, a `Press`, and its readers, each a `Glass`. A glass reads the copy that is published, by
//! no lock: its answers are of one list that goes on where all ends that the glass had seen and learnt. The press appends
//! edits and publishes all of them or none. The two copies are left_right's; what ties what readers saw is one history of
//! changes (src/history.rt), of which each copy names the beginning that its list is. It stands on be_copy and be_core.
//! Begin reading at specs/States, specs/Reads and src/glass.rt.
#![tactic(auto)]

mod beyond;
mod front;
mod glass;
mod history;
pub mod laws;
mod looking;
mod notes;
mod page;
mod pair;
mod press;
mod round;
mod shade;
mod sheet;
mod told;
mod trail;
mod writing;

pub use beyond::Beyond;
pub use front::Front;
pub use glass::Glass;
pub use history::{Book, Naming, Opened};
pub use notes::Note;
pub use page::Page;
pub use pair::{make_pair, open_pair};
pub use press::Press;
pub use shade::Shade;
pub use sheet::Sheet;
pub use told::Told;
