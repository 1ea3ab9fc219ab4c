//! A list of changes, and an index that holds what is live in it.
//!
//! Its contract is that of `Copy2::absorb`: an edit changes the list wholly or not at all, and the index's rows stay what is
//! live in the list, whatever is handed in. A register beside the index finds the rows of a session, and those of a name, with hardly
//! a look at others. It stands on be_change and be_index. Begin reading at specs/Edits and src/copies.rt.
#![tactic(auto)]

mod bitmaps;
mod copies;
mod edits;
mod hits;
mod keys;
mod live;
mod marks;
mod places;
mod reads;
mod register;
mod spaced_names;
mod tails;
mod wanted;

pub use bitmaps::Bitmaps;
pub use copies::Copy2;
pub use edits::Edit;
pub use places::Places;
pub use register::Register;
pub use wanted::Wanted;
