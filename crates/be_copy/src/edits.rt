//! Edits of a copy.

use be_model::{Change, Step};
use std::sync::Arc;

/// What a copy absorbs.
#[derive(Drop)]
pub enum Edit {
    /// A change, to be put last in the list.
    Change(Arc<Change>),
    /// A step that reshapes the index, and leaves the list and the rows.
    Reshape(Step),
}
