//! The list of changes that sessions make, and which replies may be given over it.
//!
//! `ChangeLog` is the list: it only grows, and the id of each subscription's row is the place of its change. What every
//! layer above says by it stands in specs/: History (what is live after a list, and when a list is well formed),
//! Requests (what a session asks and is answered), Walk (which replies are legal, line by line), Box (the letter box of
//! a run with one session), Made and Alone (the list that such a run makes), Opening (a table with which a list begins).
//! `laws` has what holds of all lists and replies. It stands on be_model. Begin reading at specs/History and specs/Walk.
#![tactic(auto)]

pub mod laws;
mod log;

pub use crate::log::{ChangeLog, is_leave_of, session_of};
