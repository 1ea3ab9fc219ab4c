//! The desk, where changes are taken one at a time, and the seats at it.
//!
//! A desk stands behind a lock. It keeps the list of changes, of which the last one may be held: accepted, and not
//! published yet. A seat is one session's token: it reads its own glass without the lock, and asks the desk for changes
//! under it. Its one contract is that of `Desk::change` (specs/Changes): the list and the seat's record grow by the same
//! change, or neither does, and each answer holds of the whole list. It stands on be_published, be_board and be_mail.
//! Begin reading at specs/Seats, specs/Desks and src/changing.rt.
#![tactic(auto)]

mod ask;
mod broom;
mod changing;
mod checking;
mod desk;
pub mod laws;
mod ledger;
mod letters;
mod maintained;
mod opening;
mod patience;
mod reading;
mod register;
mod rift;
mod seat;
mod stands;
mod stray;
mod tend_count;

pub use ask::Ask;
pub use broom::Broom;
pub use desk::{Desk, SESSIONS_END};
pub use maintained::Maintained;
pub use opening::{make_desk, open_desk};
pub use patience::{LOOK_ROWS, ROWS_RESHAPED, WORK_A_CHANGE, WORK_A_TEND};
pub use rift::Rift;
pub use seat::Seat;
pub use stray::Stray;
pub use tend_count::TendCount;
