//! Workers over one shared desk: a session a file, or a link of a door, and the close.
//!
//! A `Hub` has the desk behind its lock, and the mail. A `DeskBoard` is a seat with them, as the board of its session:
//! reads need no lock, changes take it. `Hub::run_files` serves each file by a worker of its own; what each wrote is
//! legal over every list that keeps the words of the seats that come back. `Hub::run_door` has a worker for each seat, which
//! serves link after link of a door, each as a session of its own (specs/Links). `Hub::close` gives such a list, once the
//! records of all seats agree with it. It stands on be_desk, be_mail, be_session and be_door. Begin reading at specs/Files,
//! specs/Closing and src/board.rt.
#![tactic(auto)]

mod board;
mod close;
mod door_run;
mod drill;
mod files;
mod hub;
mod jobs;
mod links;
mod making;
mod quiet;
mod serving;
mod settling;

pub use board::DeskBoard;
pub use close::{CloseFault, Closed};
pub use drill::Drilled;
pub use files::{FileEnd, FileRun};
pub use hub::Hub;
pub use links::{FIRST_END, WorkEnd};
pub use making::{make_hub, open_hub};
pub use serving::{ServeFault, Served};
