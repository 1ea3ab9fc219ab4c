//! The protocol: what a session's line asks, the bytes of a reply, and which bytes a session may be given for its lines.
//!
//! Definitions and the code that meets them stand side by side: `read_line` reads a line as specs/Readings says, and the texts
//! of specs/Replies are written here (`say`, `write_hits`, `write_names`, `write_rows`, `write_changes`, `send_note`,
//! `say_end`). The contract of be_server's `be_main` is made of the definitions. It stands on be_io (lines), be_change (which
//! reply may answer which request), be_expr and be_event (texts). `converse` takes the turns of a conversation over a link, for
//! anything that answers lines (`Replier`): specs/Conversation says how it may end, specs/Conduct what its exchanges make of the
//! state of what answers. Begin with specs/Readings and specs/Replies; specs/Transcript
//! puts them together, and specs/Runs is a run with one session.
#![tactic(auto)]

mod conversing;
mod ends;
mod noting;
mod replier;
mod requests;
mod saying;
mod short;
mod texts;

pub use conversing::{REPLIES_TENDED, converse};
pub use ends::SessionEnd;
pub use noting::{say_end, send_note};
pub use replier::{Replier, Turn};
pub use requests::{Refusal, Request, Subscription, read_line};
pub use saying::say;
pub use short::Short;
pub use texts::{Naming, write_changes, write_hits, write_names, write_rows};
