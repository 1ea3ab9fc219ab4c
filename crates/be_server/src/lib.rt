//! Sessions and commands: the one call that the program makes.
//!
//! Its contract is that of `be_main` (src/entry.rt), a `Promise` over what the outside was and is: how a command may end, and what
//! was then read and written. Each command has the same contract for its own words. specs/Commands names the page of each command,
//! specs/Exact says which status is due. It stands on be_session, which serves one session over a board, on be_hub for sessions at
//! once, on be_mirror for reads beside a feed, on be_follow and be_demand, on be_load_files and be_event for the texts of files, and on be_workload for generated runs. Begin
//! with specs/Promise and specs/Run, then src/run.rt.
#![tactic(auto)]

mod counted;
mod counting;
mod cover;
mod drill;
mod entry;
mod files;
mod follow;
mod generate;
mod heat;
mod hubs;
mod mirror;
mod output;
mod run;
mod scripts;
mod serve;
mod status;
mod sums;

pub use entry::be_main;
pub use status::Status;
