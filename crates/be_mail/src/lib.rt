//! Mailboxes: one queue of letters for each seat, into which every seat puts.
//!
//! `make_mail` makes the mailboxes and the passes of each seat. A pass is what a seat shows of them: what it put where,
//! what it took out of its own mailbox, and how often it found one full or its own empty. The one contract is the rule
//! in `specs/Settled`: of each mailbox and each seat, the letters that were taken and then those still queued are in
//! order those that the seat put there. `Mail::put` and `Mail::fetch` keep it in any schedule, and `Mail::settle` shows
//! it of the passes of all seats. It stands on a queue under a rule, `crossbeam_queue::RuledArrayQueue`; begin with
//! `src/mail.rt` and `specs/Passes`, and `specs/Rule` for what one queue keeps.
#![tactic(auto)]

mod mail;
mod make;
mod naming;
mod passes;
mod rule;
mod settle;
mod waiting;

pub use mail::Mail;
pub use make::make_mail;
pub use naming::{BoxNames, Post};
pub use passes::MailPasses;
