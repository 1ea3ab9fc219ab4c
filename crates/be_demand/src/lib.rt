//! What answered events ask for: counted in the files that sessions were served over, beside their transcripts.
//!
//! `count_all` reads each file's lines and the replies to them side by side, a worker a file, and counts in shared atomic words
//! how many replies are a HIT, and for each attribute how many of these answer an event that assigns it. Its one contract: the
//! numbers are those of the sessions' exchanges, whichever exchanges have these lines and these texts. It stands on be_heat for
//! the words and on be_protocol for lines and the texts of replies. Begin with specs/Demand.
#![tactic(auto)]

mod counting;
mod cutting;
mod demand;
mod laws;
mod replies;

pub use demand::{Demand, count_all};
pub use laws::legal_is_fit;
