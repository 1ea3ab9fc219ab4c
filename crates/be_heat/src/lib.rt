//! Heat: counts that workers raise together, one atomic word each.
//!
//! `Heat::make` gives the words, all at 0, and a seat for each worker. `Heat::add` adds 1 to a word by one atomic step, with
//! no wait and no memory, and the seat knows what it has added itself. The one contract is that of `Heat::close`: when all
//! seats are home, each total is the sum of what the seats have added, in whatever order they did. It stands on be_shared_sums and
//! on a table of atomic words, `atomic_table`. Begin with `src/heat.rt` and `specs/Seats`, and `specs/Counted` for what the
//! words keep at every moment.
#![tactic(auto)]

mod heat;
mod limits;
mod rule;
mod seats;

pub use heat::Heat;
pub use limits::{HEAT_WORDS, SEAT_ADDS};
pub use seats::HeatSeat;
