//! The sums of a generated run.

ghost use Rattle.std.specs.Prelude.{◌≡◌, string_bytes, IfOk};
ghost use Rattle.be_server.specs.Sums.{no_script_sums, sums_line};

use be_base::NoMemory;
use be_model::Cost;
use std::alloc::Global;

/// What the events of a script find and cost, all together.
#[derive(Clone, Copy, Debug, PartialEq, Eq)]
pub struct Sums {
    /// How many rows they satisfy.
    pub hits: u64,
    pub cost: Cost,
}

impl Sums {
    pub fn none() -> Sums
        ensures { result ≡ no_script_sums }
    {
        Sums {
            hits: 0,
            cost: Cost::none(),
        }
    }

    /// The line that is printed of them, its LF included.
    pub fn line(self, alloc: Global, subs: u64, events: u64) -> Result<String, NoMemory>
        ensures { IfOk result (λ line. string_bytes line ≡ sums_line subs events self) }
    {
        let Sums { hits, cost } = self;
        let Cost { visits, tested } = cost;
        Ok(format!(in alloc; "GEN {subs} {events} {hits} {visits} {tested}\n")?)
    }
}
