//! The workload of three numbers.

ghost use Rattle.std.specs.Prelude.{◌≡◌, IfOk};
ghost use Rattle.be_workload.specs.Workload.{IsWorkload, schema_text};

use crate::drawing::Script;
use crate::texts::Workload;
use be_base::NoMemory;
use std::alloc::Global;

const SCHEMA: &[u8] =
    b"int a0 0 999\nint a1 0 999\nint a2 0 999\nint a3 0 999\nint a4 0 999\nint a5 0 999\nint a6 0 999\nint a7 0 999\nint a8 0 999\nint a9 0 999\n";

/// Makes the workload that begins with this number.
pub fn workload(alloc: Global, number: u64, subs: u64, events: u64) -> Result<Workload, NoMemory>
    ensures { IfOk result (IsWorkload number subs events) }
{
    let mut script = Script::start(alloc, number);
    script.subscriptions(subs)?;
    script.events(events)?;
    Ok(Workload {
        schema: Vec::from_slice(alloc, SCHEMA)?,
        script: script.into_text(),
    })
}
