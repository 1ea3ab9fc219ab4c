//! The command `gen`: a generated script is served in memory, and what it found is summed up.

ghost use Rattle.std.specs.Prelude.{◌≡◌, ◌≤◌, Some, string_bytes, IfOk};
ghost use Rattle.be_base.specs.declared.limits.TheConstants.{GENERATED_SUBSCRIPTIONS, GENERATED_EVENTS};
ghost use Rattle.be_io.specs.Outside.{link_state};
ghost use Rattle.be_workload.specs.Asked as made;
ghost use Rattle.be_workload.specs.Workload.{schema_text};
ghost use Rattle.be_server.specs.Gen.{IsSumsLine};
ghost use Rattle.be_server.specs.Outside.{objects, passage};
ghost use Rattle.be_server.specs.Promise.{Promise};
ghost use Rattle.be_server.specs.Sums.{AreScriptSums};
ghost use Rattle.be_command_line.specs.Words.{gen};

use crate::counted::CountedBoard;
use crate::counting::count_script;
use crate::output::{status_of, write_out};
use crate::status::Status;
use crate::sums::Sums;
use be_base::NoMemory;
use be_door::Door;
use be_event::{SchemaFault, read_schema};
use be_io::{Link, Shelf, Sink, Source};
use be_model::Schema;
use be_tree::BeTree;
use be_workload::{workload, workloads_are_read};
use std::alloc::Global;
use std::sync::Arc;

// Reads the schema of a workload, which has no fault.
fn read_made_schema(alloc: Global, text: &[u8]) -> Result<Schema, NoMemory>
    requires { text.now ≡ schema_text }
    ensures { IfOk result (λ schema. schema ≡ made.schema) }
{
    workloads_are_read();
    match read_schema(alloc, text) {
        Ok(schema) => Ok(schema),
        Err(SchemaFault::NoMemory) => Err(NoMemory),
        Err(SchemaFault::Line { .. }) => unreachable!(),
    }
}

// Makes the workload of these numbers, serves its script in memory, and sums up the replies. No transcript is kept.
fn sums_of(alloc: Global, number: u64, subs: u64, events: u64) -> Result<Sums, NoMemory>
    requires subs { subs ≤ GENERATED_SUBSCRIPTIONS }
    requires events { events ≤ GENERATED_EVENTS }
    ensures { IfOk result (AreScriptSums made.schema (made.script_requests number subs events) events) }
{
    workloads_are_read();
    let workload = workload(alloc, number, subs, events)?;
    let schema = read_made_schema(alloc, workload.schema.as_slice())?;
    let schema = Arc::new(alloc, schema)?;
    let shared = Arc::try_clone(&schema)?;
    let board = CountedBoard::make(alloc, BeTree::make(alloc, shared))?;
    count_script(alloc, board, &schema, workload.script.as_slice())
}

// The line that is printed.
fn line_of(alloc: Global, number: u64, subs: u64, events: u64) -> Result<String, NoMemory>
    requires subs { subs ≤ GENERATED_SUBSCRIPTIONS }
    requires events { events ≤ GENERATED_EVENTS }
    ensures { IfOk result (λ line. IsSumsLine number subs events (string_bytes line)) }
{
    sums_of(alloc, number, subs, events)?.line(alloc, subs, events)
}

/// Makes the workload of these numbers, serves its script in memory, and writes the line of its sums.
pub fn generate<F, S, K, L, D>(
    alloc: Global,
    number: u64,
    subs: u64,
    events: u64,
    out: &mut K,
) -> Status
where
    F: Shelf,
    S: Source,
    K: Sink,
    L: Link,
    D: Door<L>,
    requires subs { subs ≤ GENERATED_SUBSCRIPTIONS }
    requires events { events ≤ GENERATED_EVENTS }
    ensures { (shelf : _) (input : _) (door : _) → Promise (passage F.Shelf S.Source K.Sink D.state (link_state L.Source L.Sink)
        (objects shelf input out.old door) (objects shelf input out.new door))
        (Some (gen number subs events)) result }
{
    match line_of(alloc, number, subs, events) {
        Ok(line) => status_of(write_out(out, line.as_str().as_bytes())),
        Err(NoMemory) => Status::NoMemory,
    }
}
