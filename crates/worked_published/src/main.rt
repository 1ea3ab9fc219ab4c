//! Tests of a press and its glasses, as the desk will have them. Each line of the output is what came of one use; the lines are
//! the same whatever the schedule, and the gate compares them with `stdout`. `told.rt` has uses in one thread, `race.rt` has
//! four readers beside a writer.
#![tactic(auto)]

mod changes;
mod race;
mod told;

use be_event::read_schema;
use be_model::Schema;
use std::alloc::Global;
use std::io;
use std::sync::Arc;

const SCHEMA: &[u8] = b"int price 0 1000\n";

fn schema(alloc: Global) -> Option<Arc<Schema>> {
    Arc::new(alloc, read_schema(alloc, SCHEMA).ok()?).ok()
}

fn text(done: Option<bool>) -> &'static str {
    match done {
        Some(true) => "yes",
        Some(false) => "no",
        None => "out of memory",
    }
}

fn main(rt: HostRuntime) -> io::Result<()> {
    let alloc = rt.alloc();
    let Some(schema) = schema(alloc) else {
        return Ok(());
    };
    let seen = told::untold_glass_reads(&rt, alloc, &schema);
    println!(rt;
        "a glass that wasn't told reads the published change: {}",
        text(seen)
    )?;
    let pending = told::pending_is_unseen(&rt, alloc, &schema);
    println!(rt;
        "a pending change is seen by none, and told by none: {}",
        text(pending)
    )?;
    let opened = told::opening_is_known(&rt, alloc, &schema);
    println!(rt; "an opening is known from the beginning: {}", text(opened))?;
    let raced = race::readers_see_what_they_say(&rt, alloc, &schema);
    println!(rt;
        "four readers beside a writer of 10000 changes find what their lengths say: {}",
        text(raced)
    )?;
    Ok(())
}
