//! What answers each line of the input, over a schema or without one.

use be_event::read_schema;
use be_model::Schema;
use std::alloc::Global;
use std::io;
use std::sync::Arc;

/// Prints each line of the input with its answer.
pub fn answer_each<R: Input + Print, F: Fn(&str) -> Option<String>>(
    rt: &R,
    alloc: Global,
    answer: F,
) -> io::Result<()>
    requires { F.IsAlwaysCallable answer }
{
    for line in rt.lines(alloc) {
        let line = line?;
        match answer(line.as_str()) {
            Some(text) => println!(rt; "{line} -> {text}")?,
            None => println!(rt; "{line} -> nothing")?,
        }
    }
    Ok(())
}

/// The same over the schema of a text. Where it is none, nothing is printed.
pub fn answer_each_in<R: Input + Print, F: Fn(&Arc<Schema>, &str) -> Option<String>>(
    rt: &R,
    alloc: Global,
    schema: &[u8],
    answer: F,
) -> io::Result<()>
    requires { F.IsAlwaysCallable answer }
{
    let Some(schema) = shared(alloc, schema) else {
        return Ok(());
    };
    answer_each(rt, alloc, |line| answer(&schema, line))
}

fn shared(alloc: Global, text: &[u8]) -> Option<Arc<Schema>> {
    Arc::new(alloc, read_schema(alloc, text).ok()?).ok()
}
