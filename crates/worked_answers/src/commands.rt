//! Which call answers a command.

use crate::{acts, log, names, outside, small, tables, texts, values, writes};
use be_base::{NoMemory, read_count, read_int};
use be_model::{Schema, Values};
use std::alloc::Global;
use std::fmt::Debug;

type Answer = Result<String, NoMemory>;

fn told<T: Debug + Drop>(alloc: Global, answer: T) -> Answer {
    Ok(format!(in alloc; "{answer:?}")?)
}

// A text, or an answer that no row wants.
fn text_of(alloc: Global, text: Option<String>) -> Answer {
    match text {
        Some(text) => Ok(text),
        None => Ok(String::from_str(alloc, "None")?),
    }
}

pub fn answer(alloc: Global, schema: &Schema, command: &str, text: &str) -> Answer {
    let bytes = text.as_bytes();
    match command {
        "condition" => texts::condition(alloc, schema, bytes),
        "change" => texts::change(alloc, schema, bytes),
        "event" => texts::event(alloc, schema, bytes),
        "schema" => texts::schema(alloc, bytes),
        "table" => tables::table(alloc, schema, bytes),
        "write" => writes::written(alloc, schema, text),
        "name" => small::name(alloc, bytes),
        "tokens" => small::tokens(alloc, bytes),
        "acts" => text_of(alloc, acts::replies(alloc, bytes)),
        "sorted" => text_of(alloc, names::sorted(alloc, text)),
        _ => of_values(alloc, schema, command, text),
    }
}

fn of_values(alloc: Global, schema: &Schema, command: &str, text: &str) -> Answer {
    match command {
        "holds" => told(alloc, values::holds(alloc, text)),
        "satisfies" => told(alloc, values::satisfies(alloc, schema, text)),
        "span" => told(alloc, values::span(alloc, schema, text)),
        "check" => told(alloc, values::check(alloc, schema, text)),
        "length" => told(alloc, values::length(alloc, text)),
        "lies" => told(alloc, values::lies(alloc, schema, text)),
        "inserted" => set_of(alloc, values::inserted(alloc, text)),
        "pushed" => set_of(alloc, values::pushed(alloc, text)),
        "many" => told(alloc, values::many(alloc, text)),
        "same" => told(alloc, values::same(alloc, schema, text)),
        _ => of_others(alloc, command, text),
    }
}

fn set_of(alloc: Global, values: Option<Values>) -> Answer {
    match values {
        Some(values) => told(alloc, values.as_slice()),
        None => told(alloc, ()),
    }
}

fn of_others(alloc: Global, command: &str, text: &str) -> Answer {
    let number = text.parse().unwrap_or(0);
    match command {
        "int" => told(alloc, read_int(text.as_bytes())),
        "count" => told(alloc, read_count(text.as_bytes())),
        "compared" => told(alloc, names::compared(text)),
        "hashed" => told(alloc, names::hashed(alloc, text)),
        "listed" => told(alloc, names::listed(alloc, text)),
        "found" => told(alloc, acts::found(alloc, text.as_bytes())),
        "room" => told(alloc, log::room(alloc)),
        "session_at" => told(alloc, log::session_at(alloc, number)),
        "name_of" => told(alloc, log::name_of(alloc, number)),
        "session" => told(alloc, log::session(alloc, number)),
        _ => of_outside(alloc, command, text),
    }
}

fn of_outside(alloc: Global, command: &str, text: &str) -> Answer {
    match command {
        "lines" => told(alloc, outside::lines(alloc, text)),
        "file_lines" => told(alloc, outside::file_lines(alloc, text.as_bytes())),
        "faults" => told(alloc, outside::faults(alloc)),
        "writes" => told(alloc, outside::writes(alloc)),
        "gathered" => told(alloc, outside::gathered(alloc)),
        "files" => told(alloc, outside::files(alloc)),
        "link" => told(alloc, outside::link(alloc)),
        _ => Ok(String::from_str(alloc, "no command")?),
    }
}
