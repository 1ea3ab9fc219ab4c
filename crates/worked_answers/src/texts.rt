//! Conditions, changes, events and schemas that are read. What was read is told by the writer, which the rows `write` check alone.

use be_base::{AttrNo, Id, NoMemory};
use be_event::{read_event, read_schema, write_event};
use be_expr::{read_change, read_expr, write_change, write_expr};
use be_model::{Change, Schema};
use std::alloc::Global;
use std::fmt::Display;

fn told(alloc: Global, text: Result<Vec<u8>, NoMemory>) -> Result<String, NoMemory> {
    Ok(String::from_utf8_lossy(alloc, text?.as_slice())?)
}

fn fault_text<F: Display + Drop>(alloc: Global, fault: F) -> Result<String, NoMemory> {
    Ok(format!(in alloc; "{fault}")?)
}

pub fn condition(alloc: Global, schema: &Schema, text: &[u8]) -> Result<String, NoMemory> {
    match read_expr(alloc, schema, text) {
        Ok(conj) => told(alloc, write_expr(alloc, schema, &conj)),
        Err(fault) => fault_text(alloc, fault),
    }
}

// Its kind, session and number, and of a subscription the row's id and session.
fn numbers(change: &Change) -> (&'static str, [u64; 4]) {
    match change {
        Change::Sub {
            session,
            serial,
            row,
        } => ("sub", [session.0, *serial, row.id.0, row.session.0]),
        Change::Unsub {
            session,
            serial,
            ..
        } => ("unsub", [session.0, *serial, 0, 0]),
        Change::Bye { session, serial } => ("bye", [session.0, *serial, 0, 0]),
    }
}

pub fn change(alloc: Global, schema: &Schema, text: &[u8]) -> Result<String, NoMemory> {
    let change = match read_change(alloc, schema, text, Id(9)) {
        Ok(change) => change,
        Err(fault) => return fault_text(alloc, fault),
    };
    let told = told(alloc, write_change(alloc, schema, &change))?;
    let numbers = numbers(&change);
    Ok(format!(in alloc; "{numbers:?} {told}")?)
}

pub fn event(alloc: Global, schema: &Schema, text: &[u8]) -> Result<String, NoMemory> {
    match read_event(alloc, schema, text) {
        Ok(event) => told(alloc, write_event(alloc, schema, &event)),
        Err(fault) => Ok(format!(in alloc; "{fault:?}")?),
    }
}

/// The attributes with their bounds.
pub fn schema(alloc: Global, text: &[u8]) -> Result<String, NoMemory> {
    match read_schema(alloc, text) {
        Ok(schema) => attributes(alloc, &schema),
        Err(fault) => fault_text(alloc, fault),
    }
}

fn attributes(alloc: Global, schema: &Schema) -> Result<String, NoMemory> {
    let mut text = String::new(alloc);
    for place in 0..schema.count() {
        let name = schema.name(AttrNo(place));
        let bounds = schema.bounds(AttrNo(place));
        text.push_str(format!(in alloc; "{name} {bounds:?}.")?.as_str())?;
    }
    Ok(text)
}
