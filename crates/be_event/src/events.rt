//! The texts of events.

ghost use Rattle.std.specs.Prelude.{◌≡◌, ◌≤◌, [], Some, None, true, length, get_or, IfOk, IfErr, MatchBool};
ghost use Rattle.be_base.specs.declared.limits.TheConstants.{ATTRIBUTES};
ghost use Rattle.be_base.specs.Tokens.{tokens};
ghost use Rattle.be_model.specs.Lies.{event_lies};
ghost use Rattle.be_model.specs.Schemas.{numbered};
ghost use Rattle.be_event.specs.Events.{event, empty_event, sets_by_place, Reads, IsKnown};
ghost use Rattle.be_event.specs.Scan.{meant, AreFine, Finds, Scanned};

use crate::found::Found;
use crate::items::{NextItem, Source, next_item, read_source, scan_given};
use be_base::{ATTRIBUTES, AttrNo, Name, NoMemory, is_end, read_word};
use be_model::{Event, Schema};
use std::alloc::Global;
use thiserror::Error;

/// Why a text is no event.
#[derive(Clone, Copy, Debug, PartialEq, Eq, Error)]
pub enum EventFault {
    /// It has no reading.
    #[error("no reading")]
    Bad,
    /// The first attribute that the schema doesn't have.
    #[error("no attribute {name}")]
    Attr { name: Name },
    /// The attribute of the first value outside its domain.
    #[error("a value outside its domain")]
    Dom { attr: AttrNo },
    /// The first attribute that stands a second time.
    #[error("an attribute twice")]
    Twice { attr: AttrNo },
    /// How many written values the first set has that has too many.
    #[error("too many values: {count}")]
    Many { count: u64 },
    #[error("out of memory")]
    NoMemory,
}

impl From<NoMemory> for EventFault {
    ghost use Rattle.be_event.specs.declared.events.EventFault.TheVariants as fault;

    ghost from_gives = { λ _ given. given ≡ fault.NoMemory };

    fn from(_: NoMemory) -> EventFault {
        EventFault::NoMemory
    }
}

/// Reads a whole text as an event. Only a text without a fault takes memory.
pub fn read_event(alloc: Global, schema: &Schema, text: &[u8]) -> Result<Event, EventFault>
    ensures exact { Reads result (event schema.now text.now) }
    ensures lies { IfOk result (λ e. event_lies schema.now e ≡ true) }
    ensures known { IfErr result (IsKnown schema.now) }
{
    let mut found = Found::nothing();
    if !scan(schema, text, &mut found) {
        return empty_event(alloc, text);
    }
    if !found.faults.some {
        return Err(EventFault::Bad);
    }
    found.faults.judge()?;
    Ok(build(alloc, schema, found.sources)?)
}

// The event of a text without items: `-` alone is the empty one.
fn empty_event(alloc: Global, text: &[u8]) -> Result<Event, EventFault>
    ensures { result ≡ empty_event (tokens text.now) }
{
    match read_word(text) {
        Some((dash, rest)) if dash == b"-".as_slice() && is_end(rest) => Ok(Event::make(alloc)),
        _ => Err(EventFault::Bad),
    }
}

// Notes the items of a whole text, and says whether it has a reading. What is found is lent, since it is large.
fn scan<'a>(schema: &Schema, text: &'a [u8], found: &mut Found<'a>) -> bool
    requires { Finds schema.now [] found.old }
    ensures { MatchBool result (Scanned schema.now text.now (Some found.new)) (Scanned schema.now text.now None) }
{
    let mut left = text;
    'items: loop {
        match next_item(left) {
            NextItem::Item { name, rest } => {
                let attr = schema.find(&name);
                let Some((given, after)) = scan_given(schema, attr, rest) else {
                    return false;
                };
                found.note(&name, attr, given);
                left = after;
            }
            NextItem::End => return true,
            NextItem::Bad => return false,
        }
    }
}

// The event of these values, each at its attribute's place.
fn build(
    alloc: Global,
    schema: &Schema,
    sources: [Option<Source<'_>>; ATTRIBUTES],
) -> Result<Event, NoMemory>
    requires { AreFine schema.now sources }
    ensures built { IfOk result (λ e. e ≡ sets_by_place (length schema.now) (λ place. meant schema.now (numbered place) (get_or sources.entry place None))) }
    ensures few { length schema.now ≤ ATTRIBUTES }
{
    let mut event = Event::make(alloc);
    for place in 0..schema.count() {
        if let Some(source) = sources[usize::from(place)] {
            let attr = AttrNo(place);
            event.push((attr, read_source(alloc, schema, attr, source)?))?;
        }
    }
    Ok(event)
}
