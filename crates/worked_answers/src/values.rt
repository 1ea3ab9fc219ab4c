//! Comparisons, conditions, events and sets of values, given by numbers or by texts. `None` is an answer that no row wants.

use crate::writes::{conj_of, number, op_of, set};
use be_base::{AttrNo, Id, SET_VALUES};
use be_event::read_event;
use be_expr::{read_change, read_expr};
use be_model::{Change, DomFault, Event, Schema, Values, check_conj};
use std::alloc::Global;

/// Whether a comparison with two numbers holds of the third.
pub fn holds(alloc: Global, text: &str) -> Option<bool> {
    let mut words = text.split(' ');
    let form = words.next()?;
    let low = number(words.next());
    let high = number(words.next());
    let value = number(words.next());
    Some(op_of(alloc, form, low, high).ok()?.holds(value))
}

/// Whether an event satisfies a condition, which stands before it.
pub fn satisfies(alloc: Global, schema: &Schema, text: &str) -> Option<bool> {
    let (condition, event) = text.split_once(';')?;
    let conj = read_expr(alloc, schema, condition.as_bytes()).ok()?;
    let event = read_event(alloc, schema, event.as_bytes()).ok()?;
    Some(conj.satisfied_by(&event))
}

/// The span of a condition at an attribute, which stands before it.
pub fn span(alloc: Global, schema: &Schema, text: &str) -> Option<Option<(i64, i64)>> {
    let (attr, condition) = text.split_once(' ')?;
    let attr = AttrNo(attr.parse().ok()?);
    let conj = read_expr(alloc, schema, condition.as_bytes()).ok()?;
    Some(conj.span(schema, attr))
}

/// The first predicate outside the schema.
pub fn check(alloc: Global, schema: &Schema, text: &str) -> Option<Result<(), DomFault>> {
    let conj = conj_of(alloc, text).ok()?;
    Some(check_conj(schema, &conj))
}

/// Whether a condition is empty, and how many predicates it has. It takes no more than there may be.
pub fn length(alloc: Global, text: &str) -> Option<(bool, usize)> {
    let conj = conj_of(alloc, text).ok()?;
    Some((conj.is_empty(), conj.len()))
}

/// Whether an event of one attribute and two values lies in the schema.
pub fn lies(alloc: Global, schema: &Schema, text: &str) -> Option<bool> {
    let mut words = text.split(' ');
    let attr = AttrNo(words.next()?.parse().ok()?);
    let low = number(words.next());
    let high = number(words.next());
    let values = set(alloc, low, high).ok()?;
    let mut event = Event::make(alloc);
    if event.accepts(attr) {
        event.push((attr, values)).ok()?;
    }
    Some(event.lies(schema))
}

/// The set of these numbers, in any order.
pub fn inserted(alloc: Global, text: &str) -> Option<Values> {
    let mut words = text.split(' ');
    let mut values = Values::one(alloc, number(words.next())).ok()?;
    for word in words {
        if values.as_slice().len() < SET_VALUES {
            values.insert(number(Some(word))).ok()?;
        }
    }
    Some(values)
}

/// The set of those of these numbers that rise, as many as there may be, copied.
pub fn pushed(alloc: Global, text: &str) -> Option<Values> {
    let mut words = text.split(' ');
    let mut values = Values::one(alloc, number(words.next())).ok()?;
    for word in words {
        let value = number(Some(word));
        if values.accepts(value) {
            values.push(value).ok()?;
        }
    }
    values.copy().ok()
}

// The event in which each of the attributes 0, 2, 4 and so on has half its number and 1000.
fn many_attributes(alloc: Global, count: u16) -> Option<Event> {
    let mut event = Event::make(alloc);
    for half in 0..count {
        let values = set(alloc, i64::from(half), 1000).ok()?;
        let attr = AttrNo(half.saturating_mul(2));
        if event.accepts(attr) {
            event.push((attr, values)).ok()?;
        }
    }
    event.copy().ok()
}

fn has_its_values(event: &Event, half: u16) -> bool {
    let attr = half.saturating_mul(2);
    match event.values(AttrNo(attr)) {
        Some(values) => {
            values.has(i64::from(half))
                && values.has_within((900, 1000))
                && !values.has_within((200, 999))
                && event.values(AttrNo(attr.saturating_add(1))).is_none()
        }
        None => false,
    }
}

/// How many attributes an event of so many has, and how many of them have their values.
pub fn many(alloc: Global, text: &str) -> Option<(usize, usize)> {
    let count = text.parse().ok()?;
    let event = many_attributes(alloc, count)?;
    let found = (0..count)
        .filter(|half| has_its_values(&event, *half))
        .count();
    Some((event.len(), found))
}

fn change_of(alloc: Global, schema: &Schema, text: &str) -> Option<Change> {
    let (id, text) = text.split_once(' ')?;
    let id = Id(id.parse().ok()?);
    read_change(alloc, schema, text.as_bytes(), id).ok()
}

/// Whether two changes are the same, each behind its id.
pub fn same(alloc: Global, schema: &Schema, text: &str) -> Option<bool> {
    let (one, other) = text.split_once(';')?;
    let one = change_of(alloc, schema, one)?;
    let other = change_of(alloc, schema, other)?;
    Some(one.same_as(&other))
}
