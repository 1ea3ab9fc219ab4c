//! An event that tells two conditions apart.

ghost use Rattle.std.specs.Prelude.{◌≡◌, ◌↔◌, ◌<◌, [], ◌∷◌, ◌++◌, true, length, IfOk, IfSome, IsNone, OnOk, find};
ghost use Rattle.std.specs.List.{list_any, cons_option};
ghost use Rattle.be_base.specs.declared.names.AttrNo.{AttrNo};
ghost use Rattle.be_model.specs.Forms.{attrs_rise};
ghost use Rattle.be_model.specs.Lies.{conj_lies};
ghost use Rattle.be_model.specs.Matching.{attrs_of};
ghost use Rattle.be_cover.specs.Covering.{IsCovered, IsApart, allows_none, tells, chosen, assigned, attributes, event_at, apart_event};

use crate::values::{has, least_allowed, least_apart};
use be_base::{AttrNo, NoMemory};
use be_model::{Conj, Event, Schema, Values};
use std::alloc::Global;

/// An event of single values that satisfies the first condition and not the other. There is none exactly where the first is
/// covered by the other.
pub fn apart(alloc: Global, s: &Schema, q: &Conj, r: &Conj) -> Result<Option<Event>, NoMemory>
    requires first { conj_lies s.now q.now ≡ true }
    requires other { conj_lies s.now r.now ≡ true }
    ensures exact { IfOk result (λ e. e ≡ apart_event s.now q.now r.now) }
    ensures covered { IfOk result (λ e. IsNone e ↔ IsCovered s.now q.now r.now) }
    ensures apart { IfOk result (λ e. IfSome e (IsApart s.now q.now r.now)) }
{
    if is_void(alloc, s, q)? {
        return Ok(None);
    }
    match telling(alloc, s, q, r)? {
        None => Ok(None),
        Some(a) => Ok(Some(event_at(alloc, s, q, r, a)?)),
    }
}

// Whether an attribute of the condition has no value that it allows.
fn is_void(alloc: Global, s: &Schema, q: &Conj) -> Result<bool, NoMemory>
    requires { conj_lies s.now q.now ≡ true }
    ensures { IfOk result (λ b. b ≡ list_any (allows_none s.now q.now) (attributes s.now)) }
{
    for number in 0..s.count() {
        if allows_none(alloc, s, q, AttrNo(number))? {
            return Ok(true);
        }
    }
    Ok(false)
}

fn allows_none(alloc: Global, s: &Schema, q: &Conj, a: AttrNo) -> Result<bool, NoMemory>
    requires lies { conj_lies s.now q.now ≡ true }
    requires below { a.0 < length s.now }
    ensures { IfOk result (λ b. b ≡ allows_none s.now q.now a) }
{
    if !has(q, a) {
        return Ok(false);
    }
    let least = least_allowed(alloc, s, q, a)?;
    Ok(least.is_none())
}

// The first attribute that tells the conditions apart.
fn telling(alloc: Global, s: &Schema, q: &Conj, r: &Conj) -> Result<Option<AttrNo>, NoMemory>
    requires first { conj_lies s.now q.now ≡ true }
    requires other { conj_lies s.now r.now ≡ true }
    ensures { IfOk result (λ a. a ≡ find (tells s.now q.now r.now) (attributes s.now)) }
{
    for number in 0..s.count() {
        if tells(alloc, s, q, r, AttrNo(number))? {
            return Ok(Some(AttrNo(number)));
        }
    }
    Ok(None)
}

fn tells(alloc: Global, s: &Schema, q: &Conj, r: &Conj, a: AttrNo) -> Result<bool, NoMemory>
    requires first { conj_lies s.now q.now ≡ true }
    requires other { conj_lies s.now r.now ≡ true }
    requires below { a.0 < length s.now }
    ensures { IfOk result (λ b. b ≡ tells s.now q.now r.now a) }
{
    if !has(r, a) {
        return Ok(false);
    }
    if !has(q, a) {
        return Ok(true);
    }
    let least = least_apart(alloc, s, q, r, a)?;
    Ok(least.is_some())
}

// The event that tells the conditions apart by this attribute.
fn event_at(alloc: Global, s: &Schema, q: &Conj, r: &Conj, by: AttrNo) -> Result<Event, NoMemory>
    requires first { conj_lies s.now q.now ≡ true }
    requires other { conj_lies s.now r.now ≡ true }
    ensures { IfOk result (λ e. e ≡ event_at s.now q.now r.now by) }
{
    let mut event = Event::make(alloc);
    for number in 0..s.count() {
        let v = chosen(alloc, s, q, r, by, AttrNo(number))?;
        put_value(alloc, &mut event, AttrNo(number), v)?;
    }
    Ok(event)
}

// Puts an attribute with its value last, where there is one.
fn put_value(alloc: Global, event: &mut Event, a: AttrNo, v: Option<i64>) -> Result<(), NoMemory>
    requires { attrs_rise (attrs_of event.old ++ a ∷ []) ≡ true }
    ensures { OnOk result (event.new ≡ event.old ++ cons_option (assigned a v) []) }
{
    let Some(v) = v else {
        return Ok(());
    };
    event.push((a, Values::one(alloc, v)?))
}

// The value that it gives to an attribute.
fn chosen(
    alloc: Global,
    s: &Schema,
    q: &Conj,
    r: &Conj,
    by: AttrNo,
    a: AttrNo,
) -> Result<Option<i64>, NoMemory>
    requires first { conj_lies s.now q.now ≡ true }
    requires other { conj_lies s.now r.now ≡ true }
    requires below { a.0 < length s.now }
    ensures { IfOk result (λ v. v ≡ chosen s.now q.now r.now by a) }
{
    if !has(q, a) {
        Ok(None)
    } else if a.0 == by.0 {
        least_apart(alloc, s, q, r, a)
    } else {
        least_allowed(alloc, s, q, a)
    }
}
