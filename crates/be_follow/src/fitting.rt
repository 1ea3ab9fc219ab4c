//! Whether a change may come next in a list.

ghost use Rattle.std.specs.Prelude.{◌≡◌, ◌↔◌, ◌≤◌, ◌&&◌, IsTrue, length, true, false, List};
ghost use Rattle.std.specs.List.{list_all};
ghost use Rattle.be_base.specs.declared.limits.TheConstants.{LOG_CHANGES};
ghost use Rattle.be_change.specs.Entries.{entry_of};
ghost use Rattle.be_change.specs.History.{Entry, session_of, serial_of, is_sub, is_opening, Opens, IsAllowed, live, is_live_name, is_live_name_of, stand, MayFollow};
ghost use Rattle.be_follow.specs.Stands.{IsNext, stand_by};

use crate::feed_list::FeedList;
use be_base::{COUNT_END, Name, SessionNo};
use be_change::{ChangeLog, is_leave_of, session_of};
use be_model::{Change, Row};

/// Whether the list stays well formed where the change is put last.
pub fn may_follow<F: FeedList>(list: &F, change: &Change) -> bool
    ensures { IsTrue result ↔ MayFollow (F.list list.now) (entry_of change.now) }
{
    let log = list.log();
    let number = list.stand(session_of(change));
    may_open(list.is_opening(), change) && is_due(log, number, change) && is_allowed(list, change)
}

/// Where the change's session stands after it.
pub fn stand_by(change: &Change) -> u64
    requires { serial_of (entry_of change.now) ≤ LOG_CHANGES }
    ensures { result ≡ stand_by (entry_of change.now) }
{
    if is_leave_of(change, session_of(change)) {
        COUNT_END
    } else {
        serial_of(change) + 1
    }
}

/// Whether the list is still an opening behind the change.
pub fn stays_open(opening: bool, change: &Change) -> bool
    ensures { result ≡ (opening && is_opening (entry_of change.now)) }
{
    opening && session_of(change).0 == 0
}

// Nobody's change belongs to the opening.
fn may_open(opening: bool, change: &Change) -> bool
    ensures { (h : List Entry) → opening ≡ list_all is_opening h → (IsTrue result ↔ (session_of (entry_of change.now) ≡ 0 → Opens h (entry_of change.now))) }
{
    session_of(change).0 != 0 || opening && is_sub(change)
}

fn is_sub(change: &Change) -> bool
    ensures { result ≡ is_sub (entry_of change.now) }
{
    match change {
        Change::Sub { .. } => true,
        Change::Unsub { .. } => false,
        Change::Bye { .. } => false,
    }
}

fn serial_of(change: &Change) -> u64
    ensures { result ≡ serial_of (entry_of change.now) }
{
    match change {
        Change::Sub { serial, .. } => *serial,
        Change::Unsub { serial, .. } => *serial,
        Change::Bye { serial, .. } => *serial,
    }
}

// Whether its session hasn't left, and this is its next serial.
fn is_due(log: &ChangeLog, number: u64, change: &Change) -> bool
    requires { number ≡ stand (session_of (entry_of change.now)) log.now.list }
    ensures { IsTrue result ↔ IsNext (session_of (entry_of change.now)) log.now.list (serial_of (entry_of change.now)) }
{
    // Called for its clause on how long the list may be.
    let _ = log.len();
    if number == COUNT_END {
        return false;
    }
    serial_of(change) == number
}

// What its kind asks of the list before it.
fn is_allowed<F: FeedList>(list: &F, change: &Change) -> bool
    ensures { IsTrue result ↔ IsAllowed (F.list list.now) (entry_of change.now) }
{
    match change {
        Change::Sub { session, row, .. } => may_add(list, *session, row),
        Change::Unsub { session, name, .. } => may_remove(list, *session, name),
        Change::Bye { .. } => true,
    }
}

// The row's name is free, and the row says its place and its session.
fn may_add<F: FeedList>(list: &F, session: SessionNo, row: &Row) -> bool
    ensures { IsTrue result ↔ ((is_live_name row.now.name (live (F.list list.now)) ≡ false) × (row.now.id.0 ≡ length (F.list list.now)) × (row.now.session.0 ≡ session.0)) }
{
    let len = list.log().len();
    match list.owner(&row.name) {
        Some(_) => false,
        None => row.id.0 == len && row.session.0 == session.0,
    }
}

// The session has a live row of the name.
fn may_remove<F: FeedList>(list: &F, session: SessionNo, name: &Name) -> bool
    ensures { IsTrue result ↔ (is_live_name_of session.0 name.now (live (F.list list.now)) ≡ true) }
{
    // Called for its clause that the list is well formed.
    let _ = list.log();
    match list.owner(name) {
        Some(owner) => owner.0 == session.0,
        None => false,
    }
}
