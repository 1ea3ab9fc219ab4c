//! Changes, put into a press and into a copy that its writer keeps. Each is tested before, so that the list stays well formed.

ghost use Rattle.std.specs.Prelude.{◌≡◌, ◌≢◌, ◌++◌, ◌∷◌, [], true, false, length, OnOk, IfOk};
ghost use Rattle.std.specs.Arc.{arc_value};
ghost use Rattle.be_model.specs.Lies.{row_lies};
ghost use Rattle.be_change.specs.Entries.{entry_of};
ghost use Rattle.be_change.specs.History.{entries_of, has_left, is_live_name, live};
ghost use Rattle.be_change.specs.Sound.{MayAppend};

use be_base::{Id, Name, NoMemory, SessionNo};
use be_change::ChangeLog;
use be_copy::{Copy2, Edit};
use be_index::{Index, ListIndex};
use be_model::{Change, Conj, Row};
use be_published::{Naming, Press, Sheet};
use std::alloc::Global;
use std::sync::Arc;

/// The next change: a session subscribes `a all`, or leaves where it has.
pub fn next_change(alloc: Global, place: u64) -> Option<Arc<Change>> {
    let session = SessionNo(place / 2 + 1);
    let change = if place % 2 == 0 {
        let row = Row {
            id: Id(place),
            session,
            name: Name::read(b"a").ok()?,
            conj: Conj::make(alloc),
        };
        Change::Sub {
            session,
            serial: 0,
            row: Arc::new(alloc, row).ok()?,
        }
    } else {
        Change::Bye { session, serial: 1 }
    };
    Arc::new(alloc, change).ok()
}

/// Appends a change to the press, and to the copy. A change that may not come next isn't appended.
pub fn add<T: Sheet<J>, J: Naming>(
    press: &mut Press<T, J>,
    copy: &mut Copy2<ListIndex>,
    change: Arc<Change>,
) -> Result<bool, NoMemory>
    requires same { press.old.list ≡ copy.old.list }
    requires schema { copy.old.index.schema ≡ J.schema }
    ensures same { OnOk result (press.new.list ≡ copy.new.list) }
    ensures schema { copy.new.index.schema ≡ J.schema }
{
    if !may_come(copy, &change) {
        return Ok(false);
    }
    let edit = Edit::Change(change);
    copy.absorb(&edit)?;
    match press.append(edit) {
        Ok(()) => Ok(true),
        Err(_) => Err(NoMemory),
    }
}

// Whether the change may come next in the list of the copy.
fn may_come(copy: &Copy2<ListIndex>, change: &Change) -> bool
    ensures { result ≡ true → MayAppend copy.now.index.schema copy.now.list (entry_of change.now) }
{
    match change {
        Change::Sub {
            session,
            serial,
            row,
        } => is_next(copy.log(), *session, *serial) && may_subscribe(copy, *session, row),
        Change::Unsub { .. } => false,
        Change::Bye { session, serial } => is_next(copy.log(), *session, *serial),
    }
}

fn is_next(log: &ChangeLog, session: SessionNo, serial: u64) -> bool
    ensures somebody { result ≡ true → session.0 ≢ 0 }
    ensures serial { result ≡ true → serial ≡ length (entries_of session.0 log.now.list) }
    ensures present { result ≡ true → has_left session.0 log.now.list ≡ false }
{
    session.0 != 0 && serial == log.count_of(session) && !log.has_left(session)
}

fn may_subscribe(copy: &Copy2<ListIndex>, session: SessionNo, row: &Row) -> bool
    ensures free { result ≡ true → is_live_name row.now.name (live copy.now.list) ≡ false }
    ensures id { result ≡ true → row.now.id.0 ≡ length copy.now.list }
    ensures owner { result ≡ true → row.now.session.0 ≡ session.0 }
    ensures lies { result ≡ true → row_lies copy.now.index.schema row.now ≡ true }
{
    copy.named(&row.name).is_none()
        && row.id.0 == copy.log().len()
        && row.session.0 == session.0
        && copy.index().lies(row)
}
