//! A list of four changes: two of session 1, and of session 2 one and its Bye.

ghost use Rattle.std.specs.Prelude.{IfSome};
ghost use Rattle.std.specs.Arc.{arc_value};
ghost use Rattle.be_change.specs.Entries.{entry_of, HasIdAt};

use be_base::{Id, LOG_CHANGES, Name, SessionNo};
use be_change::{ChangeLog, session_of};
use be_model::{Change, Conj, Row};
use std::alloc::Global;
use std::sync::Arc;

fn subscription(
    alloc: Global,
    id: u64,
    session: u64,
    serial: u64,
    name: &[u8],
) -> Option<Arc<Change>>
    ensures { IfSome result (λ c. HasIdAt id (entry_of (arc_value c))) }
{
    let name = Name::read(name).ok()?;
    let session = SessionNo(session);
    let row = Row {
        id: Id(id),
        session,
        name,
        conj: Conj::make(alloc),
    };
    let row = Arc::new(alloc, row).ok()?;
    Arc::new(
        alloc,
        Change::Sub {
            session,
            serial,
            row,
        },
    )
    .ok()
}

fn put(alloc: Global, log: &mut ChangeLog, session: u64, serial: u64, name: &[u8]) -> Option<()> {
    let change = subscription(alloc, log.len(), session, serial, name)?;
    log.push(change).ok()
}

fn put_bye(alloc: Global, log: &mut ChangeLog) -> Option<()> {
    let bye = Change::Bye {
        session: SessionNo(2),
        serial: 1,
    };
    log.push(Arc::new(alloc, bye).ok()?).ok()
}

fn filled(alloc: Global) -> Option<ChangeLog> {
    let mut log = ChangeLog::make(alloc);
    put(alloc, &mut log, 1, 0, b"a")?;
    put(alloc, &mut log, 2, 0, b"b")?;
    put(alloc, &mut log, 1, 1, b"c")?;
    put_bye(alloc, &mut log)?;
    Some(log)
}

/// How long a new list is, and whether it takes more room than there may be, and some.
pub fn room(alloc: Global) -> (u64, usize, bool, bool) {
    let mut log = ChangeLog::make(alloc);
    let (len, spare) = (log.len(), log.spare());
    let is_refused = log.reserve(LOG_CHANGES + 1).is_err();
    let is_reserved = log.reserve(2).is_ok();
    (len, spare, is_refused, is_reserved && log.spare() >= 2)
}

/// The session of each change, by its place.
pub fn session_at(alloc: Global, place: u64) -> Option<u64> {
    let log = filled(alloc)?;
    if place >= log.len() {
        return None;
    }
    Some(session_of(log.at(place)).0)
}

/// The name of the row of an id.
pub fn name_of(alloc: Global, id: u64) -> Option<Name> {
    Some(filled(alloc)?.row(Id(id))?.name)
}

/// How many changes a session made, where it stands, and whether it has left.
pub fn session(alloc: Global, session: u64) -> Option<(u64, u64, bool)> {
    let log = filled(alloc)?;
    let session = SessionNo(session);
    Some((
        log.count_of(session),
        log.stand(session),
        log.has_left(session),
    ))
}
