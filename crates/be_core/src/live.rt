//! The rows that are live after a beginning of the list, found afresh.

ghost use Rattle.std.specs.Prelude.{◌≡◌, ◌&&◌, not, [], ◌∷◌, ◌++◌, take, filter, option_map, OnOk, IfOk};
ghost use Rattle.std.specs.Arc.{arc_value};
ghost use Rattle.be_model.specs.Matching.{satisfies};
ghost use Rattle.be_change.specs.History.{live, after_entry, names_of, is_of, has_name};
ghost use Rattle.be_change.specs.Entries.{entry_of};
ghost use Rattle.be_core.specs.World.{named};
ghost use Rattle.be_core.specs.Memory.{live_in, id_and_session};

use be_base::{Id, Name, NoMemory, SessionNo};
use be_change::ChangeLog;
use be_model::{Change, Event, Names, Row};
use std::alloc::Global;
use std::sync::Arc;

// The rows, each with its id, that are live after the first `n` changes.
pub(crate) fn live_rows(
    alloc: Global,
    log: &ChangeLog,
    n: u64,
) -> Result<Vec<(u64, Arc<Row>)>, NoMemory>
    ensures { IfOk result (λ rows. live_in rows.items ≡ live (take n log.now.list)) }
{
    let mut rows = Vec::new(alloc);
    for place in 0..n.min(log.len()) {
        add_change(&mut rows, place, log.at(place))?;
    }
    Ok(rows)
}

// The rows after one more change, which stands at place `id`.
fn add_change(rows: &mut Vec<(u64, Arc<Row>)>, id: u64, change: &Change) -> Result<(), NoMemory>
    ensures { OnOk result (live_in rows.new.items ≡ after_entry (live_in rows.old.items) id (entry_of change.now)) }
{
    match change {
        Change::Sub { row, .. } => add_row(rows, id, row),
        Change::Unsub { session, name, .. } => {
            drop_named(rows, *session, name);
            Ok(())
        }
        Change::Bye { session, .. } => {
            drop_all_of(rows, *session);
            Ok(())
        }
    }
}

fn add_row(rows: &mut Vec<(u64, Arc<Row>)>, id: u64, row: &Arc<Row>) -> Result<(), NoMemory>
    ensures { OnOk result (live_in rows.new.items ≡ live_in rows.old.items ++ (id, arc_value row.now) ∷ []) }
{
    rows.push((id, Arc::try_clone(row)?))?;
    Ok(())
}

fn drop_named(rows: &mut Vec<(u64, Arc<Row>)>, session: SessionNo, name: &Name)
    ensures { live_in rows.new.items ≡ filter (λ r. not (is_of session.0 r && has_name name.now r)) (live_in rows.old.items) }
{
    rows.retain(|row| !(row.1.session.0 == session.0 && row.1.name.same(name)));
}

fn drop_all_of(rows: &mut Vec<(u64, Arc<Row>)>, session: SessionNo)
    ensures { live_in rows.new.items ≡ filter (λ r. not (is_of session.0 r)) (live_in rows.old.items) }
{
    rows.retain(|row| row.1.session.0 != session.0);
}

// The id and the session of the first row of this name.
pub(crate) fn find_named(rows: &[(u64, Arc<Row>)], name: &Name) -> Option<(Id, SessionNo)>
    ensures { result ≡ option_map id_and_session (named name.now (live_in rows.now)) }
{
    for row in rows {
        if row.1.name.same(name) {
            return Some((Id(row.0), row.1.session));
        }
    }
    None
}

// The names of the rows that the event satisfies.
pub(crate) fn hits_among(
    alloc: Global,
    rows: &[(u64, Arc<Row>)],
    event: &Event,
) -> Result<Names, NoMemory>
    ensures { IfOk result (λ names. names ≡ names_of (filter (λ r. satisfies event.now r.1.conj) (live_in rows.now))) }
{
    let mut names = Names::make(alloc);
    for row in rows {
        if row.1.conj.satisfied_by(event) {
            names.push(row.1.name)?;
        }
    }
    Ok(names)
}
