//! The changes from a place on.

ghost use Rattle.std.specs.Prelude.{◌≡◌, ◌++◌, OnOk, OnErr};
ghost use Rattle.be_base.specs.Lists.{BeginsWith};
ghost use Rattle.be_change.specs.Entries.{entries_in};
ghost use Rattle.be_change.specs.Walk.{tail_from};

use be_base::NoMemory;
use be_change::ChangeLog;
use be_model::Change;
use std::sync::Arc;

/// Appends the changes from the place `from` on, at most `max`, or none.
pub fn put_tail(
    log: &ChangeLog,
    from: u64,
    max: u64,
    changes: &mut Vec<Arc<Change>>,
) -> Result<(), NoMemory>
    ensures put { OnOk result (entries_in changes.new.items ≡ entries_in changes.old.items ++ tail_from from max log.now.list) }
    ensures refused { OnErr result (changes.new.items ≡ changes.old.items) }
{
    let before = changes.len();
    match push_tail(log, from, max, changes) {
        Ok(()) => Ok(()),
        Err(NoMemory) => {
            changes.truncate(before);
            Err(NoMemory)
        }
    }
}

// Appends the changes, or some of them.
fn push_tail(
    log: &ChangeLog,
    from: u64,
    max: u64,
    changes: &mut Vec<Arc<Change>>,
) -> Result<(), NoMemory>
    ensures put { OnOk result (entries_in changes.new.items ≡ entries_in changes.old.items ++ tail_from from max log.now.list) }
    ensures front { BeginsWith changes.new.items changes.old.items }
{
    let end = from.saturating_add(max).min(log.len());
    for place in from..end {
        changes.push(Arc::try_clone(log.at(place))?)?;
    }
    Ok(())
}
