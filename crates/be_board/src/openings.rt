//! A copy whose list is an opening.

ghost use Rattle.std.specs.Prelude.{◌≡◌, ◌++◌, [], ◌∷◌, length, true, OnOk, IfOk};
ghost use Rattle.std.specs.List.{list_all};
ghost use Rattle.be_model.specs.Lies.{row_lies};
ghost use Rattle.be_change.specs.History.{subscribed};
ghost use Rattle.be_change.specs.Opening.{IsTable, opening_of};

use be_base::{NoMemory, SessionNo};
use be_copy::{Copy2, Edit};
use be_index::Index;
use be_model::{Change, Row};
use std::alloc::Global;
use std::sync::Arc;

/// The session of an opening: nobody's.
const NOBODY: SessionNo = SessionNo(0);

/// A copy of a list that begins with these rows, and is that.
pub fn opened<I: Index>(alloc: Global, index: I, rows: Vec<Row>) -> Result<Copy2<I>, NoMemory>
    requires empty { I.rows index ≡ [] }
    requires table { IsTable rows.items }
    requires lie { list_all (row_lies (I.schema index)) rows.items ≡ true }
    ensures list { IfOk result (λ copy. copy.list ≡ opening_of rows.items) }
    ensures schema { IfOk result (λ copy. I.schema copy.index ≡ I.schema index) }
    ensures bounded { IfOk result (λ copy. I.is_bounded copy.index ≡ I.is_bounded index) }
{
    let mut copy = Copy2::make(alloc, index);
    for row in rows {
        add_row(alloc, &mut copy, row)?;
    }
    Ok(copy)
}

// Adds a row of nobody's.
fn add_row<I: Index>(alloc: Global, copy: &mut Copy2<I>, row: Row) -> Result<(), NoMemory>
    requires id { row.id.0 ≡ length copy.old.list }
    requires lies { row_lies (I.schema copy.old.index) row ≡ true }
    ensures added { OnOk result (copy.new.list ≡ copy.old.list ++ subscribed 0 (length copy.old.list) row ∷ []) }
    ensures schema { I.schema copy.new.index ≡ I.schema copy.old.index }
    ensures bounded { I.is_bounded copy.new.index ≡ I.is_bounded copy.old.index }
{
    let row = Arc::new(alloc, row).map_err(|_| NoMemory)?;
    let change = Change::Sub {
        session: NOBODY,
        serial: copy.log().len(),
        row,
    };
    let change = Arc::new(alloc, change).map_err(|_| NoMemory)?;
    copy.absorb(&Edit::Change(change))?;
    Ok(())
}
