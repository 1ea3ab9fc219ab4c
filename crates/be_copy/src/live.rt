//! The rows of an index, with a register of them: how rows come, are found, and go.

ghost use Rattle.std.specs.Prelude.{◌≡◌, ◌<◌, [], ◌∷◌, ◌++◌, if◌then◌else◌, true, false, not, filter, find, length, Some, option_map, IfSome, OnOk, OnErr};
ghost use Rattle.std.specs.Arc.{arc_value};
ghost use Rattle.be_base.specs.Lists.{BeginsWith};
ghost use Rattle.be_base.specs.declared.limits.TheConstants.{LOG_CHANGES};
ghost use Rattle.be_model.specs.ByIds.{put_by_id, without_id, has_id, row_at, rows_of};
ghost use Rattle.be_model.specs.Lies.{row_lies};
ghost use Rattle.be_model.specs.Rows.{id_of, KeepsRoom};
ghost use Rattle.be_index.specs.Promise.{IsMap};
ghost use Rattle.be_copy.specs.Registers.{IsRegister, AreOfList, IsWantedRow};
ghost use Rattle.be_copy.specs.Wanted.{wants, key_of};

use crate::register::Register;
use crate::wanted::Wanted;
use be_base::{Id, NoMemory};
use be_change::ChangeLog;
use be_index::Index;
use be_model::{Found, Row};
use std::sync::Arc;

/// The wanted row of the lowest id. The key of the wanted rows is handed in, so that it is computed once.
pub fn first<'a, I: Index>(
    log: &'a ChangeLog,
    index: &I,
    register: &Register,
    wanted: Wanted<'_>,
    key: u64,
) -> Option<&'a Arc<Row>>
    requires key { key ≡ key_of wanted }
    requires filed { IsRegister register.now (I.rows index.now) }
    requires listed { AreOfList log.now.list (I.rows index.now) }
    requires map { IsMap (I.rows index.now) }
    ensures first { option_map (λ row. arc_value row.now) result ≡ option_map (λ r. r.1) (find (wants wanted.entry) (I.rows index.now)) }
    ensures there { IfSome result (λ row. IsWantedRow wanted.entry (I.rows index.now) (arc_value row.now)) }
{
    let mut from = 0;
    while let Some(id) = register.next(wanted, key, from) {
        let Some(row) = log.row(Id(id)) else {
            unreachable!();
        };
        if wanted.takes(row) {
            return Some(row);
        }
        from = id + 1;
    }
    None
}

/// Appends the wanted rows by rising id. It looks at no rows but those that the register has under the number of their session or
/// of their name.
pub fn append_wanted<I: Index>(
    log: &ChangeLog,
    index: &I,
    register: &Register,
    wanted: Wanted<'_>,
    found: &mut Found,
) -> Result<(), NoMemory>
    requires filed { IsRegister register.now (I.rows index.now) }
    requires listed { AreOfList log.now.list (I.rows index.now) }
    requires map { IsMap (I.rows index.now) }
    ensures put { OnOk result (found.new.rows ≡ found.old.rows ++ rows_of (filter (wants wanted.entry) (I.rows index.now))) }
    // It is refused only where there is something to append, and then it may have appended some.
    ensures some { OnErr result (0 < length (filter (wants wanted.entry) (I.rows index.now))) }
    ensures front { BeginsWith found.new.rows found.old.rows }
    ensures room { KeepsRoom found.old found.new }
{
    let key = wanted.key();
    let mut from = 0;
    while let Some(id) = register.next(wanted, key, from) {
        let Some(row) = log.row(Id(id)) else {
            unreachable!();
        };
        push_wanted(row, wanted, found)?;
        from = id + 1;
    }
    Ok(())
}

// Appends the row, where it is wanted.
fn push_wanted(row: &Arc<Row>, wanted: Wanted<'_>, found: &mut Found) -> Result<(), NoMemory>
    ensures put { OnOk result (found.new.rows ≡ found.old.rows ++ (if wants wanted.entry (id_of (arc_value row.now), arc_value row.now) then arc_value row.now ∷ [] else [])) }
    ensures some { OnErr result (wants wanted.entry (id_of (arc_value row.now), arc_value row.now) ≡ true) }
    ensures front { BeginsWith found.new.rows found.old.rows }
    ensures room { KeepsRoom found.old found.new }
{
    if !wanted.takes(row) {
        return Ok(());
    }
    found.reserve(1)?;
    found.push_again(row)
}

/// Adds a row, or leaves all rows as they were.
pub fn put_row<I: Index>(
    index: &mut I,
    register: &mut Register,
    row: Arc<Row>,
) -> Result<(), NoMemory>
    requires filed { IsRegister register.old (I.rows index.old) }
    requires new { has_id (id_of (arc_value row)) (I.rows index.old) ≡ false }
    requires low { id_of (arc_value row) < LOG_CHANGES }
    requires lies { row_lies (I.schema index.old) (arc_value row) ≡ true }
    ensures put { OnOk result (I.rows index.new ≡ put_by_id (arc_value row) (I.rows index.old)) }
    ensures refused { OnErr result (I.rows index.new ≡ I.rows index.old) }
    ensures filed { IsRegister register.new (I.rows index.new) }
    ensures schema { I.schema index.new ≡ I.schema index.old }
    ensures bounded { I.is_bounded index.new ≡ I.is_bounded index.old }
{
    register.put(&row)?;
    match index.insert(row) {
        Ok(()) => Ok(()),
        Err((row, no_memory)) => {
            register.drop_row(&row);
            Err(no_memory)
        }
    }
}

// Takes a row out.
fn drop_row<I: Index>(index: &mut I, register: &mut Register, row: &Row)
    requires filed { IsRegister register.old (I.rows index.old) }
    requires there { row_at (id_of row.now) (I.rows index.old) ≡ Some row.now }
    ensures rows { I.rows index.new ≡ without_id (id_of row.now) (I.rows index.old) }
    ensures filed { IsRegister register.new (I.rows index.new) }
    ensures schema { I.schema index.new ≡ I.schema index.old }
    ensures bounded { I.is_bounded index.new ≡ I.is_bounded index.old }
{
    register.drop_row(row);
    index.remove(row);
}

/// Takes out each wanted row: all at once where the register shows that there are no others. It takes no memory.
pub fn remove_wanted<I: Index>(
    log: &ChangeLog,
    index: &mut I,
    register: &mut Register,
    wanted: Wanted<'_>,
)
    requires filed { IsRegister register.old (I.rows index.old) }
    requires listed { AreOfList log.now.list (I.rows index.old) }
    requires map { IsMap (I.rows index.old) }
    ensures rows { I.rows index.new ≡ filter (λ r. not (wants wanted.entry r)) (I.rows index.old) }
    ensures filed { IsRegister register.new (I.rows index.new) }
    ensures schema { I.schema index.new ≡ I.schema index.old }
    ensures bounded { I.is_bounded index.new ≡ I.is_bounded index.old }
{
    if register.has_only(wanted) {
        index.clear();
        register.clear();
        return;
    }
    let key = wanted.key();
    while let Some(row) = first(log, index, register, wanted, key) {
        drop_row(index, register, row);
    }
}
