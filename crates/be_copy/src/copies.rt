//! A list of changes and an index of what is live in it.

ghost use Rattle.std.specs.Prelude.{◌≡◌, ◌<◌, ◌++◌, ◌∷◌, [], true, false, length, map, find, option_map, IfSome, OnOk, OnErr, IfOk, if◌then◌else◌};
ghost use Rattle.std.specs.Arc.{arc_value};
ghost use Rattle.std.specs.Option.{IfNone};
ghost use Rattle.be_model.specs.declared.paths.StepDone.TheVariants.{Done, NotHere};
ghost use Rattle.be_model.specs.ByIds.{session_rows};
ghost use Rattle.be_model.specs.Rows.{id_of, KeepsRoom};
ghost use Rattle.be_model.specs.Lies.{row_lies};
ghost use Rattle.be_change.specs.Entries.{entry_of, HasIdAt};
ghost use Rattle.be_change.specs.History.{live, after_entry, has_name, is_live_name};
ghost use Rattle.be_change.specs.Walk.{HasNameAt};
ghost use Rattle.be_change.specs.Sound.{all_lie};
ghost use Rattle.be_copy.specs.Edits.{fits, with_entry};
ghost use Rattle.be_copy.specs.Hits.{spaced_of, AreNamesOf};
ghost use Rattle.be_copy.specs.Registers.{IsKept, IsRegister};

use crate::edits::Edit;
use crate::live::{append_wanted, first, put_row, remove_wanted};
use crate::register::Register;
use crate::spaced_names::SpacedNames;
use crate::wanted::Wanted;
use be_base::{Name, NoMemory, SessionNo};
use be_change::ChangeLog;
use be_index::Index;
use be_model::{Change, Found, Row, StepDone};
use std::alloc::Global;
use std::marker::Model;
use std::sync::Arc;

/// A list of changes, and an index that holds what is live in it. Contracts see the list and the index.
#[derive(Drop)]
pub struct Copy2<I: Index> {
    log: ChangeLog,
    index: I,
    register: Register,
    // The names of the list's rows, one behind another. Once memory ran out for them, there are none.
    names: Option<SpacedNames>,
}

impl<I: Index> Model for Copy2<I> {
    ghost use Rattle.be_copy.specs.Copied.{Copied};

    ghost Value = { Copied I };

    ghost use Rattle.be_copy.specs.Hits.{AreNamesOf};
    ghost use Rattle.be_copy.specs.Registers.{IsKept};

    ghost view = { λ c. record { list = c.log.list; index = c.index } };

    ghost invariant = { λ c. IsKept (I.schema c.index) c.log.list (I.rows c.index) c.register × AreNamesOf c.log.list c.names };
}

impl<I: Index> Copy2<I> {
    ghost use Rattle.be_copy.specs.Edits.{AnswersEdit, IsMisfit, is_taken, absorbed};

    /// A copy of no changes. It takes no memory.
    pub fn make(alloc: Global, index: I) -> Copy2<I>
        requires { I.rows index ≡ [] }
        ensures list { result.list ≡ [] }
        ensures index { result.index ≡ index }
    {
        Copy2 {
            log: ChangeLog::make(alloc),
            index,
            register: Register::make(alloc),
            names: Some(SpacedNames::make(alloc)),
        }
    }

    pub fn log(&self) -> &ChangeLog
        ensures list { result.now.list ≡ self.now.list }
        ensures lies { all_lie (I.schema self.now.index) self.now.list ≡ true }
    {
        &self.log
    }

    pub fn index(&self) -> &I
        ensures index { result.now ≡ self.now.index }
        ensures rows { I.rows self.now.index ≡ live self.now.list }
    {
        &self.index
    }

    // The names of the list's rows by their places, where there is memory for them.
    pub(crate) fn names(&self) -> Option<&SpacedNames>
        ensures { IfSome result (λ texts. texts.now ≡ map spaced_of self.now.list) }
    {
        self.names.as_ref()
    }

    /// The live row of a name: of several, which no well formed list has, that of the lowest id.
    pub fn named(&self, name: &Name) -> Option<&Arc<Row>>
        ensures first { option_map (λ row. arc_value row.now) result ≡ option_map (λ r. r.1) (find (has_name name.now) (live self.now.list)) }
        ensures there { IfSome result (λ row. HasNameAt (live self.now.list) (id_of (arc_value row.now)) name.now) }
        ensures none { IfNone result (is_live_name name.now (live self.now.list) ≡ false) }
    {
        // Called for its clause that ids rise.
        let _ = self.log.len();
        let wanted = Wanted::Named(name);
        first(&self.log, &self.index, &self.register, wanted, wanted.key())
    }

    /// Finds the session's live rows, by rising id, and drops what was found before. The register knows where they stand, so that no
    /// others are looked at.
    pub fn rows_of(&self, session: SessionNo, found: &mut Found) -> Result<(), NoMemory>
        ensures found { OnOk result (found.new.rows ≡ session_rows session.0 (live self.now.list)) }
        ensures none { OnErr result (found.new.rows ≡ []) }
        // It is refused only where there is something to find.
        ensures some { OnErr result (0 < length (session_rows session.0 (live self.now.list))) }
        ensures room { KeepsRoom found.old found.new }
    {
        // Called for its clause that ids rise.
        let _ = self.log.len();
        found.clear();
        let wanted = Wanted::Of(session);
        match append_wanted(&self.log, &self.index, &self.register, wanted, found) {
            Ok(()) => Ok(()),
            Err(NoMemory) => {
                found.clear();
                Err(NoMemory)
            }
        }
    }

    /// Takes in an edit. A subscription whose row doesn't lie in the schema, or whose id isn't the next place, changes nothing.
    pub fn absorb(&mut self, edit: &Edit) -> Result<StepDone, NoMemory>
        ensures answer { IfOk result (λ done. AnswersEdit (I.schema self.old.index) self.old.list (I.can_step self.old.index) (λ step. I.is_made step self.old.index self.new.index) (I.is_unchanged self.old.index self.new.index) edit.now done) }
        ensures list { OnOk result (self.new.list ≡ absorbed (I.schema self.old.index) self.old.list edit.now) }
        ensures refused { OnErr result (self.new.list ≡ self.old.list) }
        // Only what is to be appended may be refused.
        ensures some { OnErr result (is_taken (I.schema self.old.index) self.old.list edit.now ≡ true) }
        ensures misfit { IsMisfit (I.schema self.old.index) self.old.list edit.now → self.new ≡ self.old }
        ensures rows { I.rows self.new.index ≡ live self.new.list }
        ensures schema { I.schema self.new.index ≡ I.schema self.old.index }
        ensures bounded { I.is_bounded self.new.index ≡ I.is_bounded self.old.index }
    {
        match edit {
            Edit::Reshape(step) => Ok(self.index.step(step)),
            Edit::Change(change) => {
                take_in(
                    &mut self.log,
                    &mut self.index,
                    &mut self.register,
                    &mut self.names,
                    change,
                )
            }
        }
    }
}

// After a refusal the list and the index's rows are as before.
fn take_in<I: Index>(
    log: &mut ChangeLog,
    index: &mut I,
    register: &mut Register,
    names: &mut Option<SpacedNames>,
    change: &Arc<Change>,
) -> Result<StepDone, NoMemory>
    requires kept { IsKept (I.schema index.old) log.old.list (I.rows index.old) register.old }
    requires names { AreNamesOf log.old.list names.old }
    ensures kept { IsKept (I.schema index.new) log.new.list (I.rows index.new) register.new }
    ensures names { AreNamesOf log.new.list names.new }
    ensures answer { IfOk result (λ done. done ≡ (if fits (I.schema index.old) log.old.list (entry_of (arc_value change.now)) then Done else NotHere)) }
    ensures list { OnOk result (log.new.list ≡ with_entry (I.schema index.old) log.old.list (entry_of (arc_value change.now))) }
    ensures refused { OnErr result (log.new.list ≡ log.old.list) }
    ensures some { OnErr result (fits (I.schema index.old) log.old.list (entry_of (arc_value change.now)) ≡ true) }
    ensures misfit { fits (I.schema index.old) log.old.list (entry_of (arc_value change.now)) ≡ false → index.new ≡ index.old }
    ensures schema { I.schema index.new ≡ I.schema index.old }
    ensures bounded { I.is_bounded index.new ≡ I.is_bounded index.old }
{
    if !may_take(log, index, change) {
        return Ok(StepDone::NotHere);
    }
    log.make_room(change)?;
    let kept = Arc::try_clone(change)?;
    change_rows(log, index, register, change)?;
    append(log, names, kept);
    Ok(StepDone::Done)
}

// Whether the change is to be appended.
fn may_take<I: Index>(log: &ChangeLog, index: &I, change: &Change) -> bool
    ensures { result ≡ fits (I.schema index.now) log.now.list (entry_of change.now) }
{
    match change {
        Change::Sub { row, .. } => row.id.0 == log.len() && index.lies(row),
        Change::Unsub { .. } => true,
        Change::Bye { .. } => true,
    }
}

// Makes the rows those that are live after one more change, or leaves them as they were.
fn change_rows<I: Index>(
    log: &ChangeLog,
    index: &mut I,
    register: &mut Register,
    change: &Change,
) -> Result<(), NoMemory>
    requires kept { IsKept (I.schema index.old) log.now.list (I.rows index.old) register.old }
    requires fits { fits (I.schema index.old) log.now.list (entry_of change.now) ≡ true }
    requires room { 0 < log.now.spare }
    ensures rows { OnOk result (I.rows index.new ≡ after_entry (I.rows index.old) (length log.now.list) (entry_of change.now)) }
    ensures refused { OnErr result (I.rows index.new ≡ I.rows index.old) }
    ensures filed { IsRegister register.new (I.rows index.new) }
    ensures schema { I.schema index.new ≡ I.schema index.old }
    ensures bounded { I.is_bounded index.new ≡ I.is_bounded index.old }
{
    // Called for its clause that ids rise.
    let _ = log.len();
    match change {
        Change::Sub { row, .. } => add_row(log, index, register, row),
        Change::Unsub { session, name, .. } => {
            remove_wanted(log, index, register, Wanted::Own(*session, name));
            Ok(())
        }
        Change::Bye { session, .. } => {
            remove_wanted(log, index, register, Wanted::Of(*session));
            Ok(())
        }
    }
}

fn add_row<I: Index>(
    log: &ChangeLog,
    index: &mut I,
    register: &mut Register,
    row: &Arc<Row>,
) -> Result<(), NoMemory>
    requires kept { IsKept (I.schema index.old) log.now.list (I.rows index.old) register.old }
    requires id { id_of (arc_value row.now) ≡ length log.now.list }
    requires lies { row_lies (I.schema index.old) (arc_value row.now) ≡ true }
    requires room { 0 < log.now.spare }
    ensures rows { OnOk result (I.rows index.new ≡ I.rows index.old ++ (length log.now.list, arc_value row.now) ∷ []) }
    ensures refused { OnErr result (I.rows index.new ≡ I.rows index.old) }
    ensures filed { IsRegister register.new (I.rows index.new) }
    ensures schema { I.schema index.new ≡ I.schema index.old }
    ensures bounded { I.is_bounded index.new ≡ I.is_bounded index.old }
{
    // Called for its clause that the list is short, and so the id low.
    let _ = log.len();
    let row = Arc::try_clone(row)?;
    put_row(index, register, row)
}

// Puts a change last, for which there is room.
fn append(log: &mut ChangeLog, names: &mut Option<SpacedNames>, change: Arc<Change>)
    requires room { 0 < log.old.spare }
    requires id { HasIdAt (length log.old.list) (entry_of (arc_value change)) }
    requires names { AreNamesOf log.old.list names.old }
    ensures list { log.new.list ≡ log.old.list ++ entry_of (arc_value change) ∷ [] }
    ensures names { AreNamesOf log.new.list names.new }
{
    put_name(names, &change);
    match log.push(change) {
        Ok(()) => {}
        Err(_) => unreachable!(),
    }
}

// Puts the name of the row that a change makes behind the others. Where memory is wanting to it all are given up, so that no change is
// refused for a name's sake.
fn put_name(names: &mut Option<SpacedNames>, change: &Change)
    ensures { (h : _) → AreNamesOf h names.old → AreNamesOf (h ++ entry_of change.now ∷ []) names.new }
{
    let Some(mut texts) = names.take() else {
        return;
    };
    if texts.push(change).is_ok() {
        *names = Some(texts);
    }
}
