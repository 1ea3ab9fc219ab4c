//! The list of changes, with the live names and the stands of sessions.

ghost use Rattle.std.specs.Prelude.{◌≡◌, ◌<◌, ◌≤◌, ◌++◌, ◌∷◌, [], length, None, MatchOption, MatchResult, OnOk, OnErr};
ghost use Rattle.std.specs.Arc.{arc_value};
ghost use Rattle.be_base.specs.declared.limits.TheConstants.{LOG_CHANGES};
ghost use Rattle.be_change.specs.Entries.{entry_of};
ghost use Rattle.be_change.specs.History.{live, stand, IsWellFormed, MayFollow};
ghost use Rattle.be_change.specs.Sound.{MayAppend};
ghost use Rattle.be_desk.specs.Ledgers.{IsNamed, IsLedger};
ghost use Rattle.be_core.specs.World.{named};
ghost use Rattle.be_desk.specs.Registers.{IsRegister, with_put};
ghost use Rattle.be_desk.specs.Stands.{AreStands};

use crate::register::Register;
use crate::stands::Stands;
use be_base::{Name, NoMemory, REMOVALS_KEPT, SessionNo};
use be_change::ChangeLog;
use be_copy::Edit;
use be_model::Change;
use be_published::{Naming, Press, Sheet};
use std::alloc::Global;
use std::marker::Model;
use std::sync::Arc;

/// For how many places there has to be memory, for each place of a list that doubles beside two others.
const PLACES_TO_GROW: usize = 6;

/// A list of changes, with a register of its live names and a table of its sessions' stands. Contracts see the list.
#[derive(Drop)]
pub struct Ledger {
    list: ChangeLog,
    register: Register,
    stands: Stands,
}

impl Model for Ledger {
    ghost use Rattle.std.specs.Prelude.{List};
    ghost use Rattle.be_change.specs.History.{Entry, live};
    ghost use Rattle.be_desk.specs.Ledgers.{IsLedger};

    ghost Value = { List Entry };

    ghost view = { λ l. l.list.list };

    ghost invariant = { λ l. IsLedger l.list.list l.register l.stands };
}

impl Ledger {
    /// An empty list, which takes no memory.
    pub fn make(alloc: Global) -> Ledger
        ensures { result ≡ [] }
    {
        Ledger {
            list: ChangeLog::make(alloc),
            register: Register::make(alloc),
            stands: Stands::make(alloc),
        }
    }

    pub fn len(&self) -> u64
        ensures len { result ≡ length self.now }
        ensures few { result ≤ LOG_CHANGES }
    {
        self.list.len()
    }

    pub fn log(&self) -> &ChangeLog
        ensures { result.now.list ≡ self.now }
    {
        &self.list
    }

    pub fn into_log(self) -> ChangeLog
        ensures { result.list ≡ self }
    {
        let Ledger {
            list,
            register: _,
            stands: _,
        } = self;
        list
    }

    /// Where a session stands.
    pub fn stand(&self, session: SessionNo) -> u64
        ensures { result ≡ stand session.0 self.now }
    {
        self.stands.of(session)
    }

    /// The live row of a name: its id, and whose it is.
    pub fn named(&self, name: &Name) -> Option<(u64, SessionNo)>
        ensures { MatchOption result (named name.now (live self.now) ≡ None) (λ r. IsNamed name.now (live self.now) r.0 r.1.0) }
    {
        let (id, row) = self.register.named(&self.list, name)?;
        Some((id, row.session))
    }

    /// How many rows are live.
    pub fn rows(&self) -> u64
        requires { IsWellFormed self.now }
        ensures { result ≡ length (live self.now) }
    {
        self.register.len()
    }

    /// Whether a subscription makes no list grow, or there is memory for this one and for those of both copies, which grow with it. A
    /// copy that can't take in what was accepted would hold up all changes. No clause says so, since none knows how much memory there is.
    pub fn may_grow(&self, alloc: Global) -> bool {
        if REMOVALS_KEPT < self.list.spare() {
            return true;
        }
        let mut probe: Vec<u64> = Vec::new(alloc);
        let places = self.list.len() as usize * PLACES_TO_GROW;
        probe.reserve_exact(places).is_ok()
    }

    /// Puts a change last here and in the history behind the press, or in neither.
    pub fn append<T: Sheet<J>, J: Naming>(
        &mut self,
        press: &mut Press<T, J>,
        change: Arc<Change>,
    ) -> Result<(), NoMemory>
        requires same { press.old.list ≡ self.old }
        requires formed { IsWellFormed self.old }
        requires may { MayAppend J.schema self.old (entry_of (arc_value change)) }
        ensures list { MatchResult result (λ _. self.new ≡ self.old ++ entry_of (arc_value change) ∷ []) (λ _. self.new ≡ self.old) }
        ensures same { press.new.list ≡ self.new }
        ensures published { (press.new.published ≡ press.old.published) × (press.new.reshaped ≡ press.old.reshaped) × (press.new.steps ≡ press.old.steps) }
    {
        self.list.make_room(&change)?;
        let kept = Arc::try_clone(&change)?;
        enter(&mut self.register, &mut self.stands, &self.list, &kept)?;
        match press.append(Edit::Change(change)) {
            Ok(()) => {
                put_last(&mut self.list, &mut self.register, kept);
                Ok(())
            }
            Err((_, no_memory)) => {
                take_back(&mut self.register, &mut self.stands, &self.list, &kept);
                Err(no_memory)
            }
        }
    }

    /// Puts a change last, or changes nothing.
    pub fn push(&mut self, change: Arc<Change>) -> Result<(), NoMemory>
        requires formed { IsWellFormed self.old }
        requires follows { MayFollow self.old (entry_of (arc_value change)) }
        ensures list { MatchResult result (λ _. self.new ≡ self.old ++ entry_of (arc_value change) ∷ []) (λ _. self.new ≡ self.old) }
    {
        self.list.make_room(&change)?;
        enter(&mut self.register, &mut self.stands, &self.list, &change)?;
        put_last(&mut self.list, &mut self.register, change);
        Ok(())
    }
}

// Enters a change that may come next in the register and in the table, or leaves both as they were.
fn enter(
    register: &mut Register,
    stands: &mut Stands,
    list: &ChangeLog,
    change: &Change,
) -> Result<(), NoMemory>
    requires kept { IsLedger list.now.list register.old stands.old }
    requires formed { IsWellFormed list.now.list }
    requires follows { MayFollow list.now.list (entry_of change.now) }
    ensures names { OnOk result (IsRegister register.new (with_put list.now.list (entry_of change.now))) }
    ensures stands { OnOk result (AreStands stands.new (list.now.list ++ entry_of change.now ∷ [])) }
    ensures refused { OnErr result (IsLedger list.now.list register.new stands.new) }
{
    // Called for its clause that the list is short enough.
    let _ = list.len();
    register.prepare(list, change)?;
    match stands.put(change) {
        Ok(()) => Ok(()),
        Err(NoMemory) => {
            register.undo(list, change);
            Err(NoMemory)
        }
    }
}

// Takes a change that was entered out again.
fn take_back(register: &mut Register, stands: &mut Stands, list: &ChangeLog, change: &Change)
    requires formed { IsWellFormed list.now.list }
    requires names { IsRegister register.old (with_put list.now.list (entry_of change.now)) }
    requires stands { AreStands stands.old (list.now.list ++ entry_of change.now ∷ []) }
    requires follows { MayFollow list.now.list (entry_of change.now) }
    ensures { IsLedger list.now.list register.new stands.new }
{
    register.undo(list, change);
    stands.take_back(change);
}

// Puts a change last that was entered, and for which there is room.
fn put_last(list: &mut ChangeLog, register: &mut Register, change: Arc<Change>)
    requires room { 0 < list.old.spare }
    requires formed { IsWellFormed list.old.list }
    requires names { IsRegister register.old (with_put list.old.list (entry_of (arc_value change))) }
    requires follows { MayFollow list.old.list (entry_of (arc_value change)) }
    ensures list { list.new.list ≡ list.old.list ++ entry_of (arc_value change) ∷ [] }
    ensures names { IsRegister register.new (live list.new.list) }
{
    register.note(list, &change);
    match list.push(change) {
        Ok(()) => {}
        Err(_) => unreachable!(),
    }
}
