//! The register of live rows: their ids, by name and by session, and how many there are.

ghost use Rattle.std.specs.Prelude.{◌≡◌, ℕ, ◌++◌, true, List, [], ◌∷◌, length, find, Some, None, MatchOption, OnOk, OnErr};
ghost use Rattle.std.specs.Arc.{arc_value};
ghost use Rattle.be_model.specs.ByIds.{ByIds};
ghost use Rattle.be_model.specs.Rows.{id_of};
ghost use Rattle.be_change.specs.Entries.{entry_of};
ghost use Rattle.be_change.specs.History.{unsubscribed, left, live, after_entry, is_live_name_of, IsWellFormed, MayFollow};
ghost use Rattle.be_copy.specs.Wanted.{wants, key_of};
ghost use Rattle.be_core.specs.World.{named};
ghost use Rattle.be_desk.specs.Registers.{with_row, with_put, IsRegister};

use be_base::{Id, Name, NoMemory, SessionNo};
use be_change::ChangeLog;
use be_copy::Wanted;
use be_model::{Change, Row};
use std::alloc::Global;
use std::sync::Arc;

/// Where the live rows of a list are found by name and by session, and how many there are. A call takes the time of one digest of a
/// long name and of a look-up, and a glance at each row whose name has the same number; `leave` takes that for each
/// row of its session. Where no other session has rows it only clears the register.
#[derive(Drop)]
pub struct Register {
    filed: be_copy::Register,
    count: u64,
}

impl Register {
    /// It takes no memory.
    pub fn make(alloc: Global) -> Register
        ensures { IsRegister result [] }
    {
        Register {
            filed: be_copy::Register::make(alloc),
            count: 0,
        }
    }

    /// The row of this name, and its id.
    pub fn named<'a>(&self, list: &'a ChangeLog, name: &Name) -> Option<(u64, &'a Arc<Row>)>
        requires { IsRegister self.now (live list.now.list) }
        ensures { MatchOption result (named name.now (live list.now.list) ≡ None) (λ r. named name.now (live list.now.list) ≡ Some (r.0, arc_value r.1.now)) }
    {
        let wanted = Wanted::Named(name);
        self.find(list, wanted, wanted.key())
    }

    /// How many rows there are.
    pub fn len(&self) -> u64
        ensures { (m : ByIds) → IsRegister self.now m → result ≡ length m }
    {
        self.count
    }

    /// Files a row that may be subscribed next, or leaves all as it was.
    pub fn put(&mut self, list: &ChangeLog, row: &Row) -> Result<(), NoMemory>
        requires filed { IsRegister self.old (live list.now.list) }
        requires next { id_of row.now ≡ length list.now.list }
        ensures put { OnOk result (IsRegister self.new (with_row list.now.list row.now)) }
        ensures refused { OnErr result (IsRegister self.new (live list.now.list)) }
    {
        // Called for its clause that there are few rows.
        let _ = list.len();
        self.filed.put(row)?;
        self.count += 1;
        Ok(())
    }

    /// Takes out a row that was put and isn't subscribed after all. It takes no memory.
    pub fn take_back(&mut self, list: &ChangeLog, row: &Row)
        requires filed { IsRegister self.old (with_row list.now.list row.now) }
        requires next { id_of row.now ≡ length list.now.list }
        ensures { IsRegister self.new (live list.now.list) }
    {
        self.filed.drop_row(row);
        self.count -= 1;
    }

    /// Takes out the session's row of this name. It takes no memory.
    pub fn remove(&mut self, list: &ChangeLog, session: SessionNo, name: &Name)
        requires filed { IsRegister self.old (live list.now.list) }
        requires formed { IsWellFormed list.now.list }
        requires there { is_live_name_of session.0 name.now (live list.now.list) ≡ true }
        ensures { (n : ℕ) → IsRegister self.new (after_entry (live list.now.list) (length list.now.list) (unsubscribed session.0 n name.now)) }
    {
        let wanted = Wanted::Named(name);
        let key = wanted.key();
        let Some((id, _)) = self.find(list, wanted, key) else {
            unreachable!();
        };
        self.filed.sessions.drop_pair(session.0, id);
        self.filed.names.drop_pair(key, id);
        self.count -= 1;
    }

    /// Takes out the session's rows. It takes no memory.
    pub fn leave(&mut self, list: &ChangeLog, session: SessionNo)
        requires { IsRegister self.old (live list.now.list) }
        ensures { (n : ℕ) → IsRegister self.new (after_entry (live list.now.list) (length list.now.list) (left session.0 n)) }
    {
        // Called for its clause that ids are small.
        let _ = list.len();
        if self.filed.has_only(Wanted::Of(session)) {
            self.filed.clear();
            self.count = 0;
            return;
        }
        while let Some(id) = self.filed.sessions.next(session.0, 0) {
            let Some(row) = list.row(Id(id)) else {
                unreachable!();
            };
            self.filed.drop_row(row);
            self.count -= 1;
        }
    }

    /// Files the row of a change that may follow the list where it is a `Sub`, or leaves all as it was.
    pub fn prepare(&mut self, list: &ChangeLog, change: &Change) -> Result<(), NoMemory>
        requires filed { IsRegister self.old (live list.now.list) }
        requires follows { MayFollow list.now.list (entry_of change.now) }
        ensures put { OnOk result (IsRegister self.new (with_put list.now.list (entry_of change.now))) }
        ensures refused { OnErr result (IsRegister self.new (live list.now.list)) }
    {
        match change {
            Change::Sub { row, .. } => self.put(list, row),
            Change::Unsub { .. } => Ok(()),
            Change::Bye { .. } => Ok(()),
        }
    }

    /// Undoes `prepare` for a change that isn't appended after all. It takes no memory.
    pub fn undo(&mut self, list: &ChangeLog, change: &Change)
        requires filed { IsRegister self.old (with_put list.now.list (entry_of change.now)) }
        requires follows { MayFollow list.now.list (entry_of change.now) }
        ensures { IsRegister self.new (live list.now.list) }
    {
        match change {
            Change::Sub { row, .. } => self.take_back(list, row),
            Change::Unsub { .. } => {}
            Change::Bye { .. } => {}
        }
    }

    /// Takes note of a change that is appended to the list next, and for which `prepare` was called. It takes no memory.
    pub fn note(&mut self, list: &ChangeLog, change: &Change)
        requires filed { IsRegister self.old (with_put list.now.list (entry_of change.now)) }
        requires formed { IsWellFormed list.now.list }
        requires follows { MayFollow list.now.list (entry_of change.now) }
        ensures { IsRegister self.new (live (list.now.list ++ entry_of change.now ∷ [])) }
    {
        match change {
            Change::Sub { .. } => {}
            Change::Unsub { session, name, .. } => self.remove(list, *session, name),
            Change::Bye { session, .. } => self.leave(list, *session),
        }
    }

    // The first wanted row, and its id. The key of the wanted rows is handed in, so that it is computed once.
    fn find<'a>(
        &self,
        list: &'a ChangeLog,
        wanted: Wanted<'_>,
        key: u64,
    ) -> Option<(u64, &'a Arc<Row>)>
        requires key { key ≡ key_of wanted }
        requires filed { IsRegister self.now (live list.now.list) }
        ensures { MatchOption result (find (wants wanted.entry) (live list.now.list) ≡ None) (λ r. find (wants wanted.entry) (live list.now.list) ≡ Some (r.0, arc_value r.1.now)) }
    {
        // Called for its clause that ids are small.
        let _ = list.len();
        let mut from = 0;
        while let Some(id) = self.filed.next(wanted, key, from) {
            let Some(row) = list.row(Id(id)) else {
                unreachable!();
            };
            if wanted.takes(row) {
                return Some((id, row));
            }
            from = id + 1;
        }
        None
    }
}
