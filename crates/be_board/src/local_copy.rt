//! A copy to which one session alone appends, behind an opening.

ghost use Rattle.std.specs.Prelude.{◌≡◌, ◌+◌, ◌≤◌, ◌++◌, [], ◌∷◌, length, true, false, OnOk, OnErr, IfOk};
ghost use Rattle.std.specs.List.{list_all};
ghost use Rattle.std.specs.Arc.{arc_value};
ghost use Rattle.be_base.specs.declared.limits.TheConstants.{LOG_CHANGES};
ghost use Rattle.be_model.specs.Lies.{conj_lies, row_lies};
ghost use Rattle.be_change.specs.Entries.{entry_of};
ghost use Rattle.be_change.specs.History.{live, has_left, entries_of, session_of, is_live_name, is_live_name_of, MayFollow};
ghost use Rattle.be_change.specs.Made.{change_named, row_made};
ghost use Rattle.be_change.specs.Opening.{IsTable, opening_of};
ghost use Rattle.be_change.specs.Requests as asked;
ghost use Rattle.be_change.specs.Sound.{all_lie};
ghost use Rattle.be_copy.specs.Edits.{fits};
ghost use Rattle.be_board.specs.LocalCopy.{IsLocalList, IsAnswered};

use crate::answers::Answer;
use crate::openings::opened;
use be_base::{Id, Name, NoMemory, Reserve, SessionNo};
use be_change::is_leave_of;
use be_copy::{Copy2, Edit};
use be_index::Index;
use be_model::{Change, Conj, Row};
use std::alloc::Global;
use std::marker::Model;
use std::sync::Arc;

/// The session that appends.
pub const SESSION: SessionNo = SessionNo(1);

/// A copy to which session 1 alone appends, behind an opening. Contracts see its list and its index.
#[derive(Drop)]
pub struct LocalCopy<I: Index> {
    copy: Copy2<I>,
    // How many changes are the opening.
    opening: u64,
    // Whether the session has left.
    gone: bool,
    // For removals and the leave.
    held: Reserve,
}

impl<I: Index> Model for LocalCopy<I> {
    ghost use Rattle.std.specs.Prelude.{◌≡◌, true};
    ghost use Rattle.be_copy.specs.Copied.{Copied};

    ghost Value = { Copied I };

    ghost use Rattle.be_board.specs.LocalCopy.{IsLocal};

    ghost view = { λ c. c.copy };

    ghost invariant = { λ c. IsLocal c.copy.list c.opening c.gone × (I.is_bounded c.copy.index ≡ true) };
}

impl<I: Index> LocalCopy<I> {
    /// A copy whose list begins with these rows, and is that.
    pub fn open(alloc: Global, index: I, rows: Vec<Row>) -> Result<LocalCopy<I>, NoMemory>
        requires empty { I.rows index ≡ [] }
        requires bounded { I.is_bounded index ≡ true }
        requires table { IsTable rows.items }
        requires lie { list_all (row_lies (I.schema index)) rows.items ≡ true }
        ensures list { IfOk result (λ copy. copy.list ≡ opening_of rows.items) }
        ensures schema { IfOk result (λ copy. I.schema copy.index ≡ I.schema index) }
    {
        let copy = opened(alloc, index, rows)?;
        let opening = copy.log().len();
        Ok(LocalCopy {
            copy,
            opening,
            gone: false,
            held: Reserve::make(alloc),
        })
    }

    /// The copy, to be read.
    pub fn read(&self) -> &Copy2<I>
        ensures same { result.now ≡ self.now }
        ensures form { IsLocalList self.now.list }
        ensures lies { all_lie (I.schema self.now.index) self.now.list ≡ true }
        ensures bounded { I.is_bounded self.now.index ≡ true }
    {
        // Called for its clause that all rows lie in the schema.
        let _ = self.copy.log();
        &self.copy
    }

    /// How many changes there are.
    pub fn len(&self) -> u64
        ensures len { result ≡ length self.now.list }
        ensures few { result ≤ LOG_CHANGES }
        ensures form { IsLocalList self.now.list }
    {
        self.copy.log().len()
    }

    /// Whether the session has left.
    pub fn gone(&self) -> bool
        ensures { result ≡ has_left 1 self.now.list }
    {
        self.gone
    }

    // The session's next serial.
    fn serial(&self) -> u64
        ensures { result ≡ length (entries_of 1 self.now.list) }
    {
        self.copy.log().len() - self.opening
    }

    /// Adds a row under a name that isn't live.
    pub fn subscribe(&mut self, alloc: Global, name: Name, conj: Conj) -> Answer
        requires present { has_left 1 self.old.list ≡ false }
        requires lies { conj_lies (I.schema self.old.index) conj ≡ true }
        ensures answered { IsAnswered self.old.list self.new.list (asked.subscribe name conj) result }
        ensures free { result ≡ Answer.NoMemory → is_live_name name (live self.old.list) ≡ false }
        ensures schema { I.schema self.new.index ≡ I.schema self.old.index }
    {
        let m = self.len();
        if let Some(row) = self.copy.named(&name) {
            return Answer::Dup { m, id: row.id.0 };
        }
        match self.add(alloc, name, conj) {
            Ok(()) => Answer::Done { n: m + 1 },
            Err(NoMemory) => Answer::NoMemory,
        }
    }

    fn add(&mut self, alloc: Global, name: Name, conj: Conj) -> Result<(), NoMemory>
        requires present { has_left 1 self.old.list ≡ false }
        requires lies { conj_lies (I.schema self.old.index) conj ≡ true }
        requires free { is_live_name name (live self.old.list) ≡ false }
        ensures added { OnOk result (self.new.list ≡ self.old.list ++ change_named 1 (length (entries_of 1 self.old.list)) (length self.old.list) (asked.subscribe name conj)) }
        ensures refused { OnErr result (self.new.list ≡ self.old.list) }
        ensures schema { I.schema self.new.index ≡ I.schema self.old.index }
    {
        let row = new_row(alloc, self.len(), name, conj)?;
        let change = Change::Sub {
            session: SESSION,
            serial: self.serial(),
            row,
        };
        self.append(alloc, change)
    }

    /// Removes the session's row of a name.
    pub fn unsubscribe(&mut self, alloc: Global, name: &Name) -> Answer
        requires present { has_left 1 self.old.list ≡ false }
        ensures answered { IsAnswered self.old.list self.new.list (asked.unsubscribe name.now) result }
        ensures schema { I.schema self.new.index ≡ I.schema self.old.index }
    {
        self.held.open();
        let answer = self.remove_named(alloc, name);
        self.held.close();
        answer
    }

    fn remove_named(&mut self, alloc: Global, name: &Name) -> Answer
        requires present { has_left 1 self.old.list ≡ false }
        ensures answered { IsAnswered self.old.list self.new.list (asked.unsubscribe name.now) result }
        ensures schema { I.schema self.new.index ≡ I.schema self.old.index }
    {
        let m = self.len();
        let Some(row) = self.copy.named(name) else {
            return Answer::NoName { m };
        };
        if row.session.0 != SESSION.0 {
            return Answer::Other { m, id: row.id.0 };
        }
        match self.remove(alloc, *name) {
            Ok(()) => Answer::Done { n: m + 1 },
            Err(NoMemory) => Answer::NoMemory,
        }
    }

    fn remove(&mut self, alloc: Global, name: Name) -> Result<(), NoMemory>
        requires present { has_left 1 self.old.list ≡ false }
        requires there { is_live_name_of 1 name (live self.old.list) ≡ true }
        ensures removed { OnOk result (self.new.list ≡ self.old.list ++ change_named 1 (length (entries_of 1 self.old.list)) (length self.old.list) (asked.unsubscribe name)) }
        ensures refused { OnErr result (self.new.list ≡ self.old.list) }
        ensures schema { I.schema self.new.index ≡ I.schema self.old.index }
    {
        let change = Change::removal(alloc, SESSION, self.serial(), name)?;
        self.append(alloc, change)
    }

    /// Puts the session's Bye last, after which none of its rows is live.
    pub fn leave(&mut self, alloc: Global) -> Answer
        requires present { has_left 1 self.old.list ≡ false }
        ensures answered { IsAnswered self.old.list self.new.list asked.quit result }
        ensures schema { I.schema self.new.index ≡ I.schema self.old.index }
    {
        self.held.open();
        let answer = self.put_bye(alloc);
        self.held.close();
        answer
    }

    fn put_bye(&mut self, alloc: Global) -> Answer
        requires present { has_left 1 self.old.list ≡ false }
        ensures answered { IsAnswered self.old.list self.new.list asked.quit result }
        ensures schema { I.schema self.new.index ≡ I.schema self.old.index }
    {
        let m = self.len();
        match self.close(alloc) {
            Ok(()) => Answer::Done { n: m + 1 },
            Err(NoMemory) => Answer::NoMemory,
        }
    }

    fn close(&mut self, alloc: Global) -> Result<(), NoMemory>
        requires present { has_left 1 self.old.list ≡ false }
        ensures closed { OnOk result (self.new.list ≡ self.old.list ++ change_named 1 (length (entries_of 1 self.old.list)) (length self.old.list) asked.quit) }
        ensures refused { OnErr result (self.new.list ≡ self.old.list) }
        ensures schema { I.schema self.new.index ≡ I.schema self.old.index }
    {
        let change = Change::Bye {
            session: SESSION,
            serial: self.serial(),
        };
        self.append(alloc, change)
    }

    // Puts a change last, or changes nothing where memory is wanting.
    fn append(&mut self, alloc: Global, change: Change) -> Result<(), NoMemory>
        requires own { session_of (entry_of change) ≡ 1 }
        requires follows { MayFollow self.old.list (entry_of change) }
        requires fits { fits (I.schema self.old.index) self.old.list (entry_of change) ≡ true }
        ensures appended { OnOk result (self.new.list ≡ self.old.list ++ entry_of change ∷ []) }
        ensures refused { OnErr result (self.new.list ≡ self.old.list) }
        ensures schema { I.schema self.new.index ≡ I.schema self.old.index }
    {
        let leaves = is_leave_of(&change, SESSION);
        let change = Arc::new(alloc, change).map_err(|_| NoMemory)?;
        self.copy.absorb(&Edit::Change(change))?;
        self.gone = leaves;
        Ok(())
    }
}

fn new_row(alloc: Global, place: u64, name: Name, conj: Conj) -> Result<Arc<Row>, NoMemory>
    ensures { IfOk result (λ row. arc_value row ≡ row_made 1 place name conj) }
{
    let row = Row {
        id: Id(place),
        session: SESSION,
        name,
        conj,
    };
    Arc::new(alloc, row).map_err(|_| NoMemory)
}
