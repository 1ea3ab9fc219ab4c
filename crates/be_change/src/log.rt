//! The list of changes.

ghost use Rattle.std.specs.Prelude.{◌≡◌, ℕ, ◌+◌, ◌-◌, ◌<◌, ◌≤◌, ◌==◌, [], ◌∷◌, ◌++◌, length, slice_get, Some, option_map, OnOk, OnErr, IfErr, IsOk, true, false, min, if◌then◌else◌};
ghost use Rattle.std.specs.List.{count_by, list_any};
ghost use Rattle.std.specs.Arc.{arc_value};
ghost use Rattle.be_base.specs.declared.limits.TheConstants.{LOG_CHANGES, REMOVALS_KEPT};
ghost use Rattle.be_change.specs.History.{session_of, entries_of, is_leave_of, is_sub, has_left, stand};
ghost use Rattle.be_change.specs.Entries.{entry_of, log, row_in, HasIdAt, IdsArePlaces};

use be_base::{COUNT_END, Id, LOG_CHANGES, NoMemory, REMOVALS_KEPT, SessionNo};
use be_model::{Change, Row};
use std::alloc::Global;
use std::marker::Model;
use std::sync::Arc;

/// The list of changes. It only grows. The id of each subscription's row is the place of its change.
#[derive(Drop)]
pub struct ChangeLog {
    changes: Vec<Arc<Change>>,
}

impl Model for ChangeLog {
    ghost use Rattle.std.specs.Prelude.{vec_len, vec_capacity};
    ghost use Rattle.be_change.specs.Entries.{Log};

    ghost Value = { Log };

    ghost use Rattle.be_change.specs.Entries.{entries_in, spare_of, IsLog};

    ghost view = { λ l. record { list = entries_in l.changes.items; spare = spare_of (vec_len l.changes) (vec_capacity l.changes) } };

    ghost invariant = { λ l. IsLog (entries_in l.changes.items) (vec_capacity l.changes) };
}

impl ChangeLog {
    /// An empty list, which takes no memory.
    pub fn make(alloc: Global) -> ChangeLog
        ensures { result ≡ log [] 0 }
    {
        ChangeLog {
            changes: Vec::new(alloc),
        }
    }

    pub fn len(&self) -> u64
        ensures len { result ≡ length self.now.list }
        ensures most { result + self.now.spare ≤ LOG_CHANGES }
        ensures ids { IdsArePlaces self.now.list }
    {
        self.changes.len() as u64
    }

    /// How many more changes can be put without memory.
    pub fn spare(&self) -> usize
        ensures { result ≡ self.now.spare }
    {
        self.changes.capacity().min(LOG_CHANGES) - self.changes.len()
    }

    pub fn at(&self, place: u64) -> &Arc<Change>
        requires { place < length self.now.list }
        ensures { slice_get self.now.list place ≡ Some (entry_of (arc_value result.now)) }
    {
        &self.changes[place as usize]
    }

    /// The row of the subscription that was made at this place.
    pub fn row(&self, id: Id) -> Option<&Arc<Row>>
        ensures { option_map (λ row. arc_value row.now) result ≡ row_in (slice_get self.now.list id.0) }
    {
        let change = self.changes.get(id.0 as usize)?;
        row_of(change)
    }

    /// Makes room for `n` more changes.
    pub fn reserve(&mut self, n: usize) -> Result<(), NoMemory>
        ensures list { self.new.list ≡ self.old.list }
        ensures room { OnOk result (n ≤ self.new.spare) }
        ensures kept { self.old.spare ≤ self.new.spare }
        ensures refused { OnErr result (self.new ≡ self.old) }
        ensures succeeds { n ≤ self.old.spare → IsOk result }
    {
        if n > LOG_CHANGES - self.changes.len() {
            return Err(NoMemory);
        }
        self.changes.reserve(n)?;
        Ok(())
    }

    /// Makes room for the change. Behind a subscription it makes room for `REMOVALS_KEPT` more, so that removals and leaves go through for
    /// a while where there is no memory for subscriptions.
    pub fn make_room(&mut self, change: &Change) -> Result<(), NoMemory>
        ensures list { self.new.list ≡ self.old.list }
        ensures room { OnOk result (0 < self.new.spare) }
        ensures behind { OnOk result (is_sub (entry_of change.now) ≡ true → min (1 + REMOVALS_KEPT) (LOG_CHANGES - length self.new.list) ≤ self.new.spare) }
        ensures kept { self.old.spare ≤ self.new.spare }
        ensures refused { OnErr result (self.new ≡ self.old) }
        ensures succeeds { 1 + REMOVALS_KEPT ≤ self.old.spare → IsOk result }
        ensures removal { is_sub (entry_of change.now) ≡ false → 0 < self.old.spare → IsOk result }
    {
        self.reserve(self.wanted_for(change))
    }

    // For how many changes room is made before this one is put.
    fn wanted_for(&self, change: &Change) -> usize
        ensures { result ≡ 1 + (if is_sub (entry_of change.now) then min REMOVALS_KEPT (LOG_CHANGES - length self.now.list - 1) else 0) }
    {
        match change {
            Change::Sub { .. } => {
                let left = LOG_CHANGES - self.changes.len();
                1 + REMOVALS_KEPT.min(left.saturating_sub(1))
            }
            _ => 1,
        }
    }

    /// Puts a change last, or hands it back.
    pub fn push(&mut self, change: Arc<Change>) -> Result<(), (Arc<Change>, NoMemory)>
        requires { HasIdAt (length self.old.list) (entry_of (arc_value change)) }
        ensures list { OnOk result (self.new.list ≡ self.old.list ++ entry_of (arc_value change) ∷ []) }
        ensures spare { OnOk result (self.old.spare ≤ self.new.spare + 1) }
        ensures refused { OnErr result (self.new ≡ self.old) }
        ensures back { IfErr result (λ e. e.0 ≡ change) }
        ensures succeeds { 0 < self.old.spare → IsOk result }
    {
        if let Err(no_memory) = self.reserve(1) {
            return Err((change, no_memory));
        }
        self.changes.push_reserved(change);
        Ok(())
    }

    /// How many changes are of this session.
    pub fn count_of(&self, session: SessionNo) -> u64
        ensures { result ≡ length (entries_of session.0 self.now.list) }
    {
        count_in(self.changes.as_slice(), session) as u64
    }

    /// Whether the session's Bye is in the list.
    pub fn has_left(&self, session: SessionNo) -> bool
        ensures { result ≡ has_left session.0 self.now.list }
    {
        has_left_in(self.changes.as_slice(), session)
    }

    /// How many changes the session has made, or 2^63 where it has left.
    pub fn stand(&self, session: SessionNo) -> u64
        ensures { result ≡ stand session.0 self.now.list }
    {
        if self.has_left(session) {
            COUNT_END
        } else {
            self.count_of(session)
        }
    }
}

/// Who made the change.
pub fn session_of(change: &Change) -> SessionNo
    ensures { result.0 ≡ session_of (entry_of change.now) }
{
    match change {
        Change::Sub { session, .. } => *session,
        Change::Unsub { session, .. } => *session,
        Change::Bye { session, .. } => *session,
    }
}

/// Whether the change is the Bye of this session.
pub fn is_leave_of(change: &Change, session: SessionNo) -> bool
    ensures { result ≡ is_leave_of session.0 (entry_of change.now) }
{
    match change {
        Change::Sub { .. } => false,
        Change::Unsub { .. } => false,
        Change::Bye { session: who, .. } => who.0 == session.0,
    }
}

fn count_in(changes: &[Arc<Change>], session: SessionNo) -> usize
    ensures { result ≡ count_by (λ x. session_of (entry_of (arc_value x)) == session.0) changes.now }
{
    changes
        .iter()
        .filter(|change| session_of(change).0 == session.0)
        .count()
}

fn has_left_in(changes: &[Arc<Change>], session: SessionNo) -> bool
    ensures { result ≡ list_any (λ x. is_leave_of session.0 (entry_of (arc_value x))) changes.now }
{
    changes.iter().any(|change| is_leave_of(change, session))
}

fn row_of(change: &Change) -> Option<&Arc<Row>>
    ensures { option_map (λ row. arc_value row.now) result ≡ row_in (Some (entry_of change.now)) }
{
    match change {
        Change::Sub { row, .. } => Some(row),
        Change::Unsub { .. } => None,
        Change::Bye { .. } => None,
    }
}
