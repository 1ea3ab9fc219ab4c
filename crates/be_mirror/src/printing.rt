//! A press as what shows a list.

ghost use Rattle.std.specs.Prelude.{◌≡◌, ◌++◌, ◌∷◌, [], List, length, OnOk, OnErr, IfOk};
ghost use Rattle.std.specs.Arc.{arc_value};
ghost use Rattle.be_base.specs.Lists.{BeginsWith};
ghost use Rattle.be_change.specs.Entries.{entry_of, entries_in};
ghost use Rattle.be_change.specs.History.{Entry};
ghost use Rattle.be_change.specs.Sound.{MayAppend, Sound};

use be_base::NoMemory;
use be_copy::Edit;
use be_follow::Follower;
use be_index::ListIndex;
use be_model::Change;
use be_published::{Naming, Press, Sheet};
use std::alloc::Global;
use std::sync::{Arc, Wait};

/// A list of changes that is shown to readers. A closure can't capture a reference to `Press<T, J>`, which names an associated type. So
/// a press stands behind a type parameter.
pub trait Printer {
    ghost use Rattle.std.specs.Prelude.{List};
    ghost use Rattle.be_model.specs.Schemas.{Attributes};
    ghost use Rattle.be_change.specs.History.{Entry};

    ghost schema: { Attributes };

    // the changes that were put into it, and those of them that readers see.
    ghost list: { Self → List Entry };

    ghost published: { Self → List Entry };

    /// How many changes were put into it.
    fn handed(&self) -> u64
        ensures { result ≡ length (list self.now) };

    /// Puts the changes last, in order, and shows all. Where memory is wanting it has some of them, and readers see no less than before. It
    /// may wait for readers.
    fn print<R: Wait>(&mut self, rt: &R, changes: Vec<Arc<Change>>) -> Result<(), NoMemory>
        requires sound { Sound schema (list self.old ++ entries_in changes.items) }
        requires seen { BeginsWith (list self.old) (published self.old) }
        ensures begins { BeginsWith (list self.old ++ entries_in changes.items) (list self.new) }
        ensures grows { BeginsWith (list self.new) (list self.old) }
        ensures seen { BeginsWith (list self.new) (published self.new) }
        ensures kept { BeginsWith (published self.new) (published self.old) }
        ensures all { OnOk result (list self.new ≡ list self.old ++ entries_in changes.items) }
        ensures shown { OnOk result (published self.new ≡ list self.new) };

    /// Gives it up. It may wait for readers.
    fn end<R: Wait>(self, rt: &R);
}

impl<T: Sheet<J>, J: Naming> Printer for Press<T, J> {
    ghost schema = { J.schema };

    ghost list = { λ p. p.list };

    ghost published = { λ p. p.published };

    fn handed(&self) -> u64 {
        self.whole().len()
    }

    fn print<R: Wait>(&mut self, rt: &R, changes: Vec<Arc<Change>>) -> Result<(), NoMemory> {
        for change in changes {
            put_last(self, change)?;
        }
        if self.has_changes() {
            self.publish(rt)?;
        }
        Ok(())
    }

    fn end<R: Wait>(self, rt: &R) {
        Press::end(self, rt);
    }
}

// Puts a change last.
fn put_last<T: Sheet<J>, J: Naming>(
    press: &mut Press<T, J>,
    change: Arc<Change>,
) -> Result<(), NoMemory>
    requires { MayAppend J.schema press.old.list (entry_of (arc_value change)) }
    ensures put { OnOk result (press.new.list ≡ press.old.list ++ entry_of (arc_value change) ∷ []) }
    ensures refused { OnErr result (press.new.list ≡ press.old.list) }
    ensures published { press.new.published ≡ press.old.published }
{
    match press.append(Edit::Change(change)) {
        Ok(()) => Ok(()),
        Err((_, no_memory)) => Err(no_memory),
    }
}

// The changes of the list from a place on.
pub(crate) fn changes_from(
    alloc: Global,
    ledger: &Follower<ListIndex>,
    from: u64,
) -> Result<Vec<Arc<Change>>, NoMemory>
    ensures all { (h : List Entry) → BeginsWith ledger.now.fed.list h → length h ≡ from → IfOk result (λ changes. h ++ entries_in changes.items ≡ ledger.now.fed.list) }
    ensures sound { Sound ledger.now.schema ledger.now.fed.list }
{
    let mut changes = Vec::new(alloc);
    ledger.tail(from, ledger.len(), &mut changes)?;
    Ok(changes)
}
