//! Where the changes of a feed are put, a piece at a time: into the ring, or into a press at once.

ghost use Rattle.std.specs.Prelude.{◌≡◌, length, IfOk, OnOk};
ghost use Rattle.be_base.specs.Lists.{BeginsWith};

use crate::bell::Bell;
use crate::printing::{Printer, changes_from};
use crate::ring::{Giver, give_all};
use be_base::NoMemory;
use be_follow::Follower;
use be_index::ListIndex;
use std::alloc::Global;
use std::sync::Wait;

// It is handed what is new in a list, again and again.
pub(crate) trait Outlet {
    ghost use Rattle.std.specs.Prelude.{List};
    ghost use Rattle.be_model.specs.Schemas.{Attributes};
    ghost use Rattle.be_change.specs.History.{Entry};

    ghost schema: { Attributes };

    // the changes that were put into it
    ghost list: { Self → List Entry };

    // what holds of it between two calls
    ghost is_sound: { Self → Type 0 };

    // readers see all of it, where it is a press
    ghost is_shown: { Self → Type 0 };

    // the second is the first one, as it stands later
    ghost is_later: { Self → Self → Type 0 };

    // Puts what is new in the list, of which so many changes stood in it, and says how many then do: all of them.
    fn put_new<R: Wait>(
        &mut self,
        rt: &R,
        alloc: Global,
        ledger: &Follower<ListIndex>,
        stood: u64,
        bell: &Bell,
    ) -> Result<u64, NoMemory>
        requires schema { ledger.now.schema ≡ schema }
        requires stood { stood ≡ length (list self.old) }
        requires begins { BeginsWith ledger.now.fed.list (list self.old) }
        requires sound { is_sound self.old }
        ensures sound { is_sound self.new }
        ensures later { (first : Self) → is_later first self.old → is_later first self.new }
        ensures begins { BeginsWith ledger.now.fed.list (list self.new) }
        ensures all { OnOk result (list self.new ≡ ledger.now.fed.list) }
        ensures shown { OnOk result (is_shown self.new) }
        ensures stands { IfOk result (λ n. n ≡ length (list self.new)) };
}

// The ring, out of which another thread takes them.
impl<P: Printer> Outlet for Giver<P> {
    ghost use Rattle.rtrb.specs.Ring.{sent, SameProducer};
    ghost use Rattle.be_change.specs.Entries.{entries_in};

    ghost schema = { P.schema };

    ghost list = { λ giver. entries_in (sent giver) };

    ghost is_sound = { λ _. Unit {0} };

    ghost is_shown = { λ _. Unit {0} };

    ghost is_later = { λ first giver. SameProducer first giver };

    fn put_new<R: Wait>(
        &mut self,
        rt: &R,
        alloc: Global,
        ledger: &Follower<ListIndex>,
        stood: u64,
        bell: &Bell,
    ) -> Result<u64, NoMemory> {
        let changes = changes_from(alloc, ledger, stood)?;
        give_all(rt, self, changes, bell)?;
        Ok(ledger.len())
    }
}

// A press that shows them at once.
pub(crate) struct Direct<P: Printer> {
    pub(crate) press: P,
}

impl<P: Printer> Outlet for Direct<P> {
    ghost use Rattle.std.specs.Prelude.{◌≡◌};
    ghost use Rattle.be_base.specs.Lists.{BeginsWith};

    ghost schema = { P.schema };

    ghost list = { λ direct. P.list direct.press };

    ghost is_sound = { λ direct. BeginsWith (P.list direct.press) (P.published direct.press) };

    ghost is_shown = { λ direct. P.published direct.press ≡ P.list direct.press };

    ghost is_later = { λ _ _. Unit {0} };

    fn put_new<R: Wait>(
        &mut self,
        rt: &R,
        alloc: Global,
        ledger: &Follower<ListIndex>,
        stood: u64,
        _bell: &Bell,
    ) -> Result<u64, NoMemory> {
        let changes = changes_from(alloc, ledger, stood)?;
        self.press.print(rt, changes)?;
        Ok(ledger.len())
    }
}
