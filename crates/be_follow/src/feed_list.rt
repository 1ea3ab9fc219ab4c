//! The list that a feed is put into.

ghost use Rattle.std.specs.Prelude.{◌≡◌, ◌<◌, ◌++◌, ◌∷◌, [], List, length, true, IfSome, None, Some, IfOk, OnOk, OnErr, option_map, slice_get};
ghost use Rattle.std.specs.List.{list_all};
ghost use Rattle.std.specs.Arc.{arc_value};
ghost use Rattle.be_model.specs.Lies.{entry_lies};
ghost use Rattle.be_model.specs.Schemas.{Attributes};
ghost use Rattle.be_change.specs.Entries.{entry_of};
ghost use Rattle.be_change.specs.History.{Entry, live, stand, is_opening, IsWellFormed, MayFollow};
ghost use Rattle.be_follow.specs.Feeds.{Places};
ghost use Rattle.be_follow.specs.Placing.{list_or_fault, owner_of};

use crate::faults::FeedKind;
use crate::fitting::may_follow;
use be_base::{Name, NoMemory, SessionNo};
use be_change::ChangeLog;
use be_model::Change;
use std::alloc::Global;
use std::sync::Arc;

/// A well formed list of changes, which says what it takes to tell whether a change may come next. Contracts see the list, and the
/// schema in which its rows lie.
pub trait FeedList {
    ghost list: { Self → List Entry };

    ghost schema: { Self → Attributes };

    fn log(&self) -> &ChangeLog
        ensures list { result.now.list ≡ list self.now }
        ensures form { IsWellFormed (list self.now) };

    /// Whether all changes are of the opening.
    fn is_opening(&self) -> bool
        ensures { result ≡ list_all is_opening (list self.now) };

    /// How many changes the session has made, or 2^63 where it has left.
    fn stand(&self, session: SessionNo) -> u64
        ensures { result ≡ stand session.0 (list self.now) };

    /// Whose the live row of this name is.
    fn owner(&self, name: &Name) -> Option<SessionNo>
        ensures { option_map (λ k. k.0) result ≡ owner_of name.now (live (list self.now)) };

    /// Puts a change last, or changes nothing where memory is wanting.
    fn append(&mut self, change: Arc<Change>) -> Result<(), NoMemory>
        requires follows { MayFollow (list self.old) (entry_of (arc_value change)) }
        requires lies { entry_lies (schema self.old) (entry_of (arc_value change)) ≡ true }
        ensures appended { OnOk result (list self.new ≡ list self.old ++ entry_of (arc_value change) ∷ []) }
        ensures refused { OnErr result (list self.new ≡ list self.old) }
        ensures schema { schema self.new ≡ schema self.old };
}

/// Takes the change at this place of the leader's list, or says what is wrong with it.
pub fn place<F: FeedList>(
    list: &mut F,
    alloc: Global,
    place: u64,
    change: Change,
) -> Result<Option<FeedKind>, NoMemory>
    requires { entry_lies (F.schema list.old) (entry_of change) ≡ true }
    ensures places { IfOk result (λ fault. Places (F.list list.old) place (entry_of change) (list_or_fault (F.list list.new) fault)) }
    ensures kept { IfOk result (λ fault. IfSome fault (λ kind. F.list list.new ≡ F.list list.old)) }
    ensures refused { OnErr result (F.list list.new ≡ F.list list.old) }
    ensures schema { F.schema list.new ≡ F.schema list.old }
{
    let len = list.log().len();
    if place > len {
        return Ok(Some(FeedKind::Gap));
    }
    if place < len {
        return Ok(again(list, place, &change));
    }
    if !may_follow(list, &change) {
        return Ok(Some(FeedKind::Unfit));
    }
    let change = Arc::new(alloc, change).map_err(|_| NoMemory)?;
    list.append(change)?;
    Ok(None)
}

// Compares the change with the one that stands at its place.
fn again<F: FeedList>(list: &F, place: u64, change: &Change) -> Option<FeedKind>
    requires { place < length (F.list list.now) }
    ensures same { result ≡ None → slice_get (F.list list.now) place ≡ Some (entry_of change.now) }
    ensures other { IfSome result (λ kind. (kind ≡ FeedKind.Fork) × (slice_get (F.list list.now) place ≡ Some (entry_of change.now) → ⊥)) }
{
    if list.log().at(place).same_as(change) {
        None
    } else {
        Some(FeedKind::Fork)
    }
}
