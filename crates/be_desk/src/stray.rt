//! What shows that the records of the seats and the list differ.

ghost use Rattle.std.specs.Prelude.{◌≡◌, option_map, IfSome};
ghost use Rattle.std.specs.Arc.{arc_value};
ghost use Rattle.be_change.specs.Entries.{entry_of};
ghost use Rattle.be_desk.specs.Closing.{Differ};

use be_model::Change;
use std::marker::Model;
use std::sync::Arc;

/// Where the records of all seats, by place, first differ from the list. It is made by `Desk::check_records` alone.
#[derive(Drop)]
pub struct Stray {
    pub(crate) at: u64,
    pub(crate) listed: Option<Arc<Change>>,
    pub(crate) made: Option<u64>,
    pub(crate) change: Option<Arc<Change>>,
}

impl Model for Stray {
    ghost use Rattle.std.specs.Prelude.{option_map};
    ghost use Rattle.std.specs.Arc.{arc_value};
    ghost use Rattle.be_change.specs.Entries.{entry_of};
    ghost use Rattle.be_desk.specs.Closing.{StrayState, Differ};

    ghost Value = { StrayState };

    ghost view = { λ s. record {
      at = s.at;
      listed = option_map (λ c. entry_of (arc_value c)) s.listed;
      made = s.made;
      change = option_map (λ c. entry_of (arc_value c)) s.change;
    } };

    ghost invariant = { λ s. Differ s.at (option_map (λ c. entry_of (arc_value c)) s.listed) s.made };
}

impl Stray {
    /// The place from which on they differ.
    pub fn at(&self) -> u64
        ensures at { result ≡ self.now.at }
        ensures differ { Differ self.now.at self.now.listed self.now.made }
    {
        self.at
    }

    /// The next place that a record has, there or behind, and the list's change at it. A record tells no change of its
    /// own, so there is none where the list ends before that place.
    pub fn made(&self) -> Option<(u64, Option<&Arc<Change>>)>
        ensures place { option_map (λ p. p.0) result ≡ self.now.made }
        ensures change { IfSome result (λ p. option_map (λ c. entry_of (arc_value c.now)) p.1 ≡ self.now.change) }
    {
        match self.made {
            None => None,
            Some(place) => Some((place, self.change.as_ref())),
        }
    }

    /// The list's change at the place from which on they differ. There is none where the list ends there.
    pub fn listed(&self) -> Option<&Arc<Change>>
        ensures { option_map (λ c. entry_of (arc_value c.now)) result ≡ self.now.listed }
    {
        self.listed.as_ref()
    }
}
