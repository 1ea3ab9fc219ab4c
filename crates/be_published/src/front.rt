//! Beginnings of the history.

ghost use Rattle.std.specs.Prelude.{◌≡◌, ◌+◌, ◌<◌, ◌≤◌, ◌++◌, ◌∷◌, [], length, MatchBool};
ghost use Rattle.be_base.specs.Lists.{BeginsWith};
ghost use Rattle.be_base.specs.declared.limits.TheConstants.{LOG_CHANGES};
ghost use Rattle.be_change.specs.Entries.{entry_of};
ghost use Rattle.be_change.specs.Sound.{MayAppend, Sound};

use crate::history::{Add, Book, Law, Line, Naming, Nothing};
use be_model::Change;
use logbook::{Offer, Seen};
use std::marker::{Model, PhantomData};

/// A beginning of the history that was seen. Contracts see it as its changes; at run time it is its length.
#[derive(Drop)]
pub struct Front<J: Naming> {
    len: u64,
    seen: Seen<Line, u64, Law>,
    of: PhantomData<J>,
}

impl<J: Naming> Model for Front<J> {
    ghost use Rattle.std.specs.Prelude.{◌≡◌, List, length};
    ghost use Rattle.be_change.specs.History.{Entry};
    ghost use Rattle.be_change.specs.Sound.{Sound};

    ghost Value = { List Entry };

    ghost view = { λ f. f.seen.log };

    ghost invariant = { λ f. (f.len ≡ length f.seen.log) × (f.seen.book ≡ J.book) × Sound J.schema f.seen.log };
}

impl<J: Naming> Front<J> {
    /// The beginning that has no change.
    pub(crate) fn first(seen: Seen<Line, u64, Law>) -> Front<J>
        requires book { seen.book ≡ J.book }
        requires empty { seen.log ≡ [] }
        ensures { result ≡ [] }
    {
        Front {
            len: 0,
            seen,
            of: PhantomData,
        }
    }

    pub fn len(&self) -> u64
        ensures length { result ≡ length self.now }
        ensures sound { Sound J.schema self.now }
    {
        self.len
    }

    pub fn again(&self) -> Front<J>
        ensures { result ≡ self.now }
    {
        Front {
            len: self.len,
            seen: self.seen.again(),
            of: PhantomData,
        }
    }

    /// Of two beginnings the shorter begins the longer. To call it does nothing.
    pub fn begins(&self, other: &Front<J>)
        requires { length self.now ≤ length other.now }
        ensures { BeginsWith other.now self.now }
    {
        let _ = self.len;
        let mut both = self.seen.again();
        both.learn(&other.seen);
    }

    /// Puts a change last in the history, where this is all of it, and says whether it did.
    pub fn push(&mut self, book: &Book<J>, change: &Change) -> bool
        requires room { length self.old < LOG_CHANGES }
        requires may { MayAppend J.schema self.old (entry_of change.now) }
        ensures { MatchBool result (self.new ≡ self.old ++ entry_of change.now ∷ []) (self.new ≡ self.old) }
    {
        let mut seen = self.seen.again();
        let mut offer: Offer<Line, u64, Law, Nothing> = seen.plain::<Nothing, Change, Add>(change);
        let mut pen = seen.no_pen();
        let len = self.len;
        let found = book
            .head
            .compare_exchange::<Add, Nothing>(len, len + 1, &mut seen, &mut offer, &mut pen);
        if found == len {
            self.len = len + 1;
            self.seen = seen;
            return true;
        }
        false
    }
}
