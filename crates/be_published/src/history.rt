//! The one history of changes, which is for proofs alone: threads share a word, its length.

ghost use Rattle.std.specs.Prelude.{◌≡◌, []};
ghost use Rattle.be_published.specs.Histories.{head_of};

use crate::front::Front;
use be_model::Change;
use logbook::{Gain, Plain, Play, Rule, Seen, Start, Word};
use std::marker::{Brand, Model, PhantomData};

/// An entry of the history. No value of it is made.
pub struct Line {
    session: u64,
}

impl Model for Line {
    ghost use Rattle.be_change.specs.History.{Entry, left};

    ghost Value = { Entry };

    ghost view = { λ l. left l.session 0 };
}

/// The rule of the history.
pub struct Law;

impl Rule<Line, u64> for Law {
    ghost use Rattle.std.specs.Prelude.{[]};
    ghost use base.Fml.{ftrue};
    ghost use Rattle.be_published.specs.Histories.{IsHistory};

    ghost holds = { λ cells log. IsHistory cells log };

    ghost first = { [] };

    ghost hinted = { λ n log. Unit {0} };

    ghost shows = { λ log. [] };

    ghost keeps = { λ names log. ftrue };

    ghost moves = { λ ask before after answer. Unit {0} };
}

/// Callers trade nothing.
pub struct Nothing;

impl Gain<Line, u64> for Nothing {
    ghost use base.Fml.{ftrue};

    ghost after = { λ names about answer. ftrue };
}

/// A step that adds a change.
pub struct Add;

impl Play<Line, u64> for Add {
    ghost use Rattle.be_published.specs.Histories.{Adds};

    ghost then = { Adds };
}

impl Plain<Change, Line, u64> for Add {
    ghost use Rattle.std.specs.Prelude.{None};
    ghost use Rattle.be_change.specs.Entries.{entry_of};

    ghost ask = { entry_of };

    ghost state = { λ change. None };
}

/// Which history it is, the schema of its changes, and those with which it begins. It is for proofs alone, and says of a press, of glasses and of what
/// was told that they belong together. It is chosen where a history is opened, before the two copies are made.
pub trait Naming {
    ghost use Rattle.logbook.specs.Pages.{Book};
    ghost use Rattle.std.specs.Prelude.{List};
    ghost use Rattle.be_model.specs.Schemas.{Attributes};
    ghost use Rattle.be_change.specs.History.{Entry};

    ghost book: { Book };

    ghost schema: { Attributes };

    ghost opening: { List Entry };
}

impl Naming for Brand {
    ghost use Rattle.std.specs.Prelude.{[]};
    ghost use Rattle.be_published.specs.Histories.{no_book, no_attributes};

    ghost book = { no_book };

    ghost schema = { no_attributes };

    ghost opening = { [] };
}

/// An empty history that has no name yet.
#[derive(Drop)]
pub struct Opened {
    head: Word<Line, u64, Law>,
    seen: Seen<Line, u64, Law>,
    pub ghost empty: { seen.log ≡ [] },
    pub ghost head_is: { head ≡ head_of seen.book },
}

impl Opened {
    pub fn new() -> Opened
        ensures { result.seen.log ≡ [] }
    {
        let (seen, mut first, _second) = Seen::open(Start::alone(), 0, 0);
        Opened {
            head: Word::tracked(0, &mut first),
            seen,
        }
    }

    /// The history under a name, and the beginning of it that has no change.
    pub fn named<J: Naming>(self) -> (Book<J>, Front<J>)
        requires { self.seen.book ≡ J.book }
        ensures { result.1 ≡ [] }
    {
        let Opened { head, seen } = self;
        let book = Book {
            head,
            of: PhantomData,
        };
        (book, Front::first(seen))
    }
}

/// The length of the history.
#[derive(Drop)]
pub struct Book<J: Naming> {
    pub(crate) head: Word<Line, u64, Law>,
    of: PhantomData<J>,
    ghost head_is: { head ≡ head_of J.book },
}
