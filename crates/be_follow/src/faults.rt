//! Why a feed is refused.

ghost use Rattle.std.specs.Prelude.{◌≡◌, Some};
ghost use Rattle.be_follow.specs.Faults.{kind_name};

use std::fmt;
use thiserror::Error;

/// What is wrong with a line of a feed.
#[derive(Clone, Copy, Debug, PartialEq, Eq)]
pub enum FeedKind {
    /// It is no line of a feed, or over the limit.
    Form,
    /// It is of a place behind the next one.
    Gap,
    /// The list has another change at its place.
    Fork,
    /// The list doesn't stay well formed with its change.
    Unfit,
}

impl FeedKind {
    fn name(self) -> &'static str
        ensures { result.now ≡ kind_name self }
    {
        match self {
            FeedKind::Form => "Form",
            FeedKind::Gap => "Gap",
            FeedKind::Fork => "Fork",
            FeedKind::Unfit => "Unfit",
        }
    }
}

impl fmt::Display for FeedKind {
    ghost output = { λ kind. Some (kind_name kind) };

    fn fmt<W: fmt::Write>(&self, f: &mut fmt::Formatter<W>) -> fmt::Result {
        f.pad(self.name())
    }
}

/// Why a piece of a feed wasn't taken, or means nothing.
#[derive(Clone, Copy, Debug, PartialEq, Eq, Error)]
pub enum FeedFault {
    /// The first faulty line of all bytes that were taken, from 1.
    #[error("line {line} {kind}")]
    Bad { line: u64, kind: FeedKind },
    /// Memory ran out, once so many bytes of the piece were taken. The call can be made again with the others.
    #[error("out of memory")]
    NoMemory { taken: u64 },
}
