//! Why a call on the outside failed.

ghost use Rattle.std.specs.Prelude.{◌≡◌};
ghost use Rattle.be_io.specs.declared.faults.ShelfFault.TheVariants as ShelfFault;

use std::alloc::{AllocError, AllocFailed};
use thiserror::Error;

/// A call on a handed-in object failed, and that object counted it.
#[derive(Clone, Copy, Debug, PartialEq, Eq, Error)]
#[error("the call failed")]
pub struct Failed;

#[derive(Clone, Copy, Debug, PartialEq, Eq, Error)]
pub enum SinkFault {
    #[error("the write failed")]
    Failed,
    /// Only sinks in memory give it.
    #[error("out of memory")]
    NoMemory,
}

#[derive(Clone, Copy, Debug, PartialEq, Eq, Error)]
pub enum ShelfFault {
    #[error("the file can't be read")]
    Failed,
    #[error("the file has more than 67108864 bytes")]
    Long,
    #[error("out of memory")]
    NoMemory,
}

impl From<AllocError> for ShelfFault {
    ghost from_gives = { λ _ fault. fault ≡ ShelfFault.NoMemory };

    fn from(_: AllocError) -> ShelfFault {
        ShelfFault::NoMemory
    }
}

impl<T: Drop> From<AllocFailed<T>> for ShelfFault {
    ghost from_gives = { λ _ fault. fault ≡ ShelfFault.NoMemory };

    fn from(_: AllocFailed<T>) -> ShelfFault {
        ShelfFault::NoMemory
    }
}

#[derive(Clone, Copy, Debug, PartialEq, Eq, Error)]
pub enum LineFault {
    #[error("a read failed")]
    ReadFault,
    #[error("the reader has taken 1099511627776 bytes")]
    Spent,
}

#[derive(Clone, Copy, Debug, PartialEq, Eq, Error)]
pub enum ListenFault {
    #[error("the door can't listen")]
    Failed,
    #[error("out of memory")]
    NoMemory,
}

#[derive(Clone, Copy, Debug, PartialEq, Eq, Error)]
pub enum AcceptFault {
    #[error("a link can't be accepted")]
    Failed,
    #[error("out of memory")]
    NoMemory,
}
