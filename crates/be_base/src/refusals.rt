//! A refused growth of a vector, which hands the item back, is want of memory.

use crate::names::NoMemory;
use std::alloc::AllocFailed;

impl<T: Drop> From<AllocFailed<T>> for NoMemory {
    fn from(_: AllocFailed<T>) -> NoMemory {
        NoMemory
    }
}
