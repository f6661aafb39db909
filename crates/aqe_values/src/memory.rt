//! Want of memory, the one answer that has no cause in a call's arguments.

use std::alloc::{AllocError, AllocFailed};

/// An allocation failed.
///
/// This crate stands on no other, so it has a type of its own; the crates above turn it into theirs.
#[derive(Clone, Copy, Debug, PartialEq, Eq, Drop)]
pub struct Memory;

impl From<AllocError> for Memory {
    fn from(_error: AllocError) -> Memory {
        Memory
    }
}

impl<T: Drop> From<AllocFailed<T>> for Memory {
    fn from(_error: AllocFailed<T>) -> Memory {
        Memory
    }
}
