use std::alloc::{AllocError, AllocFailed};
use thiserror::Error;

/// The allocator had no memory. A call that answers this leaves its value as it was, unless its own page says what
/// stands.
#[derive(Clone, Copy, Debug, PartialEq, Eq, Error)]
#[error("out of memory")]
pub struct Memory;

impl From<AllocError> for Memory {
    fn from(_: AllocError) -> Memory {
        Memory
    }
}

impl<T: Drop> From<AllocFailed<T>> for Memory {
    fn from(_: AllocFailed<T>) -> Memory {
        Memory
    }
}
