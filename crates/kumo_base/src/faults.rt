//! The two answers that have no cause of their own in the data: a device that failed, and no memory.
use std::alloc::{AllocError, AllocFailed};

/// A device of the outside failed. The call that answers it has raised the device's count of faults.
#[derive(Clone, Copy, Debug, PartialEq, Eq)]
pub struct Failed;

/// There was no memory. No contract says when this comes; what it leaves stands at each call.
#[derive(Clone, Copy, Debug, PartialEq, Eq)]
pub struct Memory;

impl From<AllocError> for Memory {
    fn from(_error: AllocError) -> Memory {
        Memory
    }
}

impl<T: Drop> From<AllocFailed<T>> for Memory {
    fn from(_failed: AllocFailed<T>) -> Memory {
        Memory
    }
}
