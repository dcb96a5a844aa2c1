//! The plain refusals.

use std::alloc::{AllocError, AllocFailed};

/// The memory of the program itself ran out (this project's own).
#[derive(Clone, Copy, Debug, PartialEq, Eq)]
pub struct NoMemory;

impl From<AllocError> for NoMemory {
    fn from(_e: AllocError) -> NoMemory {
        NoMemory
    }
}

impl<T: Drop> From<AllocFailed<T>> for NoMemory {
    fn from(_e: AllocFailed<T>) -> NoMemory {
        NoMemory
    }
}

/// A value that isn't taken (this project's own).
#[derive(Clone, Copy, Debug, PartialEq, Eq)]
pub struct Refused;
