//! Want of memory.

use std::alloc::AllocError;
use thiserror::Error;

/// There was no memory for what a call was to make.
#[derive(Clone, Copy, Debug, PartialEq, Eq, Error)]
#[error("there is no memory")]
pub struct Memory;

impl From<AllocError> for Memory {
    fn from(_error: AllocError) -> Memory {
        Memory
    }
}
