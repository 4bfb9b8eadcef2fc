//! The error that has no cause in the input: out of memory.

ghost use Rattle.std.specs.Prelude.{◌≡◌};
ghost use Rattle.mrpc_table.specs.declared.memory.Memory.{Memory};

use std::alloc::{AllocError, AllocFailed};
use thiserror::Error;

/// Out of memory.
#[derive(Clone, Copy, Debug, PartialEq, Eq, Error)]
#[error("out of memory")]
pub struct Memory;

impl From<AllocError> for Memory {
    fn from(_: AllocError) -> Memory {
        Memory
    }
}

impl<T: Drop> From<AllocFailed<T>> for Memory {
    fn from(_: AllocFailed<T>) -> Memory {
        Memory
    }
}
