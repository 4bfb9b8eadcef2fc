//! Why a run ends before the last line of its script.

ghost use Rattle.std.specs.Prelude.{◌≡◌};

use mrpc_table::Memory;
use std::alloc::AllocFailed;

/// Why a run ends before the last line of its script.
#[derive(Clone, Copy)]
pub enum ReplayError {
    /// Out of memory.
    Memory,
    /// The audit couldn't be written.
    Out,
    /// A frame couldn't be written.
    Wire,
}

impl From<Memory> for ReplayError {
    ghost use Rattle.replay_run.specs.declared.replay_error.ReplayError.TheVariants.{Memory as NoMemory};

    ghost from_gives = { λ _ stop. stop ≡ NoMemory };

    fn from(_: Memory) -> ReplayError {
        ReplayError::Memory
    }
}

impl<T: Drop> From<AllocFailed<T>> for ReplayError {
    ghost use Rattle.replay_run.specs.declared.replay_error.ReplayError.TheVariants.{Memory as NoMemory};

    ghost from_gives = { λ _ stop. stop ≡ NoMemory };

    fn from(_: AllocFailed<T>) -> ReplayError {
        ReplayError::Memory
    }
}
