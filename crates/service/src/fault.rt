//! Why a run has no result.

ghost use Rattle.std.specs.Prelude.{◌≡◌};
ghost use Rattle.service.specs.declared.fault.ServeFault.TheVariants.{Memory as NoMemory};

use mrpc_table::Memory;
use thiserror::Error;

/// Why a run has no result.
#[derive(Clone, Copy, Debug, PartialEq, Eq, Error)]
pub enum ServeFault {
    /// The fabric failed to open a link.
    #[error("the fabric failed")]
    Fabric,
    /// Out of memory.
    #[error("out of memory")]
    Memory,
}

impl From<Memory> for ServeFault {
    ghost from_gives = { λ _ e. e ≡ NoMemory };

    fn from(_: Memory) -> ServeFault {
        ServeFault::Memory
    }
}
