//! Why a file has no table.

ghost use Rattle.std.specs.Prelude.{◌≡◌};
ghost use Rattle.schema_resolve.specs.declared.fault.ResolveFault.TheVariants.{At, Memory as NoMemory};

use mrpc_table::Memory;
use schema_validation::{ResolveReason, Violation};
use std::alloc::{AllocError, AllocFailed};
use thiserror::Error;

/// Why a file has no table.
#[derive(Clone, Copy, Debug, Error)]
pub enum ResolveFault {
    /// The first violation: its reason, the offsets of its name or number, and its line.
    #[error("line {line}: {reason}")]
    At {
        reason: ResolveReason,
        start: usize,
        end: usize,
        line: u64,
    },
    /// Out of memory.
    #[error("out of memory")]
    Memory,
}

impl From<Memory> for ResolveFault {
    ghost from_gives = { λ _ e. e ≡ NoMemory };

    fn from(_: Memory) -> ResolveFault {
        ResolveFault::Memory
    }
}

impl From<AllocError> for ResolveFault {
    ghost from_gives = { λ _ e. e ≡ NoMemory };

    fn from(_: AllocError) -> ResolveFault {
        ResolveFault::Memory
    }
}

impl<T: Drop> From<AllocFailed<T>> for ResolveFault {
    ghost from_gives = { λ _ e. e ≡ NoMemory };

    fn from(_: AllocFailed<T>) -> ResolveFault {
        ResolveFault::Memory
    }
}

// The fault of a violation.
pub(crate) fn fault_of(offence: Violation) -> ResolveFault
    ensures { result ≡ At offence.reason offence.span.start offence.span.end offence.span.line }
{
    let Violation { reason, span } = offence;
    ResolveFault::At {
        reason,
        start: span.start,
        end: span.end,
        line: span.line,
    }
}
