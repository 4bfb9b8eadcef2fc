//! Why a hello isn't read, and why two tables don't agree.

ghost use Rattle.std.specs.Prelude.{◌≡◌};
ghost use Rattle.schema_binding.specs.declared.fault.HelloFault.TheVariants.{Memory as NoMemory};
ghost use Rattle.schema_binding.specs.declared.fault.AgreeFault.TheVariants.{Memory as NoMemoryToAgree};

use mrpc_table::{Memory, Name};
use thiserror::Error;

/// Why a payload isn't that of a hello.
#[derive(Clone, Copy, Debug, Error)]
pub enum HelloFault {
    /// The first line at fault, counted from 1; line 1 is the service.
    #[error("line {line}")]
    Bad { line: u64 },
    /// Out of memory.
    #[error("out of memory")]
    Memory,
}

impl From<Memory> for HelloFault {
    ghost from_gives = { λ _ e. e ≡ NoMemory };

    fn from(_: Memory) -> HelloFault {
        HelloFault::Memory
    }
}

/// Why two tables don't agree on a service.
#[derive(Debug, Drop, Error)]
pub enum AgreeFault {
    /// A table has no method of the service; `ours` and `theirs` are whether each table has one.
    #[error("no method of the service")]
    NoService {
        ours: bool,
        theirs: bool,
    },
    /// The canonical texts first differ at this byte, counted from 0; `None` means that the text has ended.
    #[error("the texts differ at byte {byte}")]
    Mismatch {
        byte: u64,
        ours: Option<u8>,
        theirs: Option<u8>,
    },
    /// The lists of the service's methods first differ at this index, counted from 0.
    #[error("the methods differ at place {at}")]
    Methods {
        at: u32,
    },
    /// A field that both know differs: the one with the least message name, then the least number.
    #[error("field {number} differs")]
    Field {
        message: Name,
        number: u32,
    },
    /// Out of memory.
    #[error("out of memory")]
    Memory,
}

impl From<Memory> for AgreeFault {
    ghost from_gives = { λ _ e. e ≡ NoMemoryToAgree };

    fn from(_: Memory) -> AgreeFault {
        AgreeFault::Memory
    }
}
