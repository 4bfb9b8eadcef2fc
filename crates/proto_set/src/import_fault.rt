//! Faults of the imports of a set.

ghost use Rattle.proto_set.specs.Reason.{import_word};
ghost use Rattle.std.specs.Prelude.{◌≡◌};
ghost use Rattle.proto_set.specs.declared.import_fault.ImportFault.TheVariants.{Memory as NoMemory};

use mrpc_table::Memory;
use proto_ast::Span;
use std::alloc::{AllocError, AllocFailed};
use std::fmt;
use thiserror::Error;

/// Why an import is at fault. Every missing import counts before every repeated one, and a cycle counts only if there
/// is neither.
#[derive(Clone, Copy, Debug)]
pub enum ImportReason {
    /// No file of the set has its path.
    Missing,
    /// An earlier import of the same file has the same path.
    Twice,
    /// It leads to a file from which its own file is reached.
    Cycle,
}

impl ImportReason {
    /// The word for the reason in the text of the fault.
    pub fn word(self) -> &'static str
        ensures { result.now ≡ import_word self }
    {
        match self {
            ImportReason::Missing => "Missing",
            ImportReason::Twice => "Twice",
            ImportReason::Cycle => "Cycle",
        }
    }
}

impl fmt::Display for ImportReason {
    fn fmt<W: fmt::Write>(&self, f: &mut fmt::Formatter<W>) -> fmt::Result {
        f.write_str(self.word())
    }
}

impl std::error::Error for ImportReason {}

/// Which import of which file is at fault.
#[derive(Clone, Copy, Debug, Error)]
pub enum ImportFault {
    /// The first fault: its reason, the index of the file in the set, from 0, and the span of the import's path in
    /// that file.
    #[error("file {file}, line {}: {reason}", span.line)]
    At {
        reason: ImportReason,
        file: usize,
        span: Span,
    },
    /// Out of memory.
    #[error("out of memory")]
    Memory,
}

impl From<Memory> for ImportFault {
    ghost from_gives = { λ _ e. e ≡ NoMemory };

    fn from(_: Memory) -> ImportFault {
        ImportFault::Memory
    }
}

impl From<AllocError> for ImportFault {
    ghost from_gives = { λ _ e. e ≡ NoMemory };

    fn from(_: AllocError) -> ImportFault {
        ImportFault::Memory
    }
}

impl<T: Drop> From<AllocFailed<T>> for ImportFault {
    ghost from_gives = { λ _ e. e ≡ NoMemory };

    fn from(_: AllocFailed<T>) -> ImportFault {
        ImportFault::Memory
    }
}
