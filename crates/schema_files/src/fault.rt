//! Faults of a set of files.

ghost use Rattle.std.specs.Prelude.{◌≡◌};
ghost use Rattle.schema_files.specs.Reason.{files_word};
ghost use Rattle.schema_files.specs.declared.fault.FilesFault.TheVariants.{Memory as NoMemory};

use mrpc_table::Memory;
use proto_grammar::ProtoReason;
use proto_set::ImportReason;
use schema_validation::ResolveReason;
use std::alloc::{AllocError, AllocFailed};
use std::fmt;
use thiserror::Error;

/// Why a set of files has no table. A fault of a text counts before every fault of an import, and that before every
/// violation by a name or a number.
#[derive(Clone, Copy, Debug)]
pub enum FilesReason {
    /// A text is not a proto file.
    Proto(ProtoReason),
    /// An import is at fault.
    Import(ImportReason),
    /// A name or a number violates a schema rule.
    Resolve(ResolveReason),
}

impl FilesReason {
    /// The word for the reason in the text of the fault.
    pub fn word(self) -> &'static str
        ensures { result.now ≡ files_word self }
    {
        match self {
            FilesReason::Proto(reason) => reason.word(),
            FilesReason::Import(reason) => reason.word(),
            FilesReason::Resolve(reason) => reason.word(),
        }
    }
}

impl fmt::Display for FilesReason {
    fn fmt<W: fmt::Write>(&self, f: &mut fmt::Formatter<W>) -> fmt::Result {
        f.write_str(self.word())
    }
}

impl std::error::Error for FilesReason {}

/// Where a set of files is at fault.
#[derive(Clone, Copy, Debug, Error)]
pub enum FilesFault {
    /// The index in the set, from 0, of the first file whose path is invalid or is that of an earlier file. It counts
    /// before every fault of the files' contents.
    #[error("file {file} has a wrong path")]
    Path {
        file: usize,
    },
    /// The first fault: the index of the file in the set, from 0, the line in that file, and the reason.
    #[error("file {file}, line {line}: {reason}")]
    At {
        file: usize,
        line: u64,
        reason: FilesReason,
    },
    /// Out of memory.
    #[error("out of memory")]
    Memory,
}

impl From<Memory> for FilesFault {
    ghost from_gives = { λ _ e. e ≡ NoMemory };

    fn from(_: Memory) -> FilesFault {
        FilesFault::Memory
    }
}

impl From<AllocError> for FilesFault {
    ghost from_gives = { λ _ e. e ≡ NoMemory };

    fn from(_: AllocError) -> FilesFault {
        FilesFault::Memory
    }
}

impl<T: Drop> From<AllocFailed<T>> for FilesFault {
    ghost from_gives = { λ _ e. e ≡ NoMemory };

    fn from(_: AllocFailed<T>) -> FilesFault {
        FilesFault::Memory
    }
}
