//! Why a text is no canonical text of a table.

ghost use Rattle.std.specs.Prelude.{◌≡◌};
ghost use Rattle.table_text.specs.declared.fault.TableFault.TheVariants.{Memory as NoMemory};

use mrpc_table::Memory;
use std::alloc::{AllocError, AllocFailed};
use std::fmt;
use thiserror::Error;

/// What is wrong with a line. If a line has several reasons, the first of this list counts.
#[derive(Clone, Copy, Debug)]
pub enum TableReason {
    /// A line has the wrong form or is out of order, a label doesn't go with its kind, or an enum has no value.
    Syntax,
    /// A field number is outside 1 to 536870911 or within 19000 to 19999, or an enum value isn't a signed 32-bit
    /// number. Also: an enum has no value 0, or the index of a method isn't the next one.
    Number,
    /// A name or a field number occurs twice.
    Duplicate,
    /// A line uses a message or an enum that no line of the text declares.
    UnknownType,
    /// The key of a map is neither integral, nor a bool, nor a string.
    MapKey,
    /// A limit is exceeded. The limits are 256 messages, enums or methods, 128 fields of a message, and 1024 values of
    /// an enum; 64 bytes of a name, 255 bytes of a full name, and 65536 bytes of text.
    Limit,
}

/// Why no table was read.
#[derive(Clone, Copy, Debug, Error)]
pub enum TableFault {
    /// The first line at fault, from 1, with its first reason.
    #[error("line {line}: {reason}")]
    At { line: u64, reason: TableReason },
    /// Out of memory.
    #[error("out of memory")]
    Memory,
}

impl TableReason {
    ghost use Rattle.table_text.specs.Reason.{table_reason_word};

    /// The word that names the reason in a printed fault.
    pub fn word(self) -> &'static str
        ensures { result.now ≡ table_reason_word self }
    {
        match self {
            TableReason::Syntax => "Syntax",
            TableReason::Number => "Number",
            TableReason::Duplicate => "Duplicate",
            TableReason::UnknownType => "UnknownType",
            TableReason::MapKey => "MapKey",
            TableReason::Limit => "Limit",
        }
    }
}

impl fmt::Display for TableReason {
    fn fmt<W: fmt::Write>(&self, f: &mut fmt::Formatter<W>) -> fmt::Result {
        f.write_str(self.word())
    }
}

impl std::error::Error for TableReason {}

impl From<Memory> for TableFault {
    ghost from_gives = { λ _ e. e ≡ NoMemory };

    fn from(_: Memory) -> TableFault {
        TableFault::Memory
    }
}

impl From<AllocError> for TableFault {
    ghost from_gives = { λ _ e. e ≡ NoMemory };

    fn from(_: AllocError) -> TableFault {
        TableFault::Memory
    }
}

impl<T: Drop> From<AllocFailed<T>> for TableFault {
    ghost from_gives = { λ _ e. e ≡ NoMemory };

    fn from(_: AllocFailed<T>) -> TableFault {
        TableFault::Memory
    }
}
