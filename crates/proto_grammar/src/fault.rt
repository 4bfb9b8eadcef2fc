//! Why a text is not a proto file.

ghost use Rattle.std.specs.Prelude.{◌≡◌};
ghost use Rattle.proto_grammar.specs.declared.fault.ProtoFault.TheVariants.{Memory as NoMemory};

use mrpc_table::Memory;
use std::alloc::{AllocError, AllocFailed};
use std::fmt;
use thiserror::Error;

/// Why a token is at fault.
#[derive(Clone, Copy, Debug)]
pub enum ProtoReason {
    /// It is not a token. `:` and `/` are tokens only inside the braces of an option's value.
    Token,
    /// It can't appear here; another token is expected.
    Expected,
    /// After `import` comes neither a string nor `public`, nor the end of the text.
    Import,
    /// `stream` before the type of an rpc.
    Stream,
    /// `group` where a type is expected.
    Group,
    /// `extend` or `extensions` where a statement of a file or of a message starts.
    Extend,
    /// The first token isn't `syntax`, or the named syntax isn't proto3.
    Syntax2,
    /// A 33rd level of nested messages.
    Nesting,
}

/// Why no file was read.
#[derive(Clone, Copy, Debug, Error)]
pub enum ProtoFault {
    /// The first token at fault: its reason, offsets and line.
    #[error("line {line}: {reason}")]
    At {
        reason: ProtoReason,
        start: usize,
        end: usize,
        line: u64,
    },
    /// Out of memory.
    #[error("out of memory")]
    Memory,
}

impl ProtoReason {
    ghost use Rattle.proto_grammar.specs.Reason.{proto_word};

    /// The word that names the reason in the text of the fault.
    pub fn word(self) -> &'static str
        ensures { result.now ≡ proto_word self }
    {
        match self {
            ProtoReason::Token => "Token",
            ProtoReason::Expected => "Expected",
            ProtoReason::Import => "Import",
            ProtoReason::Stream => "Stream",
            ProtoReason::Group => "Group",
            ProtoReason::Extend => "Extend",
            ProtoReason::Syntax2 => "Syntax2",
            ProtoReason::Nesting => "Nesting",
        }
    }
}

impl fmt::Display for ProtoReason {
    fn fmt<W: fmt::Write>(&self, f: &mut fmt::Formatter<W>) -> fmt::Result {
        f.write_str(self.word())
    }
}

impl std::error::Error for ProtoReason {}

impl From<Memory> for ProtoFault {
    ghost from_gives = { λ _ e. e ≡ NoMemory };

    fn from(_: Memory) -> ProtoFault {
        ProtoFault::Memory
    }
}

impl From<AllocError> for ProtoFault {
    ghost from_gives = { λ _ e. e ≡ NoMemory };

    fn from(_: AllocError) -> ProtoFault {
        ProtoFault::Memory
    }
}

impl<T: Drop> From<AllocFailed<T>> for ProtoFault {
    ghost from_gives = { λ _ e. e ≡ NoMemory };

    fn from(_: AllocFailed<T>) -> ProtoFault {
        ProtoFault::Memory
    }
}
