//! The schema rules that a file can violate.

ghost use Rattle.std.specs.Prelude.{◌≡◌};

use std::error::Error;
use std::fmt;

/// Why a name or a number of a file is a violation. If one has several reasons, the first one in this list counts.
#[derive(Clone, Copy, Debug, PartialEq, Eq)]
pub enum ResolveReason {
    /// No message or enum has this name; for the type of an rpc, no message has it.
    UnknownName,
    /// A field number outside 1 to 536870911 or in 19000 to 19999, or an enum's number that isn't a signed number of
    /// 32 bits.
    NumberRange,
    /// A field number that an earlier field of the message has.
    DuplicateNumber,
    /// A name that is declared earlier in its scope, or a type with the name of a package or of a prefix of one. The
    /// values of an enum are in the scope that encloses it.
    DuplicateName,
    /// The number or name of a field, or of an enum's value, is reserved there.
    Reserved,
    /// The first value of an enum isn't 0.
    FirstEnum,
    /// The key of a map is neither integral, nor a bool, nor a string.
    MapKey,
    /// A map has a label, is in a oneof, or is the value of a map.
    MapPlace,
    /// More than 256 messages, enums or methods, 128 fields of a message, 1024 values of an enum, 64 bytes of a name,
    /// 255 bytes of a full name, or 65536 bytes of the table's text.
    Limit,
    /// An import. A file alone can't import another.
    Import,
}

impl ResolveReason {
    ghost use Rattle.schema_validation.specs.Reason.{resolve_word};

    /// The word that names the reason in the text of the fault.
    pub fn word(self) -> &'static str
        ensures { result.now ≡ resolve_word self }
    {
        match self {
            ResolveReason::UnknownName => "UnknownName",
            ResolveReason::NumberRange => "NumberRange",
            ResolveReason::DuplicateNumber => "DuplicateNumber",
            ResolveReason::DuplicateName => "DuplicateName",
            ResolveReason::Reserved => "Reserved",
            ResolveReason::FirstEnum => "FirstEnum",
            ResolveReason::MapKey => "MapKey",
            ResolveReason::MapPlace => "MapPlace",
            ResolveReason::Limit => "Limit",
            ResolveReason::Import => "Import",
        }
    }
}

impl fmt::Display for ResolveReason {
    fn fmt<W: fmt::Write>(&self, f: &mut fmt::Formatter<W>) -> fmt::Result {
        f.write_str(self.word())
    }
}

impl Error for ResolveReason {}
