//! Why bytes aren't a message.

ghost use Rattle.std.specs.Prelude.{◌≡◌};
ghost use Rattle.wire_decode.specs.declared.fault.DecodeReason.{DecodeReason};
ghost use Rattle.wire_decode.specs.declared.fault.DecodeFault.{DecodeFault};
ghost use Rattle.wire_decode.specs.declared.fault.DecodeFault.TheVariants.{Memory as NoMemory};

use mrpc_table::Memory;
use std::alloc::{AllocError, AllocFailed};
use std::fmt;
use thiserror::Error;
use wire_base::{WireFault, WireReason};

/// Why bytes aren't a message of a table. The first five are those of a record.
#[derive(Clone, Copy, Debug, PartialEq, Eq)]
pub enum DecodeReason {
    /// Ten bytes with the top bit set are in place of a varint.
    Varint = 1,
    /// The value of a tag is 2^32 or more.
    TagRange = 2,
    /// The field number of a tag is 0.
    NumberZero = 3,
    /// The wire type of a tag isn't 0, 1, 2 or 5.
    WireType = 4,
    /// The bytes end inside a tag or a payload.
    Short = 5,
    /// The payload of a string isn't UTF-8.
    Utf8 = 6,
    /// The payload of packed numbers isn't a sequence of whole elements.
    PackedLength = 7,
    /// The payload, or the value that a map's entry lacks, would be a message at depth 33.
    Depth = 8,
}

impl DecodeReason {
    ghost use Rattle.wire_decode.specs.Reason.{decode_reason_word};

    /// The word that names the reason in a printed fault.
    pub fn word(self) -> &'static str
        ensures { result.now ≡ decode_reason_word self }
    {
        match self {
            DecodeReason::Varint => "Varint",
            DecodeReason::TagRange => "TagRange",
            DecodeReason::NumberZero => "NumberZero",
            DecodeReason::WireType => "WireType",
            DecodeReason::Short => "Short",
            DecodeReason::Utf8 => "Utf8",
            DecodeReason::PackedLength => "PackedLength",
            DecodeReason::Depth => "Depth",
        }
    }
}

impl fmt::Display for DecodeReason {
    fn fmt<W: fmt::Write>(&self, f: &mut fmt::Formatter<W>) -> fmt::Result {
        f.write_str(self.word())
    }
}

impl std::error::Error for DecodeReason {}

/// Why no message was read.
#[derive(Clone, Copy, Debug, Error)]
pub enum DecodeFault {
    /// The first fault of the bytes, and its offset, counted from 0.
    #[error("byte {place}: {reason}")]
    At { reason: DecodeReason, place: usize },
    /// Out of memory.
    #[error("out of memory")]
    Memory,
}

impl From<AllocError> for DecodeFault {
    ghost from_gives = { λ _ f. f ≡ NoMemory };

    fn from(_: AllocError) -> DecodeFault {
        DecodeFault::Memory
    }
}

impl<T: Drop> From<AllocFailed<T>> for DecodeFault {
    ghost from_gives = { λ _ f. f ≡ NoMemory };

    fn from(_: AllocFailed<T>) -> DecodeFault {
        DecodeFault::Memory
    }
}

impl From<Memory> for DecodeFault {
    ghost from_gives = { λ _ f. f ≡ NoMemory };

    fn from(_: Memory) -> DecodeFault {
        DecodeFault::Memory
    }
}
