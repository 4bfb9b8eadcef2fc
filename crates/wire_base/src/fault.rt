//! Why bytes aren't records.

use std::fmt;
use thiserror::Error;

/// Why there is no record at an offset.
#[derive(Clone, Copy, Debug, PartialEq, Eq)]
pub enum WireReason {
    /// Ten bytes with the top bit set are in place of a varint.
    Varint = 1,
    /// The value of a tag is 2^32 or more.
    TagRange = 2,
    /// The field number of a tag is 0.
    NumberZero = 3,
    /// The wire type of a tag isn't 0, 1, 2 or 5.
    WireType = 4,
    /// The bytes end inside a tag or a payload.
    Short = 5,
}

impl fmt::Display for WireReason {
    fn fmt<W: fmt::Write>(&self, f: &mut fmt::Formatter<W>) -> fmt::Result {
        f.write_str(match self {
            WireReason::Varint => "a varint is longer than ten bytes",
            WireReason::TagRange => "a tag is out of range",
            WireReason::NumberZero => "a field number is 0",
            WireReason::WireType => "a wire type is unknown",
            WireReason::Short => "the bytes end inside a record",
        })
    }
}

impl std::error::Error for WireReason {}

/// The first fault of some bytes: the reason, and the offset of the fault, counted from 0.
#[derive(Clone, Copy, Debug, Error)]
#[error("byte {place}: {reason}")]
pub struct WireFault {
    pub reason: WireReason,
    pub place: usize,
}
