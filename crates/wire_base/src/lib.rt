//! Varints and records of the Protocol Buffers wire format, and the encoding of a tree.
//!
//! The format is that of the Protocol Buffers encoding guide. `specs/Records.antt` defines the records of a byte string
//! and its first fault, and `specs/Encoding.antt` the encoding of a tree. The calls here read and write one varint or
//! one record. This crate depends on the lists of `mrpc_table`. The layers above use one contract: a record is read
//! exactly if there is one, and otherwise the fault is the reason why there is none.
#![tactic(auto)]

mod fault;
mod fixed;
mod laws;
mod records;
mod sign;
mod varint;

pub use fault::{WireFault, WireReason};
pub use fixed::{read_fixed32, read_fixed64};
pub use laws::{payload_or_reason, record_or_fault, records_or_fault, varint_is_read_back};
pub use records::{Payload, Record, read_delimited, read_record, read_tag};
pub use sign::{unzigzag, zigzag};
pub use varint::{MAX_VARINT, VarintBytes, fill_varint, put_varint, read_varint, varint_len};
