//! The faults of a stream of frames.

ghost use Rattle.std.specs.Prelude.{◌≡◌};
ghost use Rattle.frame_transport.specs.declared.fault.FeedFault.TheVariants.{Memory as OutOfMemory};

use mrpc_table::Memory;
use thiserror::Error;

/// The first field of a stream that no frame can have, or out of memory. Offsets count the bytes of the whole stream
/// from 0.
#[derive(Clone, Copy, Debug, Error)]
pub enum FeedFault {
    /// The version isn't 1, or in a hello neither 1 nor 2. The offset is that of the version.
    #[error("version {value} at byte {place}")]
    Version { place: u64, value: u8 },
    /// The kind isn't 1, 2 or 3. The offset is that of the kind.
    #[error("kind {value} at byte {place}")]
    Kind { place: u64, value: u8 },
    /// The payload has more than 262144 bytes. The offset is that of the length.
    #[error("payload of {value} bytes at byte {place}")]
    TooLong { place: u64, value: u32 },
    /// Out of memory. The feed is unchanged.
    #[error("out of memory")]
    Memory,
}

impl From<Memory> for FeedFault {
    ghost from_gives = { λ _ fault. fault ≡ OutOfMemory };

    fn from(_: Memory) -> FeedFault {
        FeedFault::Memory
    }
}
