//! Why a chain rejects an operation, or a call.

use engine_core::Standing;
use mrpc_table::Name;

/// Why a chain rejects an operation. The chain is unchanged.
#[derive(Drop)]
pub enum ChainFault {
    /// No entry has the name.
    NoSuch { name: Name },
    /// An entry has the name already.
    Taken { name: Name },
    /// The position is past the end.
    At { position: u32 },
    /// The chain has eight engines, the maximum.
    ChainFull { engines: u32 },
    /// The entry with the name has a policy of another kind.
    OtherKind { name: Name },
    /// Out of memory. No call of a chain returns it; the layer above, which records operations, may.
    Memory,
}

/// Why a chain accepts no further call.
#[derive(Drop)]
pub enum PushFault {
    /// `MAX_CALLS` are pending, the maximum. The call is returned.
    Standing(Standing),
}
