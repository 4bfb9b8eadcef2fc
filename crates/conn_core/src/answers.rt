//! The submissions to a connection, and the results of its methods.

ghost use Rattle.std.specs.Prelude.{◌≡◌};

use mrpc_table::Memory;

/// A submission of an application.
#[derive(Clone, Copy)]
pub struct Ask {
    /// The index of the method.
    pub method: u16,
    /// 0 for a request; for a reply, the number of the request that it answers.
    pub number: u32,
    /// The address of the message in the heap.
    pub addr: u64,
    /// How many stores were made on that heap before the submission.
    pub after: u64,
}

/// Why a call isn't accepted.
#[derive(Clone, Copy, PartialEq, Eq)]
pub enum AcceptFault {
    /// `MAX_CALLS` (64) calls are pending.
    Standing,
    /// The link has failed.
    Ended,
    /// Out of memory.
    Memory,
}

impl From<Memory> for AcceptFault {
    ghost use Rattle.conn_core.specs.declared.answers.AcceptFault.TheVariants.{Memory as NoMemory};

    ghost from_gives = { λ _ fault. fault ≡ NoMemory };

    fn from(_: Memory) -> AcceptFault {
        AcceptFault::Memory
    }
}

/// The result of a send.
#[derive(Clone, Copy, PartialEq, Eq)]
pub enum Sending {
    /// No call is ready.
    Nothing,
    /// The frame of the call with this number was sent.
    Sent { seq: u32 },
    /// The link failed.
    Failed,
    /// Out of memory. The call stays ready.
    Memory,
}

/// The result of a drain.
#[derive(Clone, Copy, PartialEq, Eq)]
pub enum Drained {
    /// No call can advance.
    Done,
    /// The link failed.
    Failed,
    /// Out of memory for a frame. Earlier turns and sends are kept.
    Memory,
}
