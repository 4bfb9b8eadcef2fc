//! How events are stored: one record each, which names an entry of the chain by an operation.

use crate::happening::AcceptedCall;

/// An event as it is stored. It names an entry by the index, from 0, of the operation that set the entry's
/// policy.
pub enum HistoryRecord {
    /// A call was accepted.
    Took(AcceptedCall),
    /// A submission was rejected, since `MAX_CALLS` calls were pending.
    Away {
        method: u16,
        number: u32,
        addr: u64,
    },
    /// An operation, by its index.
    Op {
        step: usize,
    },
    /// The clock reads a timestamp, in milliseconds.
    Moment {
        ms: u64,
    },
    /// A call was charged; `level_in_trace` is the level afterwards.
    Charged {
        seq: u32,
        step: usize,
        level: u64,
    },
    /// A ticket of a quota was drawn for a call, in a window.
    Drawn {
        seq: u32,
        step: usize,
        window: u64,
        ticket: u64,
    },
    /// A call was counted.
    Counted {
        seq: u32,
        step: usize,
    },
    /// A policy of this version cleared fields of a call.
    Redacted {
        seq: u32,
        step: usize,
        version: u32,
    },
    /// A call's frame was sent; `bytes` is the length of its header and payload.
    Sent {
        seq: u32,
        bytes: u64,
    },
    /// A call was refused.
    Refused {
        seq: u32,
        by: RecordedCause,
    },
}

// By hand, so that each drop is one call, and not a drop of every field.
impl Drop for HistoryRecord {
    fn drop(self) {
        match self {
            HistoryRecord::Took(_a) => {}
            HistoryRecord::Away {
                method: _,
                number: _,
                addr: _,
            } => {}
            HistoryRecord::Op { step: _ } => {}
            HistoryRecord::Moment { ms: _ } => {}
            HistoryRecord::Charged {
                seq: _,
                step: _,
                level: _,
            } => {}
            HistoryRecord::Drawn {
                seq: _,
                step: _,
                window: _,
                ticket: _,
            } => {}
            HistoryRecord::Counted { seq: _, step: _ } => {}
            HistoryRecord::Redacted {
                seq: _,
                step: _,
                version: _,
            } => {}
            HistoryRecord::Sent { seq: _, bytes: _ } => {}
            HistoryRecord::Refused { seq: _, by: _by } => {}
        }
    }
}

/// Why a call was refused, as it is stored.
#[derive(Clone, Copy)]
pub enum RecordedCause {
    /// Its graph is malformed.
    Malformed,
    /// An access policy denied it, in this version, by the rule at an index; the number of rules means the default.
    Access {
        step: usize,
        version: u32,
        rule: u32,
    },
    /// The level of a rate policy's bucket was below the cost.
    Rate {
        step: usize,
        level: u64,
        cost: u64,
    },
    /// Its ticket wasn't below the cap of a quota.
    Quota {
        step: usize,
        ticket: u64,
        cap: u64,
    },
    /// The link failed.
    Transport,
}
