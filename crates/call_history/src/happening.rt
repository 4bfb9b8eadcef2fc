//! The events of a connection.

use engine_core::Op;
use graph_form::Reason;
use mrpc_table::{Name, Tree};

/// The service's copy of a call's arguments.
#[derive(Drop)]
pub enum TookCopy {
    /// A private copy.
    Copy {
        tree: Tree,
    },
    /// The graph is malformed: the reason, and the place and value of the last word loaded, if any was.
    Malformed {
        reason: Reason,
        place: u64,
        value: u64,
    },
}

/// A call that was accepted.
#[derive(Drop)]
pub struct AcceptedCall {
    /// The number of the call among those accepted on its connection, from 1.
    pub seq: u32,
    /// The index of its method in the table.
    pub method: u16,
    /// 0 for a request; for a reply, the number of the request that it answers.
    pub number: u32,
    /// The address of its message in the heap.
    pub addr: u64,
    /// How many stores were made on that heap before the submission.
    pub after: u64,
    /// How many words were loaded to copy it.
    pub count: u64,
    pub copy: TookCopy,
}

/// Why a call was refused.
#[derive(Drop)]
pub enum Cause {
    /// Its graph is malformed.
    Malformed,
    /// An access policy denied it: the name and the version of its entry, and the name of the rule.
    Access {
        name: Name,
        version: u32,
        rule: Name,
    },
    /// The level of a rate policy's bucket was below the cost.
    Rate {
        name: Name,
        level: u64,
        cost: u64,
    },
    /// Its ticket wasn't below the cap of a quota.
    Quota {
        name: Name,
        ticket: u64,
        cap: u64,
    },
    /// The link failed.
    Transport,
}

/// An event of a connection. It names a call by its number there, and an entry of the chain by its name.
#[derive(Drop)]
pub enum Happening {
    /// A call was accepted.
    Took(AcceptedCall),
    /// A submission was rejected, since `MAX_CALLS` calls were pending.
    Away {
        method: u16,
        number: u32,
        addr: u64,
    },
    /// An operator changed the chain.
    Op(Op),
    /// The clock of the connection reads a timestamp, in milliseconds.
    Moment {
        ms: u64,
    },
    /// A rate policy charged a call; `level_in_trace` is the level afterwards.
    Charged {
        seq: u32,
        name: Name,
        level: u64,
    },
    /// A ticket of a quota was drawn for a call, in a window.
    Drawn {
        seq: u32,
        name: Name,
        window: u64,
        ticket: u64,
    },
    /// A metering policy counted a call.
    Counted {
        seq: u32,
        name: Name,
    },
    /// A redacting policy of this version cleared fields from a call.
    Redacted {
        seq: u32,
        name: Name,
        version: u32,
    },
    /// A call's frame was sent; `bytes` is the length of its header and payload.
    Sent {
        seq: u32,
        bytes: u64,
    },
    /// A call was refused. It is never sent.
    Refused {
        seq: u32,
        cause: Cause,
    },
}

/// An event with its connection.
#[derive(Drop)]
pub struct ConnectionEvent {
    /// The number of the connection.
    pub conn: u32,
    pub what: Happening,
}
