//! The results of a turn.

use mrpc_table::Tree;
use receive_heap::Block;
use wire_decode::DecodeReason;

/// Why a frame is dropped. If several causes hold, the first in this order counts.
#[derive(Clone, Copy, PartialEq, Eq)]
pub enum DropCause {
    /// It is a hello, which has no meaning once a connection is open.
    Hello,
    /// The table has no method with its index.
    NoMethod,
    /// Its payload isn't a message of its method; this is the first fault in its bytes.
    Decode {
        reason: DecodeReason,
        /// The offset of the fault in the payload, from 0.
        place: usize,
    },
    /// The policy denies its call by the rule at an index; the number of rules means the default.
    Denied {
        rule: u32,
    },
    /// Its message needs more words than the heap has, not counting word 0.
    Oversize {
        /// The words that it needs; 2^64 - 1 means that many or more.
        need: u64,
        /// The size of the heap in words.
        words: u64,
    },
}

/// What became of the first frame of a stream.
#[derive(Drop)]
pub enum Arrival {
    /// No whole frame waits.
    None,
    /// Its message was placed in a block of the heap, where it stays until the block is reclaimed.
    Arrived {
        kind: u8,
        method: u16,
        number: u32,
        block: Block,
        tree: Tree,
    },
    /// It was dropped.
    Dropped {
        kind: u8,
        method: u16,
        number: u32,
        why: DropCause,
    },
    /// No hole of the heap is large enough for its message. It stays the first frame.
    Waiting {
        need: u64,
        /// The words of the largest hole, 0 if there is none.
        largest: u64,
    },
}
