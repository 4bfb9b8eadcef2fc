//! A bounded queue from one thread to another, whose contracts relate what was pushed to what was popped.
//!
//! [`open`] makes a queue and its two ends: a [`Producer`], which pushes items, and a [`Consumer`], which pops
//! them. Neither takes a lock. The consumer announces what it popped, so the producer knows of free slots, and
//! can keep some of them for items that must never wait. A queue of [`Piece`]s carries bytes with sentinels
//! between them, and a [`PieceReader`] reads them into buffers. [`ByteTrace`] is a ghost list of delivered bytes
//! for contracts.
//!
//! The crate uses the ruled array queue of `crossbeam_queue`, `mrpc_table`, and `polling` to wait for room. The
//! layer above uses one contract: what was popped is a prefix of what was pushed, in order and each item once, as
//! [`meet`] states for the two ends of one queue. If a consumer finds the queue empty, it has popped every item
//! that it knew to be pushed.
#![tactic(auto)]

mod byte_trace;
mod consumer;
mod credit;
mod piece;
mod piece_reader;
mod producer;
mod queue;
mod side;

pub use byte_trace::ByteTrace;
pub use consumer::Consumer;
pub use piece::{Piece, ReadResult};
pub use piece_reader::PieceReader;
pub use producer::Producer;
pub use queue::{meet, open};
