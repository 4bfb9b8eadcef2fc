//! In-memory links between threads: a [`MemFabric`] opens pairs of [`PairLink`]s and keeps them afterwards.
//!
//! Each direction of a pair is a queue of `spsc_queue` with room for 65535 pieces and an end sentinel, so two threads
//! may use the two ends. The crate uses `spsc_queue` for these queues, `atomic_table` for their identity in contracts,
//! `mrpc_base` for the traits, and `mrpc_table` for lists of bytes. Failures of openings, sends and receives can be
//! injected. The layer above uses one contract: what an end received is a prefix of what the other end sent, and all of
//! it after the end of the stream. [`meet`] states it for the two ends of a pair.
//!
//! The memory for both directions is allocated when a pair is opened.
#![tactic(auto)]

mod injected;
mod mem_fabric;
mod pair_link;

pub use mem_fabric::{InjectedFailures, MemFabric};
pub use pair_link::{PairLink, meet};
