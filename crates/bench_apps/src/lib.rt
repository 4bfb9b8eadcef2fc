//! A client, an echo, and a plain service between them, in a thread each, for the benchmarks that time calls.
//!
//! The client stores messages of one number in its heap and submits a call for each. The service copies the
//! descriptors of calls to notices, takes the echo's replies, and sends notices of them to the client
//! (`plain_service.rt`). The crate uses `app_stub` for the client and the echo, and the rings and heaps that
//! ports are made of. Its one contract for the layer above: what [`call`] requires. No clause describes how
//! the threads interact: `bench/apps` compares the results with the output of another program.
#![tactic(auto)]

mod calling;
mod plain_service;
mod taking;
mod wiring;

pub use calling::{MAX_CALLS, call};
pub use taking::TakenCalls;

// Values are moved in here to be dropped: what dropping a value does is proved in each function that drops
// one. Through this function it is one call.
pub(crate) fn discard<T: Drop>(_value: T) {}
