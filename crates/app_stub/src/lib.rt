//! Applications on a port of the service. A client executes the lines of its program, a server executes them for
//! each delivered request, and an echo replies to each request with the request's own message.
//!
//! An application is a thread that shares only its [`AppPort`] with the service. That has the writer of its heap, the
//! reader of its receive heap, the ends of four rings, and the stop flag of the run. It waits while a ring is full or
//! empty, and checks the flag each time. Clients and servers never allocate; an echo allocates only to copy and to
//! place. The crate uses `shared_heap` and `descriptor_ring`, for echoes `stable_copy` and `graph_place`, and what
//! these use.
//!
//! The layer above may rely on this: an [`AppEnd`] belongs to the heaps and rings of its port. Unless the run was
//! stopped, it has the final state of its two senders. Its stores, its calls, each after the stores before it,
//! and its reclaimed blocks are those of its program and its notices; for an echo, those of its notices and its
//! copies. No guarantee of the service depends on this, since any thread may use a port.
#![tactic(auto)]

mod clients;
mod echo_error;
mod echoes;
mod lines;
mod port;
mod receivers;
mod senders;
mod servers;
mod slices;
mod waiting;

pub use clients::client;
pub use echoes::echo;
pub use port::{AppEnd, AppPort, AppSent};
pub use servers::server;
pub use slices::slices_suffice;
