//! The tasks for the threads of a run, and what each thread leaves.
//!
//! [`wire`] splits a bound connection, its application and its link among three kinds of threads. It makes a
//! [`PooledConnection`], which a pool of workers visits, a [`AppTask`], which [`run_application`] runs, and the writer of the link.
//! [`scheduled_ops`] lists the operations scheduled for the connection's chain. When a connection gets no further visit,
//! [`PooledConnection::close`] closes its link and leaves a [`ClosedConnection`]. The crate depends on `service_loop` for connections, on
//! `app_stub` for applications, on `link_queue` and on `worker_pool`, and on `run_plan` for plans.
//!
//! The layer above uses two contracts. A wired connection is one record, `IsWired`. The connection is that of the
//! plan's application and has no events, and its rings, heaps and queue are those of the task and of the writer. What
//! a thread leaves belongs to what it got. The end of a task is what the application's role does (`IsEndOf`). A
//! connection is a later state of the one that was wired (`IsLaterEndpoint`), and finished unless it ran out of memory.
#![tactic(auto)]

mod applications;
mod closed_connection;
mod laws;
mod opened_port;
mod pooled_connection;
mod programs;
mod ring_ends;
mod run_context;
mod scheduling;
mod wiring;

pub use applications::{AppTask, run_application};
pub use closed_connection::ClosedConnection;
pub use laws::since_is_transitive;
pub use pooled_connection::PooledConnection;
pub use run_context::RunContext;
pub use scheduling::scheduled_ops;
pub use wiring::{MAX_QUEUED_FRAMES, MAX_RECEIVE_BYTES, WiredConnection, wire};
