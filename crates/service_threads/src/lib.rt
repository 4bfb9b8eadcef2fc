//! The threads of a run, and the parts that they leave of its connections, reconciled.
//!
//! Three threads serve a bound connection: one runs its application, one writes its link, and workers visit the
//! connection itself. [`run_wired`] runs them for wired connections, to the end of each. What each thread leaves is
//! the end of a ring, of a heap or of a queue whose other end another thread had. After all threads were joined,
//! [`reconcile`] reconciles these ends. The crate depends on `service_wiring`, which defines what the threads get and
//! leave, on `service_loop` for connections, on `app_stub` for applications, and on `worker_pool` and `link_queue`.
//!
//! The layer above uses one contract, `HasServed`. The calls of the connection are those that its application
//! submitted, and the application did what its role defines. What its link gave was delivered, and its link was
//! handed the frames of the history, each up to where the link failed. The connection has ended exactly if the link
//! failed.
#![tactic(auto)]

mod joining;
mod reconciling;
mod running;
mod served;
mod threads;
mod workers;

pub use joining::{join_all, seats_join_again};
pub use reconciling::{ReconciledConnection, reconcile, reconcile_each};
pub use running::run_wired;
pub use served::BoundConn;
pub use threads::{ThreadResults, run_applications, run_threads, run_writers};
pub use workers::close_all;
