//! A run of a plan over the links of a fabric.
//!
//! [`prepare`] makes what a run needs before it starts. [`serve`] opens the link of each pair of connections and
//! makes the handshake at both ends. It then serves each bound connection to its end, with its application, its
//! writer, and workers that visit it among others. The crate depends on `link_handshake` for the handshake, on
//! `service_wiring` for the tasks of the threads, on `service_threads` for the threads and what they leave, and on
//! `tenant_quota` for seats.
//!
//! The layer above uses one contract: for each connection of the plan, in the order of its links, [`serve`] returns
//! what a run did on it (`WasServed`). Either the connection wasn't bound, for the cause that its link shows, or it
//! was bound and served from its hello on. Each two results in a row have the ends of one link. Over all results the
//! tickets of a tenant's window are 0, 1, 2 and so on, each once, if they are fewer than 2^64.
#![tactic(auto)]

mod concluding;
mod fault;
mod handshake;
mod pairs;
mod prepared_run;
mod quotas;
mod served;
mod serving;
mod starting;

pub use fault::ServeFault;
pub use prepared_run::{PreparedRun, prepare};
pub use served::{ConnectionOutcome, Served, ServedConn};
pub use serving::serve;
