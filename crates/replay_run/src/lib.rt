//! Replay of scripts: the history of a script's connections, the loads of their calls, and the positions of pending
//! calls.
//!
//! `specs/Follows.antt` defines what follows from a script, one step per line. `specs/Tickets.antt` defines which
//! tickets quotas draw, and `specs/Consistency.antt` the properties of each connection after any line. `specs/Running.antt`
//! defines what a run of a script writes, with `specs/PendingLines.antt` for the pending calls. The crate depends on scripts,
//! on histories, and on the audit text. The layers above use the laws of what follows.
#![tactic(auto)]

mod audit_lines;
mod connection;
mod laws;
mod operations;
mod pending_lines;
mod replay_error;
mod run_law;
mod script_lines;
mod submission;
mod turns_and_sends;

pub use laws::{drained_connection_is_settled, replay_is_deterministic, replay_is_legal};
pub use replay_error::ReplayError;
pub use script_lines::run_script;
