//! The running service of one connection, round by round: takes, judges and sends the calls of its application while
//! operators change its chain, and delivers what its link gives.
//!
//! An [`Endpoint`] holds all that belongs to one connection. Its round consists of a round of its [`Submissions`],
//! which take calls from the application's ring, and a round of its [`Deliveries`], which handle frames and reclaim
//! blocks. A visit makes as many rounds as the order of connections grants, and counts them in the connection's
//! [`VisitAccount`], if it has one. It shares nothing with other threads but heaps and rings, has no lock, and any loop may
//! drive it. The crate depends on `conn_core`, `message_delivery`, `shared_heap` and `descriptor_ring`.
//!
//! The layers above use one contract: the invariant of `specs/Rounds.antt` holds between rounds, and each later state
//! of a connection has advanced from the earlier one. At every such point:
//! - The history is legal. Its loads are those of the reader, and fresh.
//! - Its calls are those of the ring, in order: all of them or, if the connection has ended, a prefix.
//! - Operators' operations were applied where they were due, and each timestamp is the clock's.
//! - The link was handed the frames of the history. Each arrival line is the fate of a frame that the link gave.
#![tactic(auto)]

mod delivering;
mod endpoint;
mod round_outcome;
mod scheduled_op;
mod submissions;
mod visit_account;
mod visit_summary;

pub use delivering::{Deliveries, NoticeRings};
pub use endpoint::Endpoint;
pub use round_outcome::RoundOutcome;
pub use scheduled_op::ScheduledOp;
pub use submissions::Submissions;
pub use visit_account::VisitAccount;
pub use visit_summary::{VisitOutcome, VisitSummary};
