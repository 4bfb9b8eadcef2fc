//! The audit lines of a connection: of its events and of its pending calls (this project's own format).
//!
//! `specs/Pending.antt` defines the line of a pending call: the position of the chain, the engine whose queue has the
//! call, and the level and cost at which it is held. The crate depends on connections and on the audit text. Its one
//! contract for the layers above: what is appended for an event or a call is its line.
#![tactic(auto)]

mod event;
mod pending;

pub use event::append_event;
pub use pending::append_pending;
