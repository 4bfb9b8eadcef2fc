//! A connection: it accepts calls, judges them by its chain of policies while operators change the chain, and
//! sends them.
//!
//! One thread owns a [`Conn`]. It copies a call's arguments once into private memory, keeps the pending calls on the
//! chain, and records every event. Each of its methods makes transitions in the sense of `call_history`'s relation
//! `Comes`: none, one or many, as the clauses state. `specs/Connections.antt` defines what contracts see of a
//! connection and its invariant; `specs/ConnectionSteps.antt` what the results of its methods mean.
//!
//! The crate uses the chain (`chain_upgrade`), histories (`call_history`), the bounded reader (`graph_copy`) and the
//! encoder (`wire_encode`). The layers above rely on one contract: the history of a connection is legal, and the frames
//! that its methods send on a link are those that they add to the history.
#![tactic(auto)]

mod answers;
mod changing;
mod conn;
mod copying;
mod draining;
mod laws;
mod noting;
mod sending;

pub use answers::{AcceptFault, Ask, Drained, Sending};
pub use conn::Conn;
pub use laws::loads_after_transition;
