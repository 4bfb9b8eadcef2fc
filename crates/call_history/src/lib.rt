//! Histories of calls: the events of a connection, the state that they lead to, which histories are legal, and
//! where calls are on the chain.
//!
//! A [`Happening`] is one event of a connection; a history is a list of them. `specs/Trace.antt` computes the state of
//! a connection from its events: the chain, the timestamp, the levels of buckets, the notes and the form of a call, and
//! the pending calls. `specs/Rules.antt` defines which event can come next, rule by rule, and `specs/Legal.antt` which
//! histories are legal. `specs/Clears.antt` has the policy versions that cleared fields of a call, `specs/Positions.antt`
//! the legal positions of calls, and `specs/Transitions.antt` the transitions of a connection. `specs/Draining.antt` defines
//! a drain, `specs/Loads.antt` which loads belong to the calls, `specs/Frames.antt` which frames were sent, and
//! `specs/Tickets.antt` which tickets were drawn.
//!
//! A [`History`] stores the events of one connection. A [`HistoryRecord`] names an entry by the operation that set its
//! policy, so the record of a turn allocates nothing (`specs/Records.antt`).
//!
//! The crate uses `engine_core` for what an entry answers to a call and how an operation changes a chain, and
//! `graph_form` for why a graph is malformed. The layers above use these definitions and the laws on them, and
//! nothing else.
#![tactic(auto)]

mod happening;
mod history;
mod laws;
mod record;
mod ties;

pub use happening::{AcceptedCall, Cause, ConnectionEvent, Happening, TookCopy};
pub use history::History;
pub use laws::{
    chain_after_event, clears_shorten, connections_are_independent, drains_settle, fate_is_unique,
    forms_after_event, frames_after_event, histories_after_event, levels_after_event, noted_once,
    notes_after_event, pending_after_event, pending_calls_have_forms, redacted_once, sent_in_order,
    transitions_are_deterministic, transitions_preserve_invariant,
};
pub use record::{HistoryRecord, RecordedCause};
pub use ties::ties_after_event;
