//! The report of a run (this project's own format).
//!
//! [`run_text`] returns the whole text for a run's connections, and the counts of its lines. [`run_counts`] returns
//! these counts and makes no text. The text of a bound connection has its events, its arrivals, its false reclaims,
//! the remainder of its stream, and its pending calls, in this order. That of any other connection has the cause why
//! it wasn't bound. Events and arrivals, which are long, are made in parallel for all connections, and so are the
//! counts of their lines. The text comes in parts: one for each connection, then one of the accounts of visits and of
//! the counts of all lines.
//!
//! `specs/Report.antt` defines the whole text, `specs/ConnectionReport.antt` the parts of a connection's text,
//! `specs/Lines.antt` the lines, and `specs/Counting.antt` what each line counts as. The crate depends on connections,
//! on `message_delivery` and the handshake for what it reports, on the encoding of messages, on `telemetry`, and on the
//! lines of `audit_text` and `connection_audit`. The layers above use one contract: the text is that of the connections
//! that the run left.
#![tactic(auto)]

mod arrival_laws;
mod arrival_lines;
mod arrivals;
mod connection;
mod counting;
mod prefixes;
mod report;
mod reported_connection;
mod stream_remainder;
mod unbound;
mod unfinished;

pub use arrival_laws::lines_are_writable;
pub use arrival_lines::{append_arrivals, append_false_reclaims};
pub use arrivals::{Judge, append_arrival};
pub use connection::{append_history, append_pending_calls};
pub use report::{RunText, run_counts, run_text};
pub use reported_connection::{ReportedConnection, Rounds, ServedReport};
pub use stream_remainder::append_stream_remainder;
pub use unbound::append_unbound;
pub use unfinished::{append_cut, append_not_held, append_short, append_waits};
