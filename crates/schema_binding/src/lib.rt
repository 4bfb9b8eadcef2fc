//! The handshake's contents: the hello of each side, and whether the schemas of both sides agree.
//!
//! [`hello`] writes the frame that opens a connection, with the service and the table of its sender, and [`on_hello`]
//! reads its payload. [`agree`] compares two tables on a service, under the version of the peer's hello. This crate
//! depends on `mrpc_table` for tables, on `table_text`, which writes and reads their text, on `frame_transport` for the
//! frame, and on `thiserror` for its faults. The layers above use two contracts. A payload is read to its service and
//! table, or to its first line at fault. Two tables agree on a service, or there is exactly one first difference.
#![tactic(auto)]

mod agreement;
mod compare;
mod fault;
mod hello_form;
mod laws;
mod methods;
mod reach;

pub use agreement::{Agreed, agree};
pub use fault::{AgreeFault, HelloFault};
pub use hello_form::{hello, on_hello};
pub use laws::{agreement_is_decided, hello_is_unique};
