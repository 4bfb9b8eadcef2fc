//! The checker of audit texts, and the reader of the input of `audit`.
//!
//! [`read_audit_input`] reads the input up to the audit: a preamble, and declarations of tenants and policies. It
//! returns the first fault, and leaves the audit's own lines unread. `specs/Inputs.antt` defines inputs and their
//! faults: a text is exactly one input, or has exactly one first fault.
//!
//! [`check_audit`] reads an audit line by line (`specs/Checking.antt`). It judges each event by the rules of legal
//! histories, and the lines after them by which calls are pending and where they may be. It has one checker per
//! connection, so its time is linear in the text, however many calls are pending.
//!
//! The crate depends on `mrpc_table`, `script_grammar` and `policy_declarations`, on the lines of audit texts and on
//! the checker of one connection. The layer above prints the result.
#![tactic(auto)]

mod audit;
mod checked;
mod connections;
mod first_line;
mod happening_ref;
mod input;
mod input_laws;
mod laws;
mod listing;
mod progress;
mod stage;

pub use audit::check_audit;
pub use checked::Checked;
pub use input::{AuditInput, read_audit_input};
pub use input_laws::audit_input_or_fault;
pub use laws::check_is_deterministic;
