//! The commands `decode`, `check` and `audit` on the text of an input. Each writes its result, or the line of
//! the first fault.
//!
//! The crate uses the readers of tables, frames, messages, proto files and audits through their public
//! contracts. Each command is one function: [`decode_to`], [`check_to`] and [`audit_to`]. A law goes with
//! each: a text has one decoding ([`decoding_is_unique`]), one table ([`checked_table_is_unique`]) or one answer ([`audit_answer_is_unique`]),
//! or else one first fault, and never both.
#![tactic(auto)]

mod audit;
mod check;
mod decode;
mod decode_input;
mod decoding;
mod fault_line;
mod laws;
mod status;

pub use audit::{audit_answer_is_unique, audit_to};
pub use check::{FaultLocation, check_to, checked_table_is_unique};
pub use decode::{decode_to, decoding_is_unique};
pub use fault_line::write_fault;
pub use status::{
    DONE, FAULTY_INPUT, INPUT_FAILED, NO_COMMAND, NO_MEMORY, OUTPUT_FAILED, WIRE_FAILED,
};

// What dropping a value does is proved in each function that drops one. Through this function it is one call.
fn discard<T: Drop>(_value: T) {}
