//! Explains the fault of an input in lines for a person: its line and column, a sentence, the line itself,
//! and carets under what is at fault.
//!
//! [`explain_fault`] takes the input of a command and the line `fault ..` that the command wrote. It asks the
//! readers of the input for the location, and for the possible tokens or the fault there. The crate uses
//! these readers, `scenario_diagnostics` for scenarios, and `diagnostics`, whose contract describes a diagnostic.
//! Its one contract for the program: it prints a plain sentence, or points into the input with one
//! (`specs/Said.antt` of `diagnostics`). The sentences are tested.
#![tactic(auto)]

mod check;
mod commands;
mod expected;
mod fault_line;
mod frame_path;
mod frames;
mod limits;
mod line_forms;
mod line_reasons;
mod lines;
mod named;
mod run;
mod set;
mod violations;
mod word_at_fault;

pub use commands::{explain_fault, explain_usage};
