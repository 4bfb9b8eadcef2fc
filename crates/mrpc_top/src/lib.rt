//! The top call of mRPC: it takes the words of a command line, an input, an output, a wire, a fabric of
//! links, a clock and a gate, and returns an exit status.
//!
//! The crate uses all crates below it, through their public contracts. Its one contract for the program is
//! that of [`run_command`]:
//!
//! - `replay`: at status 0 a history follows the script that was read, and its audit, the pending calls and
//!   its frames were written. By [`replay_is_unique`] the history is legal and spelled by its loads.
//! - `decode`: at status 0 a line was written for each frame, with the encoding of the message that its
//!   payload means.
//! - `check`: at status 0 the table's text was written, for the proto file or the set of files that was read.
//! - `audit`: at status 0 it was written whether the history of the audit that was read is legal.
//! - `run` and `drill N`: at status 0 or 6 the plan that was read, or that of the drill, was run, and its
//!   report was written.
//!
//! For an input that has a fault, the first fault is written. [`run_still`] runs the commands that run no
//! connections; those that need only a text are in `text_commands`.
#![tactic(auto)]

mod command;
mod replay;
mod run;
mod top;

pub use command::run_still;
pub use replay::replay_is_unique;
pub use run::{FABRIC_FAILED, LINK_FAILED};
pub use text_commands::{
    DONE, FAULTY_INPUT, FaultLocation, INPUT_FAILED, NO_COMMAND, NO_MEMORY, OUTPUT_FAILED,
    WIRE_FAILED, audit_answer_is_unique, checked_table_is_unique, decoding_is_unique,
};
pub use top::run_command;

// What dropping a value does is proved in each function that drops one. Through this function it is one call.
fn discard<T: Drop>(_value: T) {}
