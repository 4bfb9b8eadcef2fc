//! Programs of applications, as data. A client executes the lines of its program once, a server once for each
//! delivered request. The definitions give what a program stores, submits and reclaims, in order, and which
//! programs a client and a server may have for a heap of a given size.
//!
//! The crate has types and definitions alone, and uses `mrpc_table`. Readers of programs accept only what the
//! definitions allow, as plans guarantee, and the applications that execute a program follow the same
//! definitions.
#![tactic(auto)]

mod program;

pub use program::{MAX_LINES, MAX_REQUEST_STORES, MAX_STORES, Program, ProgramLine};
