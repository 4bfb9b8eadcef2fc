//! The system's readers, writers, files and clock, as a source, as sinks and as a clock.
//!
//! This crate implements traits of `mrpc_base`. Its types are generic over the system's objects: which bytes the system
//! really moves is trusted. Over objects that reveal their bytes, the contracts state which bytes move. The layer above
//! uses the contracts of the traits: a read gives the next bytes, a write appends, and each failure is counted.
#![tactic(auto)]

mod file_sink;
mod locking;
mod reading;
mod standard_input;
mod standard_output;
mod system_clock;
mod writing;

pub use file_sink::FileSink;
pub use locking::Lock;
pub use standard_input::StandardInput;
pub use standard_output::StandardOutput;
pub use system_clock::SystemClock;
