//! The exit status of a command.

/// The work is done.
pub const DONE: u8 = 0;

/// The words name no command.
pub const NO_COMMAND: u8 = 1;

/// The input has a fault, which was written.
pub const FAULTY_INPUT: u8 = 2;

/// Out of memory.
pub const NO_MEMORY: u8 = 3;

/// The input could not be read.
pub const INPUT_FAILED: u8 = 4;

/// The output could not be written.
pub const OUTPUT_FAILED: u8 = 5;

/// The frames could not be written.
pub const WIRE_FAILED: u8 = 6;
