//! The exit statuses, which are those of `mrpc`.

/// The view of the input was written.
pub const DONE: u8 = 0;

/// The words name no view.
pub const NO_COMMAND: u8 = 1;

/// The input has a fault, which was written.
pub const FAULTY_INPUT: u8 = 2;

/// Out of memory.
pub const NO_MEMORY: u8 = 3;

/// The input could not be read.
pub const INPUT_FAILED: u8 = 4;

/// The output could not be written.
pub const OUTPUT_FAILED: u8 = 5;
