//! What the program prints on standard error.

use clap::Command;
use std::alloc::{AllocError, Global};
use view_top::{INPUT_FAILED, NO_MEMORY, OUTPUT_FAILED};

const USAGE: &str = "mrpc-view [VIEW | --help | --version]";

const BEHIND: &str = "\
Options:
  --help     Print this text
  --version  Print the version

Exit status:
  0  the input was shown
  1  the command line is none of these
  2  the input has a fault, which the last line of the output names
  3  out of memory
  4  standard input could not be read
  5  standard output could not be written";

// The usage text of the program, with its views and exit statuses.
pub(crate) fn usage(alloc: Global) -> Result<String, AllocError> {
    let frames = Command::new(alloc, "frames").about(
        "Reads a table and frames, and writes each frame with its message in the text format of Protocol Buffers",
    );
    let script = Command::new(alloc, "script").about(
        "Reads a table and frames, and writes a script whose replay sends these frames",
    );
    let timeline = Command::new(alloc, "timeline").about(
        "Reads what a replay or a run wrote, or an audit, and draws it as an SVG",
    );
    let mut program = Command::new(alloc, "mrpc-view")
        .override_usage(USAGE)
        .disable_help_subcommand(true)
        .disable_help_flag(true)
        .after_help(BEHIND)
        .subcommand(frames)?
        .subcommand(script)?
        .subcommand(timeline)?;
    program.render_help()
}

// What failed, for the statuses that report a failure.
pub(crate) fn failure(status: u8) -> Option<&'static str> {
    match status {
        NO_MEMORY => Some("mrpc-view: out of memory\n"),
        INPUT_FAILED => Some("mrpc-view: standard input could not be read\n"),
        OUTPUT_FAILED => Some("mrpc-view: standard output could not be written\n"),
        _ => None,
    }
}
