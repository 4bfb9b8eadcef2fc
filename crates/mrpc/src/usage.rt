//! What the program prints on standard error.

use clap::Command;
use mrpc_top::{FABRIC_FAILED, INPUT_FAILED, NO_COMMAND, NO_MEMORY, OUTPUT_FAILED, WIRE_FAILED};
use std::alloc::{AllocError, Global};

const USAGE: &str = "mrpc [COMMAND | --help | --version]";

const BEHIND: &str = "\
Options:
  --help     Print this text
  --version  Print the version

Input is standard input; the launcher ./mrpc also takes a file behind a command:
  mrpc replay < examples/one-call.replay
  mrpc decode < examples/pets.decode
  mrpc check < examples/address-book.proto
  mrpc audit < examples/late-write-audited.audit
  mrpc run < examples/scenarios/first-run.toml
  mrpc drill 64

Exit status:
  0  the work is done
  1  the command line is none of these
  2  the input has a fault, which the last line of the output names
  3  out of memory
  4  standard input could not be read
  5  standard output could not be written
  6  the file mrpc.wire could not be written, or a link of a run failed
  7  a link of a run could not be opened";

// The commands, with what each does.
const COMMANDS: [(&str, &str); 6] = [
    (
        "replay",
        "Plays a script; writes its audit, and its frames into mrpc.wire",
    ),
    (
        "decode",
        "Reads a table and frames; writes what each frame means",
    ),
    (
        "check",
        "Reads a proto file, or a set of them; writes its table",
    ),
    (
        "audit",
        "Reads an audit; writes whether its history is legal",
    ),
    (
        "run",
        "Runs a scenario in threads; writes what became of its calls",
    ),
    (
        "drill N",
        "Runs 4 clients of N calls each, N from 1 to 2048; writes counts",
    ),
];

// The usage text of the program, with an example of each command, and the exit statuses. It fits a screen.
pub(crate) fn usage(alloc: Global) -> Result<String, AllocError> {
    let mut program = Command::new(alloc, "mrpc")
        .override_usage(USAGE)
        .disable_help_subcommand(true)
        .disable_help_flag(true)
        .after_help(BEHIND);
    for (name, about) in COMMANDS {
        program = program.subcommand(Command::new(alloc, name).about(about))?;
    }
    program.render_help()
}

// What failed, and what to do about it; the system's words, if there are any, go between.
#[derive(Clone, Copy)]
pub(crate) struct FailureMessage {
    pub what: &'static str,
    pub advice: &'static str,
}

// What failed, in a run or in another command, for the statuses that report a failure.
pub(crate) fn failure(status: u8, is_run: bool) -> Option<FailureMessage> {
    let (what, advice) = match status {
        NO_COMMAND => (
            "mrpc: give one of these commands alone",
            ", and its input as in the examples\n",
        ),
        NO_MEMORY => (
            "mrpc: out of memory",
            "; let the program have more (ulimit -v), or give a smaller input\n",
        ),
        INPUT_FAILED => (
            "mrpc: standard input could not be read",
            "; give a file or a pipe, as in: mrpc replay < FILE\n",
        ),
        OUTPUT_FAILED => (
            "mrpc: standard output could not be written",
            "; see that there is room, and that its reader goes on\n",
        ),
        WIRE_FAILED if is_run => (
            "mrpc: a link of the run failed",
            "; what the run came to was written: look there, or run it again\n",
        ),
        WIRE_FAILED => (
            "mrpc: the file mrpc.wire could not be written",
            "; see that this folder may be written and has room, and that no other replay runs in it\n",
        ),
        FABRIC_FAILED => (
            "mrpc: a link of the run could not be opened",
            "; see that 127.0.0.1 can be reached, and that enough files may be open (ulimit -n)\n",
        ),
        _ => return None,
    };
    Some(FailureMessage { what, advice })
}
