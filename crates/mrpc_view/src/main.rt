//! The program `mrpc-view`: it hands the words of the command line, standard input, standard output and
//! standard error to the top call, and exits with the status that it returns.
//!
//! It uses `system_io` for the system's source and sinks, and `view_top`, which does all the work.
#![tactic(auto)]

mod command_line;
mod usage;

use command_line::{ProgramOption, WordsFault, lone_option, words};
use mrpc_base::{Sink, Source, write_all};
use std::alloc::Global;
use std::env::Env;
use std::process::ExitCode;
use system_io::{StandardInput, StandardOutput};
use usage::{failure, usage};
use view_top::{DONE, NO_COMMAND, NO_MEMORY, OUTPUT_FAILED, run_view};

const VERSION: &str = "mrpc-view 0.1.0\n";

fn main(rt: HostRuntime) -> ExitCode {
    let mut input = StandardInput::new(rt.stdin());
    let mut out = StandardOutput::new(rt.stdout());
    let mut error = StandardOutput::new(rt.stderr());
    let status = exit_status(&rt, &mut input, &mut out, &mut error);
    say_status(rt.alloc(), status, &mut error);
    ExitCode::from(status)
}

// Does what the command line asks for, and returns its status.
fn exit_status<R, S: Source, K: Sink, E: Sink>(
    rt: &R,
    input: &mut S,
    out: &mut K,
    error: &mut E,
) -> u8
where
    R: Env + AllocGlobal,
{
    let words = match words(rt) {
        Ok(words) => words,
        Err(WordsFault::NotText) => return NO_COMMAND,
        Err(WordsFault::Memory) => return NO_MEMORY,
    };
    if let Some(asked) = lone_option(&words) {
        return answer(rt.alloc(), asked, out);
    }
    let status = run_view(rt.alloc(), &words, input, out, error);
    if status == NO_COMMAND && !words.is_empty() {
        write_all(error, b"mrpc-view: there is no such view\n");
    }
    status
}

// Writes what the command line asks of the program itself, and returns the status.
fn answer<K: Sink>(alloc: Global, asked: ProgramOption, out: &mut K) -> u8 {
    let written = match asked {
        ProgramOption::Version => write_all(out, VERSION.as_bytes()),
        ProgramOption::Help => match usage(alloc) {
            Ok(text) => write_all(out, text.as_bytes()),
            Err(_) => return NO_MEMORY,
        },
    };
    if written { DONE } else { OUTPUT_FAILED }
}

// Writes to standard error why the view ended with this status: the usage text if the words are no view, and
// what failed if something did. If a write fails, it writes no more.
fn say_status<K: Sink>(alloc: Global, status: u8, error: &mut K) {
    if status == NO_COMMAND {
        if let Ok(text) = usage(alloc) {
            write_all(error, text.as_bytes());
        }
    }
    if let Some(text) = failure(status) {
        write_all(error, text.as_bytes());
    }
}
