//! The program `mrpc`: it hands the words of the command line, standard input, standard output, the file
//! `mrpc.wire`, links over TCP and the clock to the top call, and exits with the status that it returns.
//!
//! It uses `system_io` for the system's source, sinks and clock, `tcp_fabric` for the links, `link_counters` to
//! count their frames, `mrpc_top`, which does all the work, and `command_diagnostics`, which explains a faulty input on
//! standard error.
#![tactic(auto)]

mod accepted_calls;
mod command_line;
mod kept;
mod progress;
mod usage;

use command_diagnostics::{explain_fault, explain_usage};
use command_line::{ProgramOption, WordsFault, lone_option, words};
use kept::{KeptSink, KeptSource};
use link_counters::CountingFabric;
use mrpc_base::{Fabric, Sink, Source, write_all};
use mrpc_top::{
    DONE, FABRIC_FAILED, FAULTY_INPUT, LINK_FAILED, NO_COMMAND, NO_MEMORY, OUTPUT_FAILED,
    run_command,
};
use progress::RunProgress;
use std::alloc::Global;
use std::env::Env;
use std::io::{Eprint, IsTerminal};
use std::net::{Net, TcpListener, TcpStream};
use std::process::ExitCode;
use std::rt::Files;
use std::sync::Wait;
use std::thread::Threads;
use std::time::Clock;
use system_io::{FileSink, Lock, StandardInput, StandardOutput, SystemClock};
use tcp_fabric::{Loopback, SystemFault, TcpFabric};
use usage::{failure, usage};

const VERSION: &str = "mrpc 0.1.0\n";

// The most bytes of an input line that a diagnostic quotes.
const WIDTH: usize = 100;

// The message for a faulty input when the diagnostic is out of memory.
const SEE_FAULT: &str = "mrpc: the input has a fault, which the last line of the output names\n";

fn main(rt: HostRuntime) -> ExitCode {
    let mut error = StandardOutput::new(rt.stderr());
    let Ok(progress) = RunProgress::new(&rt, rt.alloc(), rt.stderr().is_terminal()) else {
        return ExitCode::from(say_status(rt.alloc(), NO_MEMORY, None, &mut error));
    };
    let mut input = KeptSource::new(rt.alloc(), StandardInput::new(rt.stdin()));
    let mut out = KeptSink::new(rt.alloc(), StandardOutput::new(rt.stdout()), &progress);
    ExitCode::from(exit_status(&rt, &mut input, &mut out, &mut error, &progress))
}

// Does what the command line asks for, prints how it ended, and returns its status.
fn exit_status<R, S: Source + Drop, K: Sink + Drop, E: Sink>(
    rt: &R,
    input: &mut KeptSource<S>,
    out: &mut KeptSink<'_, R, K>,
    error: &mut E,
    progress: &RunProgress<'_, R>,
) -> u8
where
    R: Threads + Wait + Sync + Clock + Files + Env + Eprint + AllocGlobal,
    R: Net<Stream = TcpStream, Listener = TcpListener>,
    R::File: Lock,
{
    match words(rt) {
        Ok(words) => status_of(rt, &words, input, out, error, progress),
        Err(WordsFault::NotText) => say_status(rt.alloc(), NO_COMMAND, None, error),
        Err(WordsFault::Memory) => say_status(rt.alloc(), NO_MEMORY, None, error),
    }
}

// Like `exit_status`, for these words.
fn status_of<R, S: Source + Drop, K: Sink + Drop, E: Sink>(
    rt: &R,
    words: &Vec<String>,
    input: &mut KeptSource<S>,
    out: &mut KeptSink<'_, R, K>,
    error: &mut E,
    progress: &RunProgress<'_, R>,
) -> u8
where
    R: Threads + Wait + Sync + Clock + Files + Eprint + AllocGlobal,
    R: Net<Stream = TcpStream, Listener = TcpListener>,
    R::File: Lock,
{
    if let Some(asked) = lone_option(words) {
        let status = answer(rt.alloc(), asked, out);
        return say_status(rt.alloc(), status, None, error);
    }
    let Ok(fault) = SystemFault::new(rt.alloc()) else {
        return say_status(rt.alloc(), NO_MEMORY, None, error);
    };
    let is_run = runs(words);
    if is_run {
        out.look_for_calls();
    }
    let status = run_words(rt, words, input, out, &fault, progress);
    progress.clear();
    say_end(rt.alloc(), words, status, input, out, error, progress);
    say_status(rt.alloc(), status, is_run.then_some(&fault), error)
}

// Prints the diagnostic of the input, or which words are no command, or the number of calls of a run.
fn say_end<R: Eprint + Clock, S: Source + Drop, K: Sink + Drop, E: Sink>(
    alloc: Global,
    words: &[String],
    status: u8,
    input: &KeptSource<S>,
    out: &KeptSink<'_, R, K>,
    error: &mut E,
    progress: &RunProgress<'_, R>,
) {
    match words.first() {
        Some(word) if status == FAULTY_INPUT => write_diagnostic(alloc, word, input, out, error),
        Some(_) if status == NO_COMMAND => say_words(alloc, words, error),
        Some(_) if status == DONE || status == LINK_FAILED => {
            if let Some(calls) = out.calls() {
                progress.close(calls);
            }
        }
        _ => {}
    }
}

// Whether the words name a run rather than a replay, given that they name a command that sends.
fn runs(words: &[String]) -> bool {
    match words.first() {
        Some(word) => word.as_str() != "replay",
        None => false,
    }
}

// Runs the command that the words name, with the file `mrpc.wire`, over links of 127.0.0.1, by the clock of
// the system, and returns its status. The system's first failure of a link is noted.
fn run_words<R, S: Source, K: Sink>(
    rt: &R,
    words: &Vec<String>,
    input: &mut S,
    out: &mut K,
    fault: &SystemFault,
    progress: &RunProgress<'_, R>,
) -> u8
where
    R: Threads + Wait + Sync + Clock + Files + Eprint + AllocGlobal,
    R: Net<Stream = TcpStream, Listener = TcpListener>,
    R::File: Lock,
{
    let Ok(noting) = fault.try_clone() else {
        return NO_MEMORY;
    };
    let fabric = TcpFabric::new(rt, rt.alloc(), Loopback::new(rt, noting));
    run_counted(rt, words, input, out, fabric, progress)
}

// Like `run_words`, over links of a fabric, whose frames are counted.
fn run_counted<R, S: Source, K: Sink, F: Fabric + Drop>(
    rt: &R,
    words: &Vec<String>,
    input: &mut S,
    out: &mut K,
    fabric: F,
    progress: &RunProgress<'_, R>,
) -> u8
where
    R: Threads + Wait + Sync + Clock + Files + Eprint + AllocGlobal,
    R::File: Lock,
{
    let Ok(tally) = progress.tally().try_clone() else {
        return NO_MEMORY;
    };
    let mut wire = FileSink::new(rt);
    let mut fabric = CountingFabric::new(fabric, tally);
    let clock = SystemClock::new(rt);
    run_command(
        rt,
        rt.alloc(),
        words,
        input,
        out,
        &mut wire,
        &mut fabric,
        &clock,
        progress,
    )
}

// Writes the diagnostic of the input to standard error. If it runs out of memory, writes where to look.
fn write_diagnostic<R, S: Source + Drop, K: Sink + Drop, E: Sink>(
    alloc: Global,
    word: &String,
    input: &KeptSource<S>,
    out: &KeptSink<'_, R, K>,
    error: &mut E,
) {
    if let Some(text) = input.kept() {
        if let Ok(lines) = explain_fault(alloc, word.as_bytes(), text, out.fault(), WIDTH) {
            write_all(error, lines.as_slice());
            return;
        }
    }
    write_all(error, SEE_FAULT.as_bytes());
}

// Writes to standard error which words are no command. Writes nothing if it runs out of memory.
fn say_words<E: Sink>(alloc: Global, words: &[String], error: &mut E) {
    if let Ok(line) = explain_usage(alloc, words) {
        write_all(error, line.as_slice());
    }
}

// Writes what the command line asks of the program itself, and returns the status.
fn answer<K: Sink>(alloc: Global, asked: ProgramOption, out: &mut K) -> u8 {
    let written = match asked {
        ProgramOption::Version => write_all(out, VERSION.as_bytes()),
        ProgramOption::Help => match usage(alloc) {
            Ok(text) => write_all(out, text.as_bytes()),
            Err(_) => return NO_MEMORY,
        },
    };
    if written { DONE } else { OUTPUT_FAILED }
}

// Writes to standard error why the command ended with this status: the usage text if the words are no
// command, and what failed if something did, with the system's words for the failure of a run's link. If a
// write fails, it writes no more. Returns the status.
fn say_status<K: Sink>(alloc: Global, status: u8, run: Option<&SystemFault>, error: &mut K) -> u8 {
    if status == NO_COMMAND {
        if let Ok(text) = usage(alloc) {
            write_all(error, text.as_bytes());
        }
    }
    if let Some(said) = failure(status, run.is_some()) {
        write_all(error, said.what.as_bytes());
        if status == LINK_FAILED || status == FABRIC_FAILED {
            say_refusal(alloc, run, error);
        }
        write_all(error, said.advice.as_bytes());
    }
    status
}

// Writes the system's words for the first failure of a link. Writes nothing if there is none, or if it runs
// out of memory.
fn say_refusal<K: Sink>(alloc: Global, run: Option<&SystemFault>, error: &mut K) {
    let Some(fault) = run else {
        return;
    };
    let Some(refusal) = fault.first() else {
        return;
    };
    if let Ok(words) = format!(in alloc; ": {refusal}") {
        write_all(error, words.as_bytes());
    }
}
