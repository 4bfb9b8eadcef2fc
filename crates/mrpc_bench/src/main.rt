//! The program of the benchmarks: the first word names a part, and the words after it are the part's own.
//!
//!     mrpc_bench apps COUNT                           calls of a client that an echo answers       bench/apps
//!     mrpc_bench conn steps|calls|again CALLS ROUNDS  work on a connection                         bench/conn
//!     mrpc_bench drill COUNT                          a drill that is run over links in memory     bench/run
//!     mrpc_bench links COUNT                          frames through a link with a writer          bench/links
//!     mrpc_bench ring COUNT                           descriptors through a ring                   bench/ring
//!     mrpc_bench scenario plan|toml                   a scenario that is read                      bench/scenario
//!     mrpc_bench serve                                a scenario that is run over links in memory  bench/run
//!     mrpc_bench upgrade COUNT                        upgrades while calls are pending             bench/latency
//!
//! The program uses the crates that it measures, and `bench_apps`. The head of each part describes what it
//! does, prints and measures. If the words have another form, or it runs out of memory, the program prints
//! nothing and ends with status 1.
#![tactic(auto)]

mod apps;
mod conn;
mod drill_in_memory;
mod given;
mod lines;
mod links;
mod ring;
mod scenarios;
mod serve;
mod upgrade;

use given::named;
use mrpc_table::Bytes;
use std::alloc::Global;
use std::env::Env;
use std::io::{Read, Write};
use std::process::ExitCode;
use std::sync::Wait;
use std::thread::Threads;
use std::time::Clock;
use std::{env, io};

fn main(rt: HostRuntime) -> io::Result<ExitCode> {
    let words = words_of(&rt)?;
    let told = part_output(&rt, rt.alloc(), &words, &mut rt.stdin());
    discard(words);
    print(&mut rt.stdout(), told)
}

// The words of the command line.
fn words_of<R: Env + AllocGlobal>(rt: &R) -> io::Result<Vec<String>> {
    let mut words = Vec::new(rt.alloc());
    for word in env::args(rt)? {
        words.push(word)?;
    }
    Ok(words)
}

// Writes what a part returned, if anything, and returns the status.
fn print<W: Write>(out: &mut W, told: Option<Vec<Bytes>>) -> io::Result<ExitCode> {
    let Some(texts) = told else {
        return Ok(ExitCode::FAILURE);
    };
    for text in &texts {
        out.write_all(text.as_slice())?;
    }
    Ok(ExitCode::SUCCESS)
}

// The parts.
#[derive(Clone, Copy)]
enum BenchPart {
    Apps,
    Conn,
    Drill,
    Links,
    Ring,
    Scenario,
    Serve,
    Upgrade,
}

const PARTS: [(&str, BenchPart); 8] = [
    ("apps", BenchPart::Apps),
    ("conn", BenchPart::Conn),
    ("drill", BenchPart::Drill),
    ("links", BenchPart::Links),
    ("ring", BenchPart::Ring),
    ("scenario", BenchPart::Scenario),
    ("serve", BenchPart::Serve),
    ("upgrade", BenchPart::Upgrade),
];

// The texts that the part named by the words prints, in order; `None` if the words name no part.
fn part_output<R, I: Read>(
    rt: &R,
    alloc: Global,
    words: &[String],
    input: &mut I,
) -> Option<Vec<Bytes>>
where
    R: Threads + Wait + Sync + Clock,
{
    let [_program, part, behind @ ..] = words else {
        return None;
    };
    match named(&PARTS, part.as_str())? {
        BenchPart::Apps => alone(alloc, apps::output(rt, alloc, behind)),
        BenchPart::Conn => alone(alloc, conn::output(alloc, behind)),
        BenchPart::Drill => alone(alloc, drill_in_memory::output(rt, alloc, behind)),
        BenchPart::Links => alone(alloc, links::output(rt, alloc, behind)),
        BenchPart::Ring => alone(alloc, ring::output(rt, alloc, behind)),
        BenchPart::Scenario => alone(alloc, scenarios::output(alloc, behind, input)),
        BenchPart::Serve => serve::output(rt, alloc, behind, input),
        BenchPart::Upgrade => alone(alloc, upgrade::output(rt, alloc, behind)),
    }
}

// The text alone, if there is one.
fn alone(alloc: Global, text: Option<Bytes>) -> Option<Vec<Bytes>> {
    let mut texts = Vec::new(alloc);
    texts.push(text?).ok()?;
    Some(texts)
}

// Values are moved in here to be dropped: what dropping a value does is proved in each function that drops
// one. Through this function it is one call.
pub(crate) fn discard<T: Drop>(_value: T) {}
