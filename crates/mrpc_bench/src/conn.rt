//! Works on a connection in one of three ways, and prints the number of events and of frames. `bench/conn`
//! counts its instructions.
//!
//!     mrpc_bench conn steps|calls|again CALLS ROUNDS
//!
//! The chain has four access policies of three rules, a rate and a count policy; a message has ten fields.
//! `steps` brings CALLS calls, 1 to 64, to the end of the chain, and in each round attaches a policy in the
//! middle, upgrades it, and detaches it. `again` brings them there too, and in each round upgrades the first
//! policy and has all of them judged again. `calls` accepts CALLS calls in each round, has them judged, and
//! sends them.
//!
//! It measures `conn_core`. It ends with status 1 if the words have another form, a number overflows, or it
//! runs out of memory.

ghost use Rattle.mrpc_table.specs.Valid.{IsValid};

pub(crate) mod work;

use crate::given::{named, table_of};
use crate::lines::line_of;
use mrpc_table::{Bytes, Table};
use std::alloc::Global;
use work::{TABLE, Work};

// What a round does.
#[derive(Clone, Copy)]
enum Round {
    Steps,
    Calls,
    Again,
}

// The task that the words of the command line name.
#[derive(Clone, Copy)]
struct Task {
    round: Round,
    calls: u32,
    rounds: u32,
}

// The counts at the end.
#[derive(Clone, Copy)]
struct TaskCounts {
    happenings: usize,
    frames: usize,
}

// Does what the words ask for, and returns what to print.
pub(crate) fn output(alloc: Global, words: &[String]) -> Option<Bytes> {
    let TaskCounts { happenings, frames } = carry_out(alloc, asked(words)?)?;
    line_of(alloc, &[happenings as u64, frames as u64])
}

const ROUNDS: [(&str, Round); 3] = [
    ("steps", Round::Steps),
    ("calls", Round::Calls),
    ("again", Round::Again),
];

fn task_of(round: &str, calls: &str, rounds: &str) -> Option<Task> {
    Some(Task {
        round: named(&ROUNDS, round)?,
        calls: calls.parse().ok()?,
        rounds: rounds.parse().ok()?,
    })
}

// The task that the words name; `None` if they have another form.
fn asked(words: &[String]) -> Option<Task> {
    match words {
        [round, calls, rounds, ..] => task_of(round.as_str(), calls.as_str(), rounds.as_str()),
        _ => None,
    }
}

// The result of a task; `None` if it runs out of memory or a number overflows.
fn carry_out(alloc: Global, task: Task) -> Option<TaskCounts> {
    let table = table_of(alloc, TABLE)?;
    carry_out_on(alloc, &table, task)
}

fn carry_out_on(alloc: Global, table: &Table, task: Task) -> Option<TaskCounts>
    requires { IsValid table.now }
{
    let mut work = Work::open(alloc, table)?;
    do_all(&mut work, task)?;
    Some(TaskCounts {
        happenings: work.happenings(),
        frames: work.frames(),
    })
}

fn do_all(work: &mut Work, task: Task) -> Option<()> {
    work.attach_all()?;
    prepare(work, task)?;
    for _ in 0..task.rounds {
        one_round(work, task)?;
    }
    Some(())
}

// Brings the calls to the end of the chain, unless a round sends them.
fn prepare(work: &mut Work, task: Task) -> Option<()> {
    match task.round {
        Round::Calls => Some(()),
        Round::Steps | Round::Again => {
            work.accept(task.calls)?;
            work.judge()
        }
    }
}

fn one_round(work: &mut Work, task: Task) -> Option<()> {
    match task.round {
        Round::Steps => work.attach_upgrade_detach(),
        Round::Calls => {
            work.accept(task.calls)?;
            work.drain()
        }
        Round::Again => {
            work.upgrade_first()?;
            work.judge()
        }
    }
}
