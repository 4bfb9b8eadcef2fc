//! Upgrades a policy of a connection again and again, while calls are pending on it and leave one by one.
//! Prints the time from each accepted call to the next. `bench/latency` runs eight of these concurrently, and
//! sums them up.
//!
//!     mrpc_bench upgrade COUNT
//!
//! The chain has an access policy of three rules, a rate, another such access policy and a count policy. The
//! rate lets one call pass at each timestamp and holds the others, so that 64 are pending whenever one was
//! accepted. A round does what a round of the service does: an operation of an operator, if there is one;
//! then the clock advances to the next timestamp, a call is accepted, and the calls that can advance are
//! judged and sent. At each 64th round the first policy is upgraded, so that all pending calls go back to it.
//!
//! It prints a line of the nanoseconds from call to call, 64 for each of COUNT upgrades. Each 64th includes
//! an upgrade, and in the one after it all pending calls are judged again. It measures `conn_core`. It ends
//! with status 1 if the count is missing, or it runs out of memory.

ghost use Rattle.mrpc_table.specs.Valid.{IsValid};

use crate::conn::work::{TABLE, Work};
use crate::given::{count_of, table_of};
use crate::lines::line_of;
use mrpc_table::{Bytes, Table};
use std::alloc::Global;
use std::time::{Clock, Instant};

// The number of calls from one upgrade to the next.
const CALLS: u64 = 64;

// Upgrades a policy as often as the words ask for, and returns the line of the times.
pub(crate) fn output<R: Clock>(rt: &R, alloc: Global, words: &[String]) -> Option<Bytes> {
    let upgrades = count_of(words)?;
    let table = table_of(alloc, TABLE)?;
    let times = times(rt, alloc, &table, upgrades)?;
    line_of(alloc, times.as_slice())
}

// The nanoseconds from each call to the next on a connection.
fn times<R: Clock>(rt: &R, alloc: Global, table: &Table, upgrades: u32) -> Option<Vec<u64>>
    requires { IsValid table.now }
{
    let mut work = Work::open(alloc, table)?;
    let mut times = Vec::new(alloc);
    upgrade_often(rt, &mut work, upgrades, &mut times)?;
    Some(times)
}

// Records the nanoseconds from each call to the next, while 63 calls are pending.
fn upgrade_often<R: Clock>(
    rt: &R,
    work: &mut Work,
    upgrades: u32,
    times: &mut Vec<u64>,
) -> Option<()> {
    work.attach_holding()?;
    work.accept(63)?;
    work.judge()?;
    let mut last = take(rt, work)?;
    for before in 0..CALLS * u64::from(upgrades) {
        let now = one_round(rt, work, before + 1)?;
        times.push(nanoseconds(last, now)).ok()?;
        last = now;
    }
    Some(())
}

// A round, up to the acceptance of its call.
fn one_round<R: Clock>(rt: &R, work: &mut Work, round: u64) -> Option<Instant> {
    work.drain()?;
    if round % CALLS == 0 {
        work.upgrade_first()?;
    }
    work.show(round)?;
    take(rt, work)
}

// Accepts a call, and returns the time then.
fn take<R: Clock>(rt: &R, work: &mut Work) -> Option<Instant> {
    work.accept_one()?;
    Instant::now(rt).ok()
}

fn nanoseconds(from: Instant, to: Instant) -> u64 {
    u64::try_from(to.duration_since(from).as_nanos()).unwrap_or(u64::MAX)
}
