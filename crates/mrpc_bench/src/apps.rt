//! Has a client's calls echoed: a client, an echo and a plain service between them run in a thread each.
//! Prints the number of replies, and the sum of their numbers. `bench/apps` times it.
//!
//!     mrpc_bench apps COUNT
//!
//! It measures `app_stub` and the crates below it. It ends with status 1 if the count is missing or out of
//! its range, 0 to 500000, or if it runs out of memory.

use crate::given::{count_of, table_of};
use crate::lines::line_of;
use bench_apps::{MAX_CALLS, TakenCalls, call};
use mrpc_table::Bytes;
use std::alloc::Global;
use std::sync::Wait;
use std::thread::Threads;

// The table of the messages.
const TABLE: &[u8] = b"message M\nfield 1 plain uint64 n\nmethod 0 S Get M M\n";

// Has as many calls echoed as the words ask for, and returns what to print.
pub(crate) fn output<R>(rt: &R, alloc: Global, words: &[String]) -> Option<Bytes>
where
    R: Threads + Wait + Sync,
{
    let TakenCalls { calls, numbers } = echoed(rt, alloc, count_of(words)?)?;
    line_of(alloc, &[calls, numbers])
}

// The results of this number of calls; `None` if it runs out of memory or the count is out of range.
fn echoed<R: Threads + Wait + Sync>(rt: &R, alloc: Global, count: u32) -> Option<TakenCalls> {
    if count > MAX_CALLS {
        return None;
    }
    let table = table_of(alloc, TABLE)?;
    call(rt, alloc, &table, count)
}
