//! Sends descriptors of messages of one number through a ring, from a thread that stores the messages to a
//! thread that copies them. Prints how many were copied and the sum of the numbers. `bench/ring` times it.
//!
//!     mrpc_bench ring COUNT
//!
//! It measures `shared_heap`, `descriptor_ring` and `stable_copy`. It ends with status 1 if the count is
//! missing or out of its range, 0 to 4294967293, or if it runs out of memory.

mod passing;

use crate::given::{count_of, table_of};
use crate::lines::line_of;
use mrpc_table::Bytes;
use passing::{RingResults, pass};
use std::alloc::Global;
use std::sync::Wait;
use std::thread::Threads;

// The table of the messages.
const TABLE: &[u8] = b"message M\nfield 1 plain uint64 n\nmethod 0 S Get M M\n";

// Sends as many descriptors as the words ask for, and returns what to print.
pub(crate) fn output<R>(rt: &R, alloc: Global, words: &[String]) -> Option<Bytes>
where
    R: Threads + Wait + Sync,
{
    let RingResults { copied, sum, .. } = passed(rt, alloc, count_of(words)?)?;
    line_of(alloc, &[copied, sum])
}

// The results at the ring's other end; `None` if it runs out of memory or the count is out of range.
fn passed<R: Threads + Wait + Sync>(rt: &R, alloc: Global, count: u32) -> Option<RingResults> {
    if count > 4294967293 {
        return None;
    }
    let table = table_of(alloc, TABLE)?;
    if table.messages.is_empty() {
        return None;
    }
    let passed = pass(rt, alloc, &table, count).ok()?;
    (passed.copied >= passed.taken).then_some(passed)
}
