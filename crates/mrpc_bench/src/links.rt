//! Sends frames of 64 bytes through a link with a writer, whose thread forwards them to a link in memory.
//! Prints the number of frames and the sum of their first bytes. `bench/links` times it.
//!
//!     mrpc_bench links COUNT
//!
//! It measures `link_queue`. It ends with status 1 if the count is missing or out of its range, 0 to
//! 4294967295, or if it runs out of memory when it opens the link.

use crate::discard;
use crate::given::count_of;
use crate::lines::line_of;
use link_queue::{QueueLink, open};
use mrpc_base::{Link, MemLink};
use mrpc_table::Bytes;
use std::alloc::Global;
use std::sync::Wait;
use std::thread::{Threads, join};

// The most frames in the queue.
const CAPACITY: u64 = 64;

// Forwards as many frames as the words ask for, and returns what to print. Skips each frame for which it runs
// out of memory.
pub(crate) fn output<R>(rt: &R, alloc: Global, words: &[String]) -> Option<Bytes>
where
    R: Threads + Wait + Sync,
{
    let inner = pass(rt, alloc, count_of(words)?)?;
    line_of(
        alloc,
        &[inner.handed().len() as u64, sum_of(inner.handed())],
    )
}

// The link in memory, after this number of frames were forwarded to it.
fn pass<R: Threads + Wait + Sync>(rt: &R, alloc: Global, count: u32) -> Option<MemLink> {
    let (link, writer) = open(rt, alloc, CAPACITY, new_link(alloc)).ok()?;
    let (end, _) = join(rt, move || writer.run(), move || send_all(link, count));
    Some(end.into_link())
}

fn new_link(alloc: Global) -> MemLink {
    MemLink::new(
        alloc,
        Vec::new(alloc),
        Vec::new(alloc),
        Vec::new(alloc),
        Vec::new(alloc),
    )
}

// Sends frames that start with their numbers, and closes the link.
fn send_all<R: Wait>(mut link: QueueLink<R>, count: u32) {
    let mut frame = [0; 64];
    for number in 0..count {
        frame[..4].copy_from_slice(&number.to_le_bytes());
        let _ = link.send(&frame);
    }
    discard(link.close());
}

// The sum of the first bytes of frames.
fn sum_of(frames: &[Vec<u8>]) -> u64 {
    let mut sum = 0u64;
    for frame in frames {
        if let Some(first) = frame.first() {
            sum = sum.wrapping_add(u64::from(*first));
        }
    }
    sum
}
