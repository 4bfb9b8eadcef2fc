//! The devices of commands and views.

use mrpc_base::{MemSink, MemSource};
use std::alloc::Global;
use std::process::Abort;

// The numbers of the calls that fail.
#[derive(Clone, Copy)]
pub(crate) struct Failing<'a> {
    pub(crate) reads: &'a [u64],
    pub(crate) lines: &'a [u64],
    pub(crate) beside: &'a [u64],
}

// The devices in memory. The first read of the input returns at most ten bytes.
pub(crate) struct Devices {
    pub(crate) input: MemSource,
    pub(crate) out: MemSink,
    // The frames of a command, or the sentences of a view.
    pub(crate) beside: MemSink,
}

// Written by hand, so that a drop is one call, not a drop of each part.
impl Drop for Devices {
    fn drop(self) {
        let Devices {
            input: _input,
            out: _out,
            beside: _beside,
        } = self;
    }
}

impl Devices {
    pub(crate) fn new(
        rt: &impl Abort,
        alloc: Global,
        input: &[u8],
        failing: Failing<'_>,
    ) -> Devices {
        let input = input.to_vec(alloc).expect(rt, "memory");
        let reads = failing.reads.to_vec(alloc).expect(rt, "memory");
        let lengths = [10].to_vec(alloc).expect(rt, "memory");
        let lines = failing.lines.to_vec(alloc).expect(rt, "memory");
        let beside = failing.beside.to_vec(alloc).expect(rt, "memory");
        Devices {
            input: MemSource::new(input, reads, lengths),
            out: MemSink::new(alloc, lines),
            beside: MemSink::new(alloc, beside),
        }
    }
}

// A command line of one word.
pub(crate) fn words_of(rt: &impl Abort, alloc: Global, word: &str) -> Vec<String> {
    let word = String::from_str(alloc, word).expect(rt, "memory");
    let mut words = Vec::new(alloc);
    words.push(word).expect(rt, "memory");
    words
}
