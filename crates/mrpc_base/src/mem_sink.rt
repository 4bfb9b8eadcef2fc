//! A sink in memory, whose writes can be made to fail.

ghost use Rattle.std.specs.Prelude.{◌≡◌, ◌≢◌, ◌<◌, ◌≤◌, [], ◌++◌, Contains, IsPermutation, length, take};
ghost use Rattle.mrpc_base.specs.Failures.{HasCause, raised};
ghost use Rattle.mrpc_base.specs.Sinks.{OnTook};

use crate::calls::CallCounter;
use crate::{Put, Sink};
use std::alloc::Global;
use std::marker::Model;

/// A sink that keeps what is written in memory. Contracts see it as a `MemSinkState`: the bytes written, the numbers of
/// failing writes that it was made with, and how many writes there were and failed.
#[derive(Drop)]
pub struct MemSink {
    written: Vec<u8>,
    calls: CallCounter,
}

impl Model for MemSink {
    ghost use Rattle.mrpc_base.specs.Sinks.{MemSinkState};

    ghost Value = { MemSinkState };

    ghost view = { λ s. record {
      written = s.written.items;
      failing = s.calls.failing;
      calls = s.calls.calls;
      failures = s.calls.failures;
    } };
}

impl MemSink {
    /// A sink to which nothing was written. The write of each number in `failing`, counted from 1, fails.
    pub fn new(alloc: Global, failing: Vec<u64>) -> Self
        ensures written { result.written ≡ [] }
        // In ascending order, for the binary search.
        ensures failing { IsPermutation failing.items result.failing }
        ensures calls { result.calls ≡ 0 }
        ensures failures { result.failures ≡ 0 }
    {
        MemSink {
            written: Vec::new(alloc),
            calls: CallCounter::new(failing),
        }
    }

    /// The bytes that were written.
    pub fn written(&self) -> &[u8]
        ensures { result.now ≡ self.now.written }
    {
        &self.written
    }

    /// How many writes failed. It saturates at 2^64 - 1.
    pub fn failures(&self) -> u64
        ensures { result ≡ self.now.failures }
    {
        self.calls.failures()
    }

    /// How many writes there were, failed ones included. It saturates at 2^64 - 1.
    pub fn calls(&self) -> u64
        ensures { result ≡ self.now.calls }
    {
        self.calls.calls()
    }
}

impl Sink for MemSink {
    ghost use Rattle.std.specs.Prelude.{Some};

    ghost written = { λ s. Some s.written };

    ghost failures = { λ s. s.failures };

    fn write(&mut self, piece: &[u8]) -> Put
        requires some { 0 < length piece.now }

        // A write whose number is listed fails, and so does one that is out of memory.
        ensures fails { Contains self.old.failing self.new.calls → result ≡ Put.Failed }

        // A successful write takes the whole piece.
        ensures count { OnTook result (λ n. (0 < n) × (n ≤ length piece.now)) }
        ensures whole { OnTook result (λ n. n ≡ length piece.now) }
        ensures appended { OnTook result (λ n. self.new.written ≡ self.old.written ++ take n piece.now) }
        ensures kept { result ≡ Put.Failed → self.new.written ≡ self.old.written }

        // The counts, and what is unchanged.
        ensures failing { self.new.failing ≡ self.old.failing }
        ensures calls { self.new.calls ≡ raised self.old.calls }
        ensures failures { result ≡ Put.Failed → self.new.failures ≡ raised self.old.failures }
        ensures cause { HasCause (result ≡ Put.Failed) self.old.failures self.new.failures }
    {
        if self.calls.next() || self.written.extend_from_slice(piece).is_err() {
            self.calls.count_failure();
            return Put::Failed;
        }
        Put::Took(piece.len())
    }
}
