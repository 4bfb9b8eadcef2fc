//! What was read, and the line of a fault that was written, kept for the diagnostic.

ghost use Rattle.std.specs.Prelude.{◌≡◌, ◌<◌, ◌≤◌, length, take};
ghost use Rattle.std.specs.Io.KnownBytes.{Appends, Consumes, IsAtEnd, Keeps};
ghost use Rattle.mrpc_base.specs.Failures.{HasCause};
ghost use Rattle.mrpc_base.specs.Sources.{OnBytes, OnNoBytes};
ghost use Rattle.mrpc_base.specs.Sinks.{OnTook};

use crate::accepted_calls::accepted_calls;
use crate::progress::RunProgress;
use mrpc_base::{CHUNK, Got, Put, Sink, Source};
use mrpc_table::Bytes;
use std::alloc::Global;
use std::io::Eprint;
use std::time::Clock;

// How the line of a fault starts.
const FAULT: &[u8] = b"fault ";

// The most bytes of it.
const MAX_FAULT_LINE: usize = 64;

// A source whose bytes are kept as they are read.
pub(crate) struct KeptSource<S: Source + Drop> {
    source: S,
    bytes: Bytes,
    is_whole: bool,
}

// Written by hand, like that of the sink below, so that a drop is one call, not a drop of each part.
impl<S: Source + Drop> Drop for KeptSource<S> {
    fn drop(self) {
        let KeptSource {
            source: _source,
            bytes: _bytes,
            is_whole: _,
        } = self;
    }
}

impl<S: Source + Drop> KeptSource<S> {
    // A source of which nothing was read.
    pub(crate) fn new(alloc: Global, source: S) -> KeptSource<S> {
        KeptSource {
            source,
            bytes: Bytes::new(alloc),
            is_whole: true,
        }
    }

    // All that was read; `None` if it ran out of memory for it.
    pub(crate) fn kept(&self) -> Option<&[u8]> {
        if self.is_whole {
            Some(self.bytes.as_slice())
        } else {
            None
        }
    }

    fn keep(&mut self, bytes: &[u8])
        ensures { self.new.source ≡ self.old.source }
    {
        for chunk in bytes.chunks(CHUNK) {
            self.is_whole = self.is_whole && self.bytes.append(chunk).is_ok();
        }
    }
}

impl<S: Source + Drop> Source for KeptSource<S> {
    ghost left = { λ s. S.left s.source };

    ghost failures = { λ s. S.failures s.source };

    fn read(&mut self, buf: &mut [u8]) -> Got
        requires room { 0 < length buf.old }
        ensures count { OnBytes result (λ n. (0 < n) × (n ≤ length buf.old)) }
        ensures next { OnBytes result (λ n. Consumes (S.left self.old.source) (S.left self.new.source)
            (take n buf.new)) }
        ensures end { result ≡ Got.End → IsAtEnd (S.left self.old.source) }
        ensures kept { OnNoBytes result (Keeps (S.left self.old.source) (S.left self.new.source)) }
        ensures cause { HasCause (result ≡ Got.Failed) (S.failures self.old.source) (S.failures self.new.source) }
    {
        let got = self.source.read(buf);
        if let Got::Bytes(count) = got {
            self.keep(&buf[..count]);
        }
        got
    }
}

// A sink that keeps the line of a fault, and the number of calls in a run's report. The commands write a
// fault in one write, and a run its whole report. The progress line is cleared before that.
pub(crate) struct KeptSink<'r, R, K: Sink + Drop> {
    sink: K,
    alloc: Global,
    fault: Bytes,
    // Whether to look for the number of calls. Not in a replay, which writes each line by itself.
    counts: bool,
    calls: Option<u64>,
    progress: &'r RunProgress<'r, R>,
}

impl<'r, R, K: Sink + Drop> Drop for KeptSink<'r, R, K> {
    fn drop(self) {
        let KeptSink {
            sink: _sink,
            alloc: _,
            fault: _fault,
            counts: _,
            calls: _,
            progress: _,
        } = self;
    }
}

impl<'r, R: Eprint + Clock, K: Sink + Drop> KeptSink<'r, R, K> {
    // A sink to which nothing was written.
    pub(crate) fn new(
        alloc: Global,
        sink: K,
        progress: &'r RunProgress<'r, R>,
    ) -> KeptSink<'r, R, K> {
        KeptSink {
            sink,
            alloc,
            fault: Bytes::new(alloc),
            counts: false,
            calls: None,
            progress,
        }
    }

    // From now on it looks for the number of calls in what is written.
    pub(crate) fn look_for_calls(&mut self) {
        self.counts = true;
    }

    fn count(&mut self, piece: &[u8])
        ensures { self.new.sink ≡ self.old.sink }
    {
        if let Some(calls) = accepted_calls(piece) {
            self.calls = Some(calls);
        }
    }

    fn keep(&mut self, piece: &[u8])
        ensures { self.new.sink ≡ self.old.sink }
    {
        if self.counts {
            self.count(piece);
        }
        if piece.len() > MAX_FAULT_LINE || !piece.starts_with(FAULT) {
            return;
        }
        if let Ok(fault) = Bytes::from_slice(self.alloc, piece) {
            self.fault = fault;
        }
    }
}

impl<'r, R, K: Sink + Drop> KeptSink<'r, R, K> {
    // The line of the fault that was written last; empty if there is none.
    pub(crate) fn fault(&self) -> &[u8] {
        self.fault.as_slice()
    }

    // The number of calls in the report that was written.
    pub(crate) fn calls(&self) -> Option<u64> {
        self.calls
    }
}

impl<'r, R: Eprint + Clock, K: Sink + Drop> Sink for KeptSink<'r, R, K> {
    ghost written = { λ s. K.written s.sink };

    ghost failures = { λ s. K.failures s.sink };

    fn write(&mut self, piece: &[u8]) -> Put
        requires some { 0 < length piece.now }
        ensures count { OnTook result (λ n. (0 < n) × (n ≤ length piece.now)) }
        ensures appended { OnTook result (λ n. Appends (K.written self.old.sink) (K.written self.new.sink)
            (take n piece.now)) }
        ensures kept { result ≡ Put.Failed → Keeps (K.written self.old.sink) (K.written self.new.sink) }
        ensures cause { HasCause (result ≡ Put.Failed) (K.failures self.old.sink) (K.failures self.new.sink) }
    {
        self.progress.clear();
        let put = self.sink.write(piece);
        self.keep(piece);
        put
    }
}
