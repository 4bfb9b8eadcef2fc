//! Objects of the system: a reader and a writer that fail where a test says so, and the clock.
ghost use Rattle.std.specs.Prelude.{◌≤◌, IfOk};

use mrpc_base::{Clock, Got, Put, Sink, Source};
use std::io;
use std::io::{ErrorKind, Read, Write};
use system_io::{StandardInput, StandardOutput, SystemClock};

// The answer of a device to a call.
#[derive(Clone, Copy)]
enum Answer {
    Count(usize),
    Interrupted,
    Broken,
}

// A device that answers its calls from a list.
#[derive(Drop)]
struct Device {
    answers: [Answer; 5],
    calls: usize,
}

impl Device {
    fn new(answers: [Answer; 5]) -> Self {
        Device { answers, calls: 0 }
    }

    // The next answer, at most `most`; after the end of the list the count is 0.
    fn next(&mut self, most: usize) -> io::Result<usize>
        ensures { IfOk result (λ n. n ≤ most) }
    {
        let answer = self
            .answers
            .get(self.calls)
            .copied()
            .unwrap_or(Answer::Count(0));
        self.calls = self.calls.saturating_add(1);
        match answer {
            Answer::Count(n) => Ok(n.min(most)),
            Answer::Interrupted => Err(io::Error::from(ErrorKind::Interrupted)),
            Answer::Broken => Err(io::Error::from(ErrorKind::BrokenPipe)),
        }
    }
}

impl Read for Device {
    fn read(&mut self, buf: &mut [u8]) -> io::Result<usize> {
        let n = self.next(buf.len())?;
        for byte in &mut buf[..n] {
            *byte = b'x';
        }
        Ok(n)
    }
}

impl Write for Device {
    fn write(&mut self, buf: &[u8]) -> io::Result<usize> {
        self.next(buf.len())
    }

    fn flush(&mut self) -> io::Result<()> {
        Ok(())
    }
}

#[test]
fn reads_are_answered(rt: HostRuntime) {
    let mut source = StandardInput::new(Device::new([
        Answer::Count(9),
        Answer::Broken,
        Answer::Interrupted,
        Answer::Interrupted,
        Answer::Count(1),
    ]));
    let mut buf = [0; 4];
    assert!(rt; source.read(&mut buf) == Got::Bytes(4));
    assert!(rt; buf[3] == b'x');
    assert!(rt; source.read(&mut buf) == Got::Failed);
    assert!(rt; source.read(&mut buf) == Got::Bytes(1));
    assert!(rt; source.read(&mut buf) == Got::End);
}

#[test]
fn a_writer_that_takes_nothing_has_failed(rt: HostRuntime) {
    let mut sink = StandardOutput::new(Device::new([
        Answer::Interrupted,
        Answer::Count(2),
        Answer::Broken,
        Answer::Interrupted,
        Answer::Count(0),
    ]));
    assert!(rt; sink.write(b"abc") == Put::Took(2));
    assert!(rt; sink.write(b"c") == Put::Failed);
    assert!(rt; sink.write(b"c") == Put::Failed);
}

#[test]
fn the_clock_never_goes_back(rt: HostRuntime) {
    let clock = SystemClock::new(&rt);
    let first = clock.now();
    let second = clock.now();
    assert!(rt; first <= second);
}
