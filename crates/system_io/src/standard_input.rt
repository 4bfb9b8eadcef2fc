//! A reader as a source.

ghost use Rattle.std.specs.Prelude.{◌≡◌, ◌≢◌, ◌<◌, ◌≤◌, length, take};
ghost use Rattle.std.specs.Io.KnownBytes.{Consumes, IsAtEnd, Keeps};
ghost use Rattle.mrpc_base.specs.Failures.{HasCause, raised};
ghost use Rattle.mrpc_base.specs.Sources.{OnBytes, OnNoBytes};

use crate::reading::read_once;
use mrpc_base::{Got, Source};
use std::io::Read;
use std::marker::Model;

/// Standard input, or another reader, as a source. A read that a signal interrupts is tried again. It reveals the remaining bytes if the reader does; the system's
/// reader reveals nothing. Contracts see an `InputState`.
#[derive(Drop)]
pub struct StandardInput<R: Read + Drop> {
    reader: R,
    failures: u64,
}

impl<R: Read + Drop> Model for StandardInput<R> {
    ghost use Rattle.system_io.specs.Streams.{InputState};

    ghost Value = { InputState };

    ghost view = { λ s. record { left = R.remaining s.reader; failures = s.failures } };
}

impl<R: Read + Drop> StandardInput<R> {
    /// A source before its first read.
    pub fn new(reader: R) -> Self
        ensures left { result.left ≡ R.remaining reader }
        ensures failures { result.failures ≡ 0 }
    {
        StandardInput {
            reader,
            failures: 0,
        }
    }
}

impl<R: Read + Drop> Source for StandardInput<R> {
    ghost left = { λ s. s.left };

    ghost failures = { λ s. s.failures };

    fn read(&mut self, buf: &mut [u8]) -> Got
        requires room { 0 < length buf.old }

        // The bytes read.
        ensures count { OnBytes result (λ n. (0 < n) × (n ≤ length buf.old)) }
        ensures next { OnBytes result (λ n. Consumes self.old.left self.new.left (take n buf.new)) }
        ensures end { result ≡ Got.End → IsAtEnd self.old.left }
        ensures kept { OnNoBytes result (Keeps self.old.left self.new.left) }

        // The counts.
        ensures failures { result ≡ Got.Failed → self.new.failures ≡ raised self.old.failures }
        ensures cause { HasCause (result ≡ Got.Failed) self.old.failures self.new.failures }
    {
        let got = read_once(&mut self.reader, buf);
        if got == Got::Failed {
            self.failures = self.failures.saturating_add(1);
        }
        got
    }
}
