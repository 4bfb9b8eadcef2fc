//! A writer as a sink.

ghost use Rattle.std.specs.Prelude.{◌≡◌, ◌≢◌, ◌<◌, ◌≤◌, length, take};
ghost use Rattle.std.specs.Io.KnownBytes.{Appends, Keeps};
ghost use Rattle.mrpc_base.specs.Failures.{HasCause, raised};
ghost use Rattle.mrpc_base.specs.Sinks.{OnTook};

use crate::writing::write_once;
use mrpc_base::{Put, Sink};
use std::io::Write;
use std::marker::Model;

/// Standard output, or another writer, as a sink. Each write goes to the writer at once, so that each reports its own
/// failure. A write that a signal interrupts is tried again. It reveals its contents if the writer does; the system's writer reveals nothing. Contracts see an `OutputState`.
#[derive(Drop)]
pub struct StandardOutput<W: Write + Drop> {
    writer: W,
    failures: u64,
}

impl<W: Write + Drop> Model for StandardOutput<W> {
    ghost use Rattle.system_io.specs.Streams.{OutputState};

    ghost Value = { OutputState };

    ghost view = { λ s. record { written = W.contents s.writer; failures = s.failures } };
}

impl<W: Write + Drop> StandardOutput<W> {
    /// A sink before its first write.
    pub fn new(writer: W) -> Self
        ensures written { result.written ≡ W.contents writer }
        ensures failures { result.failures ≡ 0 }
    {
        StandardOutput {
            writer,
            failures: 0,
        }
    }
}

impl<W: Write + Drop> Sink for StandardOutput<W> {
    ghost written = { λ s. s.written };

    ghost failures = { λ s. s.failures };

    fn write(&mut self, piece: &[u8]) -> Put
        requires some { 0 < length piece.now }

        // The bytes written.
        ensures count { OnTook result (λ n. (0 < n) × (n ≤ length piece.now)) }
        ensures appended { OnTook result (λ n. Appends self.old.written self.new.written (take n piece.now)) }
        ensures kept { result ≡ Put.Failed → Keeps self.old.written self.new.written }

        // The counts.
        ensures failures { result ≡ Put.Failed → self.new.failures ≡ raised self.old.failures }
        ensures cause { HasCause (result ≡ Put.Failed) self.old.failures self.new.failures }
    {
        let put = write_once(&mut self.writer, piece);
        if put == Put::Failed {
            self.failures = self.failures.saturating_add(1);
        }
        put
    }
}
