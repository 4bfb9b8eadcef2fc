//! Sinks, to which bytes are written.

ghost use Rattle.std.specs.Prelude.{◌≡◌, ◌<◌, ◌≤◌, List, ℕ, Option, length, take};
ghost use Rattle.std.specs.Io.KnownBytes.{Appends, Keeps};
ghost use Rattle.mrpc_base.specs.Failures.{HasCause};
ghost use Rattle.mrpc_base.specs.Sinks.{OnTook};

/// The result of a write.
#[derive(Clone, Copy, PartialEq, Eq)]
pub enum Put {
    /// This many bytes, from 1 to the piece's length, were taken from the start of the piece.
    Took(usize),
    /// The sink failed. Taking no bytes counts as a failure.
    Failed,
}

/// A sink of bytes, which are written a piece at a time.
pub trait Sink {
    /// The bytes written so far; `None` if the sink doesn't reveal them.
    ghost written: { Self → Option (List ℕ) };

    /// A count that rises when a write fails. It saturates at 2^64 - 1.
    ghost failures: { Self → ℕ };

    /// Writes a prefix of a piece: as much as the sink takes in one call.
    fn write(&mut self, piece: &[u8]) -> Put
        requires some { 0 < length piece.now }

        ensures count { OnTook result (λ n. (0 < n) × (n ≤ length piece.now)) }
        ensures appended { OnTook result (λ n. Appends (written self.old) (written self.new) (take n piece.now)) }
        ensures kept { result ≡ Put.Failed → Keeps (written self.old) (written self.new) }

        ensures cause { HasCause (result ≡ Put.Failed) (failures self.old) (failures self.new) };
}
