//! Sources, from which bytes are read.

ghost use Rattle.std.specs.Prelude.{◌≡◌, ◌<◌, ◌≤◌, List, ℕ, Option, length, take};
ghost use Rattle.std.specs.Io.KnownBytes.{Consumes, IsAtEnd, Keeps};
ghost use Rattle.mrpc_base.specs.Failures.{HasCause};
ghost use Rattle.mrpc_base.specs.Sources.{OnBytes, OnNoBytes};

/// The result of a read.
#[derive(Clone, Copy, PartialEq, Eq)]
pub enum Got {
    /// This many bytes, from 1 to the buffer's length, were written to the start of the buffer.
    Bytes(usize),
    /// No bytes remain.
    End,
    /// The source failed, and consumed none of the remaining bytes.
    Failed,
}

/// A source of bytes, which are read a piece at a time.
pub trait Source {
    /// The bytes that remain to be read; `None` if the source doesn't reveal them.
    ghost left: { Self → Option (List ℕ) };

    /// A count that rises when a read fails. It saturates at 2^64 - 1.
    ghost failures: { Self → ℕ };

    /// Reads the next bytes into the start of `buf`. The bytes of `buf` after them are unspecified.
    fn read(&mut self, buf: &mut [u8]) -> Got
        requires room { 0 < length buf.old }

        ensures count { OnBytes result (λ n. (0 < n) × (n ≤ length buf.old)) }
        ensures next { OnBytes result (λ n. Consumes (left self.old) (left self.new) (take n buf.new)) }
        ensures end { result ≡ Got.End → IsAtEnd (left self.old) }
        ensures kept { OnNoBytes result (Keeps (left self.old) (left self.new)) }

        ensures cause { HasCause (result ≡ Got.Failed) (failures self.old) (failures self.new) };
}
