//! Reading from a reader of the system.

ghost use Rattle.std.specs.Prelude.{◌≡◌, ◌<◌, ◌≤◌, length, take};
ghost use Rattle.std.specs.Io.KnownBytes.{Consumes, IsAtEnd, Keeps};
ghost use Rattle.mrpc_base.specs.Sources.{OnBytes, OnNoBytes};

use mrpc_base::Got;
use std::io::{ErrorKind, Read};

// Reads once, and again while a signal interrupts the read.
pub(crate) fn read_once<R: Read>(reader: &mut R, buf: &mut [u8]) -> Got
    requires room { 0 < length buf.old }

    ensures count { OnBytes result (λ n. (0 < n) × (n ≤ length buf.old)) }
    ensures next { OnBytes result (λ n. Consumes (R.remaining reader.old) (R.remaining reader.new) (take n buf.new)) }
    ensures end { result ≡ Got.End → IsAtEnd (R.remaining reader.old) }
    ensures kept { OnNoBytes result (Keeps (R.remaining reader.old) (R.remaining reader.new)) }
{
    for _ in 0..u64::MAX {
        match reader.read(buf) {
            Ok(0) => return Got::End,
            Ok(n) => return Got::Bytes(n),
            Err(error) if error.kind() == ErrorKind::Interrupted => {}
            Err(_) => return Got::Failed,
        }
    }
    Got::Failed
}
