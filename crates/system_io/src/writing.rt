//! Writing to a writer of the system.

ghost use Rattle.std.specs.Prelude.{◌≡◌, ◌<◌, ◌≤◌, length, take};
ghost use Rattle.std.specs.Io.KnownBytes.{Appends, Keeps};
ghost use Rattle.mrpc_base.specs.Sinks.{OnTook};

use mrpc_base::Put;
use std::io::{ErrorKind, Write};

// Writes once to a writer, and again while a signal interrupts the write. Taking no bytes of the piece counts as a
// failure.
pub(crate) fn write_once<W: Write>(writer: &mut W, piece: &[u8]) -> Put
    requires some { 0 < length piece.now }

    ensures count { OnTook result (λ n. (0 < n) × (n ≤ length piece.now)) }
    ensures appended { OnTook result (λ n. Appends (W.contents writer.old) (W.contents writer.new) (take n piece.now)) }
    ensures kept { result ≡ Put.Failed → Keeps (W.contents writer.old) (W.contents writer.new) }
{
    for _ in 0..u64::MAX {
        match writer.write(piece) {
            Ok(0) => return Put::Failed,
            Ok(n) => return Put::Took(n),
            Err(error) if error.kind() == ErrorKind::Interrupted => {}
            Err(_) => return Put::Failed,
        }
    }
    Put::Failed
}
