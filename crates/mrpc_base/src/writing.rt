//! Writing all bytes to a sink that may take fewer at a time.

ghost use Rattle.std.specs.Prelude.{◌≡◌, ◌<◌, ◌≤◌, ℕ, length, take, IsTrue, true, false};
ghost use Rattle.std.specs.Io.KnownBytes.{Appends};
ghost use Rattle.mrpc_base.specs.Failures.{HasCause};
ghost use Rattle.mrpc_base.specs.Sinks.{HasAppendedPrefix};

use crate::{Put, Sink};

/// Writes all the bytes, and returns whether the sink took them. Each write passes all the remaining bytes, so empty
/// input makes no write. If a write fails, the sink has taken a proper prefix of the bytes, as far as it reveals them.
pub fn write_all<K: Sink>(out: &mut K, bytes: &[u8]) -> bool
    ensures done { IsTrue result → Appends (K.written out.old) (K.written out.new) bytes.now }
    ensures front { result ≡ false → HasAppendedPrefix (K.written out.old) (K.written out.new) bytes.now }
    ensures untouched { length bytes.now ≡ 0 → out.new ≡ out.old }
    ensures cause { HasCause (result ≡ false) (K.failures out.old) (K.failures out.new) }
{
    let mut done = 0;
    while done < bytes.len() {
        match out.write(&bytes[done..]) {
            Put::Took(count) => done += count,
            Put::Failed => return false,
        }
    }
    true
}
