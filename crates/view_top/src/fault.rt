//! The line of a fault, and its diagnostic.

ghost use Rattle.std.specs.Prelude.{◌≡◌, ◌≢◌, ◌⊎◌, IfOk};
ghost use Rattle.std.specs.Io.KnownBytes.{Appends};
ghost use Rattle.mrpc_base.specs.Failures.{HasCause};
ghost use Rattle.view_top.specs.FaultLines.{fault_line};

use crate::status::{FAULTY_INPUT, NO_MEMORY, OUTPUT_FAILED};
use command_diagnostics::explain_fault;
use mrpc_base::{Sink, write_all};
use mrpc_table::{Bytes, Memory};
use std::alloc::Global;

// The most bytes of an input line that a diagnostic quotes.
const WIDTH: usize = 100;

// Writes the line of a fault at an offset or on a line, and its diagnostic on `error`.
pub(crate) fn write_view_fault<K: Sink, E: Sink>(
    alloc: Global,
    text: &[u8],
    place: u64,
    word: &[u8],
    out: &mut K,
    error: &mut E,
) -> u8
    ensures statuses { (result ≡ FAULTY_INPUT) ⊎ ((result ≡ NO_MEMORY) ⊎ (result ≡ OUTPUT_FAILED)) }
    ensures written { result ≡ FAULTY_INPUT
        → Appends (K.written out.old) (K.written out.new) (fault_line place word.now) }
    ensures cause { HasCause (result ≡ OUTPUT_FAILED) (K.failures out.old) (K.failures out.new) }
    ensures quiet { result ≢ FAULTY_INPUT → error.new ≡ error.old }
{
    match fault_text(alloc, place, word) {
        Ok(line) => {
            if write_all(out, line.as_slice()) {
                write_diagnostic(alloc, text, line.as_slice(), error);
                FAULTY_INPUT
            } else {
                OUTPUT_FAILED
            }
        }
        Err(Memory) => NO_MEMORY,
    }
}

fn fault_text(alloc: Global, place: u64, word: &[u8]) -> Result<Bytes, Memory>
    ensures { IfOk result (λ line. line ≡ fault_line place word.now) }
{
    let mut line = Bytes::from_slice(alloc, b"fault ")?;
    line.append_decimal(place)?;
    line.append(b" ")?;
    line.append(word)?;
    line.append(b"\n")?;
    Ok(line)
}

// Writes the diagnostic. If it runs out of memory or a write fails, it writes no more.
fn write_diagnostic<E: Sink>(alloc: Global, text: &[u8], line: &[u8], error: &mut E) {
    if let Ok(lines) = explain_fault(alloc, b"decode", text, line, WIDTH) {
        write_all(error, lines.as_slice());
    }
}
