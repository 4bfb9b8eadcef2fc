//! The line of a fault.

ghost use Rattle.std.specs.Prelude.{◌≡◌, ◌≢◌, ◌⊎◌, ◌++◌, IfOk, OnOk};
ghost use Rattle.std.specs.Io.KnownBytes.{Appends};
ghost use Rattle.mrpc_base.specs.Failures.{HasCause};
ghost use Rattle.text_commands.specs.Checking.{location_line, location_text};
ghost use Rattle.text_commands.specs.FaultLines.{HasWrittenPrefix, fault_line};

use crate::check::FaultLocation;
use crate::status::{FAULTY_INPUT, NO_MEMORY, OUTPUT_FAILED};
use mrpc_base::{Sink, write_all};
use mrpc_table::{Bytes, Memory};
use std::alloc::Global;

/// Writes the line of a fault at an offset or on a line, `fault PLACE WORD`, and returns the exit status.
pub fn write_fault<K: Sink>(alloc: Global, place: u64, word: &[u8], out: &mut K) -> u8
    ensures statuses { (result ≡ FAULTY_INPUT) ⊎ ((result ≡ NO_MEMORY) ⊎ (result ≡ OUTPUT_FAILED)) }
    ensures written { result ≡ FAULTY_INPUT
        → Appends (K.written out.old) (K.written out.new) (fault_line place word.now) }
    ensures front { result ≢ FAULTY_INPUT
        → HasWrittenPrefix (K.written out.old) (K.written out.new) (fault_line place word.now) }
    ensures cause { HasCause (result ≡ OUTPUT_FAILED) (K.failures out.old) (K.failures out.new) }
{
    write_fault_at(alloc, FaultLocation::Line(place), word, out)
}

// Writes the line of a fault.
pub(crate) fn write_fault_at<K: Sink>(
    alloc: Global,
    spot: FaultLocation,
    word: &[u8],
    out: &mut K,
) -> u8
    ensures statuses { (result ≡ FAULTY_INPUT) ⊎ ((result ≡ NO_MEMORY) ⊎ (result ≡ OUTPUT_FAILED)) }
    ensures written { result ≡ FAULTY_INPUT
        → Appends (K.written out.old) (K.written out.new) (location_line spot word.now) }
    ensures front { result ≢ FAULTY_INPUT
        → HasWrittenPrefix (K.written out.old) (K.written out.new) (location_line spot word.now) }
    ensures cause { HasCause (result ≡ OUTPUT_FAILED) (K.failures out.old) (K.failures out.new) }
{
    match fault_text(alloc, spot, word) {
        Err(Memory) => NO_MEMORY,
        Ok(line) => {
            if write_all(out, line.as_slice()) {
                FAULTY_INPUT
            } else {
                OUTPUT_FAILED
            }
        }
    }
}

fn fault_text(alloc: Global, spot: FaultLocation, word: &[u8]) -> Result<Bytes, Memory>
    ensures { IfOk result (λ line. line ≡ location_line spot word.now) }
{
    let mut line = Bytes::new(alloc);
    append_fault(&mut line, spot, word)?;
    Ok(line)
}

fn append_fault(line: &mut Bytes, spot: FaultLocation, word: &[u8]) -> Result<(), Memory>
    ensures { OnOk result (line.new ≡ line.old ++ location_line spot word.now) }
{
    line.append(b"fault ")?;
    append_location(line, spot)?;
    line.append(b" ")?;
    line.append(word)?;
    line.append(b"\n")
}

fn append_location(text: &mut Bytes, spot: FaultLocation) -> Result<(), Memory>
    ensures { OnOk result (text.new ≡ text.old ++ location_text spot) }
{
    match spot {
        FaultLocation::Line(line) => text.append_decimal(line),
        FaultLocation::OfFile(file) => text.append_decimal(file),
        FaultLocation::InFile { file, line } => {
            text.append_decimal(file)?;
            text.append(b":")?;
            text.append_decimal(line)
        }
    }
}
