//! Decodes an input: prints a line for each frame, or the first fault.

ghost use Rattle.std.specs.Prelude.{◌≡◌, ◌≢◌, ◌<◌, ◌≤◌, ◌⊎◌, List, ℕ, length, All};
ghost use Rattle.mrpc_base.specs.Failures.{HasCause};
ghost use Rattle.mrpc_table.specs.declared.table.Table.{Table};
ghost use Rattle.text_commands.specs.DecodeInput.{IsInputOf, IsInputTextFault};
ghost use Rattle.text_commands.specs.Decoded.{HasDecodedToFault, HasDecodedText};
ghost use Rattle.text_commands.specs.Decoding.{IsCutAt, IsDecoded};
ghost use Rattle.text_commands.specs.Stopping.{HasEndedEarly};

use crate::decode_input::read_head;
use crate::decoding::{DecodeError, decode_stream};
use crate::fault_line::write_fault;
use crate::laws::{meaning_law, text_law};
use crate::status::{DONE, FAULTY_INPUT, INPUT_FAILED, NO_COMMAND, NO_MEMORY, OUTPUT_FAILED};
use mrpc_base::{MAX_INPUT, Sink};
use std::alloc::Global;

/// Reads the text of a table and the frames after it, at most [`MAX_INPUT`] bytes, and writes a line for
/// each frame. Writes the first fault of the text as a line `fault LINE REASON`. Writes the first fault of
/// the frames as `fault PLACE REASON`, after the lines of the frames before it.
pub fn decode_to<K: Sink>(alloc: Global, text: &[u8], out: &mut K) -> u8
    requires short { length text.now ≤ MAX_INPUT }
    ensures statuses { result ≤ OUTPUT_FAILED }
    ensures some { (result ≢ NO_COMMAND) × (result ≢ INPUT_FAILED) }
    ensures done { result ≡ DONE → HasDecodedText text.now (K.written out.old) (K.written out.new) }
    ensures cut { result ≡ FAULTY_INPUT → HasDecodedToFault text.now (K.written out.old) (K.written out.new) }
    ensures early { (result ≡ NO_MEMORY) ⊎ (result ≡ OUTPUT_FAILED) → HasEndedEarly (HasDecodedText text.now)
        (HasDecodedToFault text.now) (K.written out.old) (K.written out.new) }
    ensures out_cause { HasCause (result ≡ OUTPUT_FAILED) (K.failures out.old) (K.failures out.new) }
{
    let told = match read_head(alloc, text) {
        Ok((table, stream)) => decode_stream(alloc, &table, stream, out),
        Err(cut) => Err(cut),
    };
    match told {
        Ok(()) => DONE,
        Err(DecodeError::Fault { place, word }) => write_fault(alloc, place, word.as_bytes(), out),
        Err(DecodeError::Memory) => NO_MEMORY,
        Err(DecodeError::Out) => OUTPUT_FAILED,
    }
}

/// A text has one decoding: either one table and one stream, or one first fault, never both. A stream of
/// bytes is either whole frames to its end, with their lines, or has one first fault, with the lines of the
/// frames before it, never both.
pub fn decoding_is_unique()
    ensures parts { (text stream other : List ℕ) (T U : Table) → IsInputOf text T stream → IsInputOf text U other
        → (T ≡ U) × (stream ≡ other) }
    ensures text_fault { (text word spelled : List ℕ) (line at : ℕ) → IsInputTextFault text line word
        → IsInputTextFault text at spelled → (line ≡ at) × (word ≡ spelled) }
    ensures no_text_fault { (text stream word : List ℕ) (T : Table) (line : ℕ) → IsInputOf text T stream
        → IsInputTextFault text line word → ⊥ }
    ensures text_or_fault { (text : List ℕ) → ((T : Table) × (stream : List ℕ) × IsInputOf text T stream)
        ⊎ ((line : ℕ) × (word : List ℕ) × IsInputTextFault text line word) }
    ensures lines { (T : Table) (stream told other : List ℕ) → IsDecoded T stream told → IsDecoded T stream other
        → told ≡ other }
    ensures cut { (T : Table) (stream told other word spelled : List ℕ) (place at : ℕ)
        → IsCutAt T 0 stream told place word
        → IsCutAt T 0 stream other at spelled → (place ≡ at) × (word ≡ spelled) × (told ≡ other) }
    ensures no_cut { (T : Table) (stream told other word : List ℕ) (place : ℕ) → IsDecoded T stream told
        → IsCutAt T 0 stream other place word → ⊥ }
    ensures lines_or_cut { (T : Table) (stream : List ℕ) → All (λ byte. byte < 256) stream
        → ((told : List ℕ) × IsDecoded T stream told)
        ⊎ ((told : List ℕ) × (place : ℕ) × (word : List ℕ) × IsCutAt T 0 stream told place word) }
{
    text_law();
    meaning_law();
}
