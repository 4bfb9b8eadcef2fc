//! The text before a stream of frames: two lines, the text of a table, and an `end` line.

ghost use Rattle.std.specs.Prelude.{◌≡◌, ◌≢◌, ◌<◌, ◌^◌, length, IfOk, IfErr, Err};
ghost use Rattle.mrpc_table.specs.Valid.{IsValid};
ghost use Rattle.mrpc_table.specs.Text.{table_text};
ghost use Rattle.text_commands.specs.DecodeInput.{OnFault, IsInputOf, IsInputTextFault, IsFaultOfTable};

use crate::decoding::DecodeError;
use mrpc_table::{Table, line_count};
use std::alloc::Global;
use table_text::{TableFault, read_table, split_table, table_fault_is_unique};

const FIRST_LINE: &[u8] = b"mrpc-decode 1\n";

const SECOND_LINE: &[u8] = b"table\n";

const HEAD: &[u8] = b"mrpc-decode 1\ntable\n";

// The table in an input's text, and the stream after it.
pub(crate) fn read_head(alloc: Global, text: &[u8]) -> Result<(Table, &[u8]), DecodeError>
    requires short { length text.now < 2 ^ 63 }
    ensures read { IfOk result (λ parts. IsInputOf text.now parts.0 parts.1.now) }
    ensures cut { IfErr result (OnFault (IsInputTextFault text.now)) }
    ensures not_out { result ≢ Err DecodeError.Out }
{
    let Some(behind) = text.strip_prefix(FIRST_LINE) else {
        return Err(fault(1, "Header"));
    };
    let Some(rest) = behind.strip_prefix(SECOND_LINE) else {
        return Err(fault(2, "Word"));
    };
    match split_table(text, HEAD) {
        Some((table, stream)) => Ok((read_lines(alloc, table)?, stream)),
        None => {
            read_lines(alloc, rest)?;
            Err(fault(line_count(text) as u64 + 1, "Word"))
        }
    }
}

fn fault(place: u64, word: &'static str) -> DecodeError
    ensures fault { OnFault (λ p w. (p ≡ place) × (w ≡ word.now)) result }
    ensures not_out { result ≢ DecodeError.Out }
{
    DecodeError::Fault { place, word }
}

// The table of a text whose first line is line 3 of the input.
fn read_lines(alloc: Global, text: &[u8]) -> Result<Table, DecodeError>
    requires short { length text.now < 2 ^ 63 }
    ensures read { IfOk result (λ t. IsValid t × (text.now ≡ table_text t)) }
    ensures cut { IfErr result (OnFault (IsFaultOfTable text.now)) }
    ensures not_out { result ≢ Err DecodeError.Out }
{
    table_fault_is_unique();
    match read_table(alloc, text) {
        Ok(table) => Ok(table),
        Err(TableFault::At { line, reason }) => Err(fault(line + 2, reason.word())),
        Err(TableFault::Memory) => Err(DecodeError::Memory),
    }
}
