//! The text before a stream of frames: two lines, the text of a table, and an `end` line.

ghost use Rattle.std.specs.Prelude.{◌≡◌, ◌<◌, ◌^◌, length, IfOk, IfErr};
ghost use Rattle.mrpc_table.specs.Valid.{IsValid};
ghost use Rattle.mrpc_table.specs.Text.{table_text};
ghost use Rattle.frame_view.specs.Input.{IsInputOf, IsInputTextFault, IsFaultOfTable};
ghost use Rattle.frame_view.specs.Faults.{OnFault};

use crate::fault::ReadFault;
use mrpc_table::{Table, line_count};
use std::alloc::Global;
use table_text::{TableFault, read_table, split_table, table_fault_is_unique};

const FIRST_LINE: &[u8] = b"mrpc-decode 1\n";

const SECOND_LINE: &[u8] = b"table\n";

const HEAD: &[u8] = b"mrpc-decode 1\ntable\n";

/// The table in an input's text, and the stream after it.
pub fn read_head(alloc: Global, text: &[u8]) -> Result<(Table, &[u8]), ReadFault>
    requires short { length text.now < 2 ^ 63 }
    ensures read { IfOk result (λ parts. IsInputOf text.now parts.0 parts.1.now) }
    ensures fault { IfErr result (OnFault (IsInputTextFault text.now)) }
{
    let Some(behind) = text.strip_prefix(FIRST_LINE) else {
        return Err(ReadFault::at(1, "Header"));
    };
    let Some(rest) = behind.strip_prefix(SECOND_LINE) else {
        return Err(ReadFault::at(2, "Word"));
    };
    match split_table(text, HEAD) {
        Some((table, stream)) => Ok((read_lines(alloc, table)?, stream)),
        None => {
            read_lines(alloc, rest)?;
            Err(ReadFault::at(line_count(text) as u64 + 1, "Word"))
        }
    }
}

// The table of a text whose first line is line 3 of the input.
fn read_lines(alloc: Global, text: &[u8]) -> Result<Table, ReadFault>
    requires short { length text.now < 2 ^ 63 }
    ensures read { IfOk result (λ t. IsValid t × (text.now ≡ table_text t)) }
    ensures fault { IfErr result (OnFault (IsFaultOfTable text.now)) }
{
    table_fault_is_unique();
    match read_table(alloc, text) {
        Ok(table) => Ok(table),
        Err(TableFault::At { line, reason }) => Err(ReadFault::at(line + 2, reason.word())),
        Err(TableFault::Memory) => Err(ReadFault::Memory),
    }
}
