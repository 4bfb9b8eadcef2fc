//! Tables from their canonical text.

ghost use Rattle.std.specs.Prelude.{◌≡◌, ◌⊎◌, ◌<◌, ◌≤◌, ◌+◌, ◌++◌, ℕ, List, length, IfOk, IfErr, OnOk, MatchResult, None};
ghost use Rattle.mrpc_table.specs.Lines.{whole_lines};
ghost use Rattle.table_text.specs.Faults.{IsFirstTableFault, IsTableFaultOf};
ghost use Rattle.table_text.specs.LineTests.{fault_at_line, IsFaultFound};
ghost use Rattle.mrpc_table.specs.Text.{table_text};
ghost use Rattle.mrpc_table.specs.Valid.{IsValid, HasUniqueTexts};
ghost use Rattle.mrpc_table.specs.declared.table.Table.{Table};
ghost use Rattle.table_text.specs.declared.fault.TableReason.{TableReason};
ghost use Rattle.table_text.specs.declared.fault.TableFault.TheVariants.{Memory as NoMemory};
ghost use Rattle.table_text.specs.Drafts.{table_in};

use crate::fault::TableFault;
use crate::reach::known_types;
use crate::reader::TableReader;
use mrpc_table::{Table, split_once};
use std::alloc::Global;

// The table of a text, or its first fault.
fn read_lines(alloc: Global, text: &[u8]) -> Result<Table, TableFault>
    ensures table { IfOk result (λ t. t ≡ table_in (whole_lines text.now)) }
    ensures clean { OnOk result ((i : ℕ) → fault_at_line text.now i ≡ None) }
    ensures fault { IfErr result (λ e. IsFaultFound text.now e) }
{
    let (known_enums, known_messages) = known_types(alloc, text)?;
    let mut reader = TableReader::new(alloc, known_enums, known_messages);
    let mut rest = text;
    let mut number = 1;
    while let Some((line, others)) = split_once(rest, b'\n') {
        reader.take(alloc, line, text.len() - others.len(), number)?;
        rest = others;
        number += 1;
    }
    reader.finish(rest, number)
}

/// Reads a table from its canonical text (this project's own format), as [`crate::table_text`] writes it: enums with
/// their values, messages with their fields, and methods, a line for each. Any other text is rejected with the first
/// line at fault and its first reason. The empty text is the empty table. `TableFault::Memory` is returned if it is out
/// of memory.
pub fn read_table(alloc: Global, text: &[u8]) -> Result<Table, TableFault>
    // The table is valid, and the text is its canonical text.
    ensures accepted { IfOk result (λ t. IsValid t × (text.now ≡ table_text t)) }
    // The canonical text of a valid table gives this table, unless it is out of memory.
    ensures only { (t : Table) → IsValid t → text.now ≡ table_text t
        → MatchResult result (λ read. read ≡ t) (λ fault. fault ≡ NoMemory) }
    // A fault is the first one of the text.
    ensures fault { IfErr result (λ fault. IsTableFaultOf text.now fault) }
{
    read_lines(alloc, text)
}

/// The canonical text of a valid table determines it: two valid tables with the same text are equal.
pub fn table_text_is_unique()
    ensures { HasUniqueTexts }
{}

/// A text has at most one first fault, at one of its lines or at its end. The canonical text of a valid table has none.
pub fn table_fault_is_unique()
    ensures one { (text : List ℕ) (m n : ℕ) (r q : TableReason) → IsFirstTableFault text m r → IsFirstTableFault text n q
        → (m ≡ n) × (r ≡ q) }
    ensures none { (t : Table) (line : ℕ) (reason : TableReason) → IsValid t → IsFirstTableFault (table_text t) line reason
        → ⊥ }
    ensures place { (text : List ℕ) (line : ℕ) (reason : TableReason) → IsFirstTableFault text line reason
        → line ≤ length text + 1 }
{}

/// A text is the canonical text of a valid table, or it has a first fault.
pub fn table_or_fault()
    ensures { (text : List ℕ) → ((t : Table) × IsValid t × (text ≡ table_text t))
        ⊎ ((line : ℕ) × (reason : TableReason) × IsFirstTableFault text line reason) }
{}
