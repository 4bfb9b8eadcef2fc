//! The preamble of a text: its head, its table, and the line `end`.

ghost use Rattle.std.specs.Prelude.{◌≡◌, ℕ, List, IfOk, IfErr, MatchResult};
ghost use Rattle.mrpc_table.specs.Text.{table_text};
ghost use Rattle.mrpc_table.specs.Valid.{IsValid};
ghost use Rattle.mrpc_table.specs.declared.table.Table.{Table as TheTable};
ghost use Rattle.table_text.specs.TableText.{IsEndless};
ghost use Rattle.script_grammar.specs.Preambles.{IsHead, IsPreamble, IsFaultOfPreamble, line_after};
ghost use Rattle.script_grammar.specs.Limits.{IsTableFault};
ghost use Rattle.script_grammar.specs.declared.fault.ScriptFault.TheVariants.{Memory as OutOfMemory};

use crate::head::{PreambleHead, read_head};
use crate::head_laws::preamble_or_fault;
use crate::{ScriptFault, ScriptReason};
use mrpc_table::{Table, line_count};
use std::alloc::Global;
use table_text::{TableFault, read_table, split_table, table_fault_is_unique};

/// The preamble of a text.
#[derive(Drop)]
pub struct Preamble<'a> {
    /// The limit of words that are loaded for one call, 1 to 16384; 1024 if the text has no `loads` line.
    pub loads: u64,
    pub table: Table,
    /// The remainder of the text after the line `end`.
    pub behind: &'a [u8],
}

/// Reads the preamble of a text: the line `first`, which includes its line feed, optionally `loads N`, then `table`,
/// the canonical text of a table, and `end`. The time is linear in the length of the preamble.
///
/// # Errors
///
/// [`ScriptFault::At`] has the first line with a fault, counted from 1, and its first reason. [`ScriptFault::Memory`]
/// means out of memory.
pub fn read_preamble<'a>(
    alloc: Global,
    text: &'a [u8],
    first: &[u8],
) -> Result<Preamble<'a>, ScriptFault>
    // The result is the preamble of the text.
    ensures read { IfOk result (λ f. IsPreamble first.now text.now f.loads f.table f.behind.now) }
    // If the text has a preamble, the call returns it, unless it runs out of memory.
    ensures only { (loads : ℕ) (T : TheTable) (behind : List ℕ) → IsPreamble first.now text.now loads T behind
        → MatchResult result (λ f. (f.loads ≡ loads) × (f.table ≡ T) × (f.behind.now ≡ behind))
        (λ e. e ≡ OutOfMemory) }
    // A fault is the preamble's: the first line with a fault, and its first reason.
    ensures fault { IfErr result (IsFaultOfPreamble first.now text.now) }
{
    preamble_or_fault();
    preamble_of(alloc, text, first)
}

fn preamble_of<'a>(alloc: Global, text: &'a [u8], first: &[u8]) -> Result<Preamble<'a>, ScriptFault>
    ensures read { IfOk result (λ f. IsPreamble first.now text.now f.loads f.table f.behind.now) }
    ensures fault { IfErr result (IsFaultOfPreamble first.now text.now) }
{
    let head = read_head(text, first)?;
    let Some((front, behind)) = split_table(text, head.front) else {
        return Err(missing_end_fault(alloc, text, first, head));
    };
    let table = table_of(alloc, head.front, front)?;
    Ok(Preamble {
        loads: head.loads,
        table,
        behind,
    })
}

// The fault of the line after these.
fn fault_after(front: &[u8], reason: ScriptReason) -> ScriptFault
    ensures { result ≡ ScriptFault.At (line_after front.now) reason }
{
    ScriptFault::At {
        line: line_count(front) as u64 + 1,
        reason,
    }
}

// Reads the table whose text follows the head.
fn table_of(alloc: Global, head: &[u8], text: &[u8]) -> Result<Table, ScriptFault>
    ensures table { IfOk result (λ t. IsValid t × (text.now ≡ table_text t)) }
    ensures fault { IfErr result (IsTableFault head.now text.now) }
{
    table_fault_is_unique();
    match read_table(alloc, text) {
        Ok(table) => Ok(table),
        Err(TableFault::At { line, reason }) => Err(ScriptFault::At {
            line: line_count(head) as u64 + line,
            reason: ScriptReason::of_table(reason),
        }),
        Err(TableFault::Memory) => Err(ScriptFault::Memory),
    }
}

// The fault of a text that has no line `end` after its head.
fn missing_end_fault(
    alloc: Global,
    text: &[u8],
    first: &[u8],
    head: PreambleHead<'_>,
) -> ScriptFault
    requires head { IsHead first.now head.front.now head.loads }
    requires endless { IsEndless head.front.now text.now head.behind.now }
    ensures { IsFaultOfPreamble first.now text.now result }
{
    match table_of(alloc, head.front, head.behind) {
        Err(fault) => fault,
        Ok(_) => fault_after(text, ScriptReason::Word),
    }
}
