//! Reads redacting policies from their lines.

ghost use Rattle.std.specs.Prelude.{◌≡◌, ◌+◌, ◌^◌, ◌<◌, ℕ, List, IfOk, IfErr, MatchResult};
ghost use Rattle.mrpc_table.specs.Valid.{IsValid};
ghost use Rattle.mrpc_table.specs.declared.policy_lines.RuleFault.TheVariants.{Memory as NoMemory};
ghost use Rattle.policy_redact.specs.Faults.{IsFaultOf};
ghost use Rattle.policy_redact.specs.Lines.{clear_line_of};
ghost use Rattle.policy_redact.specs.LineContent.{judged_clear};
ghost use Rattle.policy_redact.specs.Texts.{path_in_call, IsTextOf};
ghost use Rattle.policy_redact.specs.declared.redact.Clear.{Clear as TheClear};

use crate::form::clear_line_of;
use crate::limits::MAX_CLEARS;
use crate::line::ClearLine;
use crate::redact::{Clear, Redact};
use mrpc_table::{
    Bytes, CallKind, Decimal, Lines, Memory, Path, PathWord, RuleFault, RuleReason, Table,
};
use std::alloc::Global;

// The path in the request message or the reply message of a method.
fn path_in_call(
    alloc: Global,
    table: &Table,
    method: u16,
    sort: CallKind,
    path: &PathWord,
) -> Result<Option<Path>, Memory>
    requires { IsValid table.now }
    ensures { IfOk result (λ p. p ≡ path_in_call table.now method sort path.now) }
{
    if method as usize >= table.methods.len() {
        return Ok(None);
    }
    let message = table.message_of(method, sort);
    path.resolve(alloc, table, message)
}

// The clear of a line, or the reason against the line.
fn judged_clear(
    alloc: Global,
    table: &Table,
    line: &[u8],
) -> Result<Result<Clear, RuleReason>, Memory>
    requires { IsValid table.now }
    ensures { IfOk result (λ s. s ≡ judged_clear table.now (clear_line_of line.now)) }
{
    let Some(line) = clear_line_of(alloc, line)? else {
        return Ok(Err(RuleReason::Word));
    };
    let method = match line.index {
        Decimal::Small(index) if index <= u16::MAX as u64 => index as u16,
        Decimal::Small(_) | Decimal::Large => return Ok(Err(RuleReason::Number)),
    };
    let sort = line.sort;
    match path_in_call(alloc, table, method, sort, &line.path)? {
        None => Ok(Err(RuleReason::Path)),
        Some(path) => Ok(Ok(Clear { method, sort, path })),
    }
}

fn read_lines(alloc: Global, lines: &[Bytes], table: &Table) -> Result<Redact, RuleFault>
    requires { IsValid table.now }
    ensures accepted { IfOk result (λ policy. IsTextOf table.now lines.now policy) }
    ensures fault { IfErr result (λ e. IsFaultOf table.now lines.now e) }
{
    if lines.is_empty() {
        return Err(RuleFault::at(0, RuleReason::Word));
    }
    let mut clears = Vec::new(alloc);
    for (place, line) in lines.iter().enumerate() {
        if place >= MAX_CLEARS {
            return Err(RuleFault::at(place, RuleReason::Word));
        }
        match judged_clear(alloc, table, line.as_slice())? {
            Err(reason) => return Err(RuleFault::at(place, reason)),
            Ok(clear) => clears.push(clear)?,
        }
    }
    Ok(Redact::new(clears))
}

/// Reads the redacting policy from its lines, or returns their first fault. Each line is `clear method INDEX [reply]
/// PATH`, and there are 1 to 64. Methods and paths refer to the table; the last number of a path is any field.
///
/// The reason is `Word` for a malformed line, for a 65th line, and at line 1 if there is no line. It is `Number` for
/// an index above 65535, and `Path` for a method or a field that the table doesn't have. `RuleFault::Memory` means
/// out of memory. Reading takes time in proportion to the text, except that fields are looked up by search.
pub fn read_redact(alloc: Global, lines: &Lines, table: &Table) -> Result<Redact, RuleFault>
    requires { IsValid table.now }
    // The result is the policy of the lines.
    ensures accepted { IfOk result (λ policy. IsTextOf table.now lines.now policy) }
    // The text of a policy gives this policy, except when out of memory.
    ensures only { (policy : List TheClear) → IsTextOf table.now lines.now policy →
        MatchResult result (λ read. read ≡ policy) (λ fault. fault ≡ NoMemory) }
    // A fault is the first one of the lines.
    ensures fault { IfErr result (λ fault. IsFaultOf table.now lines.now fault) }
{
    read_lines(alloc, lines.as_slice(), table)
}
