//! Checks an audit text.

ghost use Rattle.std.specs.Prelude.{◌≡◌, ◌+◌, ◌<◌, ◌≤◌, ◌^◌, ◌⊎◌, ℕ, List, All, IfErr, IfOk, MatchResult, length};
ghost use Rattle.mrpc_table.specs.Valid.{IsValid};
ghost use Rattle.engine_core.specs.Policies.{IsPolicy};
ghost use Rattle.audit_text.specs.declared.reading.AuditFault.{AuditFault};
ghost use Rattle.audit_text.specs.Faults.{IfBad};
ghost use Rattle.audit_check.specs.Checking.{IsCheckOfText, IsFirstInvalidAuditLine};
ghost use Rattle.audit_check.specs.TextProgress.{IsSomeProgress, IsRead};
ghost use Rattle.audit_check.specs.States.{IsFirstLine};
ghost use Rattle.audit_check.specs.declared.checked.Checked.{Checked};

use crate::checked::Checked;
use crate::first_line::first_line;
use crate::laws::check_is_deterministic;
use crate::progress::TextProgress;
use audit_text::{
    AuditFault, line_splits_into_words, read_happening_ref, read_line, stands_line_determines_call,
};
use mrpc_table::Table;
use policy_declarations::Declarations;
use std::alloc::Global;
use wire_encode::BackwardBuffer;

/// Checks an audit text of at most 16777216 bytes, under a table, the declared policies, and a limit of loads.
///
/// The text is legal if its events are a legal history, followed by no lines of pending calls, or by those of all its
/// pending calls. Such a line must name a legal position, and the level and cost at which its call is held, if it is.
/// Otherwise the result names the first line that makes the text illegal, and the first rule that is broken there.
///
/// # Errors
///
/// `Bad` comes exactly if a line is no audit line, or is an event's after the line of a pending call. It has the first
/// such line, even if an earlier line is illegal. `Memory` means out of memory.
pub fn check_audit(
    alloc: Global,
    table: &Table,
    declared: &Declarations,
    loads: u64,
    text: &[u8],
) -> Result<Checked, AuditFault>
    requires valid { IsValid table.now }
    requires policies { All (λ p. IsPolicy p.policy) declared.now.policies }
    requires short { length text.now ≤ 16777216 }
    ensures checked { IfOk result (IsCheckOfText table.now declared.now loads text.now) }
    ensures bad { IfErr result (IfBad (IsFirstInvalidAuditLine table.now declared.now text.now)) }
    ensures only_checked { (checked : Checked) → IsCheckOfText table.now declared.now loads text.now checked
        → MatchResult result (λ c. c ≡ checked) (λ fault. fault ≡ AuditFault.Memory) }
    ensures only_bad { (line : ℕ) → IsFirstInvalidAuditLine table.now declared.now text.now line
        → MatchResult result (λ _. ⊥) (λ fault. (fault ≡ AuditFault.Bad line) ⊎ (fault ≡ AuditFault.Memory)) }
{
    check_is_deterministic();
    read_text(alloc, table, declared, loads, text)
}

// Reads a text line by line, and returns its result. All lines are encoded into one buffer.
fn read_text(
    alloc: Global,
    table: &Table,
    declared: &Declarations,
    loads: u64,
    text: &[u8],
) -> Result<Checked, AuditFault>
    requires valid { IsValid table.now }
    requires policies { All (λ p. IsPolicy p.policy) declared.now.policies }
    requires short { length text.now ≤ 16777216 }
    ensures checked { IfOk result (IsCheckOfText table.now declared.now loads text.now) }
    ensures bad { IfErr result (IfBad (IsFirstInvalidAuditLine table.now declared.now text.now)) }
{
    let mut progress = TextProgress::new(alloc, loads)?;
    let mut encoding = BackwardBuffer::new(alloc)?;
    let mut rest = text;
    while !rest.is_empty() {
        let others = take_first_line(alloc, &mut encoding, &mut progress, table, declared, rest)?;
        rest = others;
    }
    Ok(progress.end()?)
}

// Reads and applies the first line of a text, and returns the remainder. (Most lines are read without a search for
// their ends.)
fn take_first_line<'a>(
    alloc: Global,
    encoding: &mut BackwardBuffer,
    progress: &mut TextProgress,
    table: &Table,
    declared: &Declarations,
    rest: &'a [u8],
) -> Result<&'a [u8], AuditFault>
    requires valid { IsValid table.now }
    requires policies { All (λ p. IsPolicy p.policy) declared.now.policies }
    requires few { progress.old.happenings + progress.old.stands + 3 < 2 ^ 32 }
    requires familiar { IsSomeProgress table.now progress.old }
    requires some { 0 < length rest.now }
    ensures takes { (limit : ℕ) (text : List ℕ) → IsRead table.now declared.now limit text rest.now progress.old
        → MatchResult result (λ others. IsRead table.now declared.now limit text others.now progress.new)
        (IfBad (IsFirstInvalidAuditLine table.now declared.now text)) }
    ensures shorter { IfOk result (λ others. length others.now < length rest.now) }
{
    line_splits_into_words();
    stands_line_determines_call();
    if let Some((next, others)) = read_happening_ref(rest) {
        progress.take_call_event(alloc, table, next)?;
        return Ok(others);
    }
    let (line, others) = first_line(rest);
    take_line(alloc, encoding, progress, table, declared, line)?;
    Ok(others)
}

// Reads a line by its words, and applies it.
fn take_line(
    alloc: Global,
    encoding: &mut BackwardBuffer,
    progress: &mut TextProgress,
    table: &Table,
    declared: &Declarations,
    line: &[u8],
) -> Result<(), AuditFault>
    requires valid { IsValid table.now }
    requires policies { All (λ p. IsPolicy p.policy) declared.now.policies }
    requires few { progress.old.happenings + progress.old.stands + 3 < 2 ^ 32 }
    requires familiar { IsSomeProgress table.now progress.old }
    ensures { (limit : ℕ) (text rest others : List ℕ) → IsRead table.now declared.now limit text rest progress.old
        → 0 < length rest → IsFirstLine rest line.now others
        → MatchResult result (λ _. IsRead table.now declared.now limit text others progress.new)
        (IfBad (IsFirstInvalidAuditLine table.now declared.now text)) }
{
    line_splits_into_words();
    stands_line_determines_call();
    match read_line(alloc, encoding, line, table, declared)? {
        Some(told) => progress.take(alloc, table, told),
        None => Err(AuditFault::Bad {
            line: progress.next_line(),
        }),
    }
}
