//! Reads the history of an audit text.

ghost use Rattle.std.specs.Prelude.{◌≡◌, ◌≢◌, ◌+◌, ◌<◌, ◌≤◌, ◌++◌, ◌∷◌, ◌⊎◌, ℕ, List, [], All, IfOk, IfErr, IfSome, MatchOption, MatchResult, length};
ghost use Rattle.mrpc_table.specs.Valid.{IsValid};
ghost use Rattle.call_history.specs.Legal.{History};
ghost use Rattle.audit_text.specs.Lines.{audit, audit_line};
ghost use Rattle.audit_text.specs.Writable.{IsWritable};
ghost use Rattle.audit_text.specs.Faults.{IfBad, HasNoLine, IsFirstInvalidLine};
ghost use Rattle.audit_text.specs.LineWords.{happening_in};
ghost use Rattle.audit_text.specs.declared.reading.AuditFault.TheVariants.{Memory as NoMemory};

use crate::laws::{
    first_invalid_line_is_unique, history_of_text_is_unique, line_splits_into_words,
};
use crate::line::{AuditLine, read_line};
use call_history::ConnectionEvent;
use mrpc_table::{Memory, Sequence, Table, split_once};
use policy_declarations::Declarations;
use std::alloc::Global;
use thiserror::Error;
use wire_encode::BackwardBuffer;

/// Why a text can't be read as a history.
#[derive(Clone, Copy, Debug, PartialEq, Eq, Error)]
pub enum AuditFault {
    /// The text isn't the audit of a history. This line, counted from 1, is the first that isn't an event's.
    #[error("line {line} is no line of a history")]
    Bad { line: u64 },
    /// Out of memory.
    #[error("out of memory")]
    Memory,
}

impl From<Memory> for AuditFault {
    ghost from_gives = { λ _ fault. fault ≡ NoMemory };

    fn from(_: Memory) -> AuditFault {
        AuditFault::Memory
    }
}

// Returns the offset after the first line feed of a text, or the text's length if it has none.
fn line_end(text: &[u8]) -> usize
    ensures first { (front behind : List ℕ) → text.now ≡ front ++ 10 ∷ behind → All (λ c. c ≢ 10) front
        → result ≡ length front + 1 }
    ensures within { result ≤ length text.now }
    ensures some { text.now ≢ [] → 0 < result }
{
    match split_once(text, b'\n') {
        Some((line, _)) => line.len() + 1,
        None => text.len(),
    }
}

// Splits a text after its first line. The line keeps its line feed, if it has one.
fn first_line(text: &[u8]) -> (&[u8], &[u8])
    ensures joined { text.now ≡ result.0.now ++ result.1.now }
    ensures ends { (front behind : List ℕ) → text.now ≡ front ++ 10 ∷ behind → All (λ c. c ≢ 10) front
        → (result.0.now ≡ front ++ 10 ∷ []) × (result.1.now ≡ behind) }
    ensures smaller { text.now ≢ [] → length result.1.now < length text.now }
{
    let end = line_end(text);
    (&text[..end], &text[end..])
}

// Returns the event of a line, if it has one.
fn happening_in(line: Option<AuditLine>) -> Option<ConnectionEvent>
    ensures { result ≡ happening_in line }
{
    match line {
        Some(AuditLine::Happened(happened)) => Some(happened),
        Some(AuditLine::Stands { .. }) => None,
        None => None,
    }
}

// Reads the event whose line is a prefix of a text. Returns it with the remainder; `None` if there is no such event.
fn prefix_happening<'a>(
    alloc: Global,
    encoding: &mut BackwardBuffer,
    text: &'a [u8],
    table: &Table,
    declared: &Declarations,
) -> Result<Option<(ConnectionEvent, &'a [u8])>, Memory>
    requires valid { IsValid table.now }
    requires some { text.now ≢ [] }
    ensures told { IfOk result (λ r. MatchOption r
        (HasNoLine table.now declared.now text.now)
        (λ p. (text.now ≡ audit_line table.now p.0 ++ p.1.now) × IsWritable table.now declared.now p.0)) }
    ensures smaller { IfOk result (λ r. IfSome r (λ p. length p.1.now < length text.now)) }
{
    line_splits_into_words();
    let (line, behind) = first_line(text);
    match happening_in(read_line(alloc, encoding, line, table, declared)?) {
        None => Ok(None),
        Some(happened) => Ok(Some((happened, behind))),
    }
}

/// Reads the history whose audit a text is, under a table and declared policies.
///
/// # Errors
///
/// `Bad` comes exactly if the text is the audit of no history of writable events, and has its first line that isn't an
/// event's. `Memory` means out of memory.
pub fn read_audit(
    alloc: Global,
    text: &[u8],
    table: &Table,
    declared: &Declarations,
) -> Result<Sequence<ConnectionEvent>, AuditFault>
    requires { IsValid table.now }
    ensures told { IfOk result (λ h. text.now ≡ audit table.now h) }
    ensures writable { IfOk result (λ h. All (IsWritable table.now declared.now) h) }
    ensures bad { IfErr result (IfBad (IsFirstInvalidLine table.now declared.now text.now)) }
    ensures only { (h : History) → All (IsWritable table.now declared.now) h → text.now ≡ audit table.now h
        → MatchResult result (λ k. k ≡ h) (λ fault. fault ≡ AuditFault.Memory) }
    ensures only_bad { (line : ℕ) → IsFirstInvalidLine table.now declared.now text.now line
        → MatchResult result (λ _. ⊥) (λ fault. (fault ≡ AuditFault.Bad line) ⊎ (fault ≡ AuditFault.Memory)) }
{
    history_of_text_is_unique();
    first_invalid_line_is_unique();
    let mut history = Sequence::new(alloc);
    let mut encoding = BackwardBuffer::new(alloc)?;
    let mut rest = text;
    while !rest.is_empty() {
        let Some((happened, behind)) = prefix_happening(
            alloc,
            &mut encoding,
            rest,
            table,
            declared,
        )?
        else {
            return Err(AuditFault::Bad {
                line: history.len() as u64 + 1,
            });
        };
        history.push(happened)?;
        rest = behind;
    }
    Ok(history)
}
