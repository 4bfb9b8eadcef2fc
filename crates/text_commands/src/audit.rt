//! Checks an audit: prints whether its history is legal, or the first fault of the input.

ghost use Rattle.std.specs.Prelude.{◌≡◌, ◌≢◌, ◌≤◌, ◌⊎◌, ◌++◌, List, ℕ, length, IfOk, IfErr, OnOk};
ghost use Rattle.mrpc_base.specs.Failures.{HasCause};
ghost use Rattle.mrpc_table.specs.Valid.{IsValid};
ghost use Rattle.policy_declarations.specs.Declarations.{AreValidDeclarations};
ghost use Rattle.audit_check.specs.Inputs.{IsAuditInput};
ghost use Rattle.text_commands.specs.Auditing.{HasAuditedText, IsAuditAnswer, IsAuditFault, IsFailureOf, HasSmallLineNumber, HasRejectedAudit, answer_line, rule_word};
ghost use Rattle.text_commands.specs.Stopping.{HasEndedEarly};

use crate::discard;
use crate::fault_line::write_fault;
use crate::laws::{audit_law, line_number_law};
use crate::status::{DONE, FAULTY_INPUT, INPUT_FAILED, NO_COMMAND, NO_MEMORY, OUTPUT_FAILED};
use audit_check::{AuditInput, Checked, check_audit, read_audit_input};
use audit_rules::Rule;
use audit_text::AuditFault;
use mrpc_base::{MAX_INPUT, Sink, write_all};
use mrpc_table::{Bytes, Memory};
use script_grammar::ScriptFault;
use std::alloc::Global;

// Why an audit gets no verdict.
#[derive(Drop, Clone, Copy)]
enum AuditFailure {
    // The input has its first fault on this line; `word` is the word of its reason.
    At { line: u64, word: &'static str },
    // Out of memory.
    Memory,
}

impl From<Memory> for AuditFailure {
    ghost use Rattle.std.specs.Prelude.{◌≡◌};
    ghost use Rattle.text_commands.specs.declared.audit.AuditFailure.TheVariants.{Memory as NoMemory};

    ghost from_gives = { λ _ failure. failure ≡ NoMemory };

    fn from(_: Memory) -> AuditFailure {
        AuditFailure::Memory
    }
}

/// An input has one answer or one first fault, never both.
pub fn audit_answer_is_unique()
    ensures answers { (input one other : List ℕ) → IsAuditAnswer input one → IsAuditAnswer input other → one ≡ other }
    ensures faults { (input word spelled : List ℕ) (line at : ℕ) → IsAuditFault input line word
        → IsAuditFault input at spelled → (line ≡ at) × (word ≡ spelled) }
    ensures never_both { (input answer word : List ℕ) (line : ℕ) → IsAuditAnswer input answer
        → IsAuditFault input line word → ⊥ }
    ensures never_neither { (input : List ℕ) → ((answer : List ℕ) → IsAuditAnswer input answer → ⊥)
        → ((line : ℕ) (word : List ℕ) → IsAuditFault input line word → ⊥) → ⊥ }
{
    audit_law();
}

/// Reads an audit with its table and policies from an input of at most [`MAX_INPUT`] bytes. Writes whether
/// its history is legal, or the first fault of the input as one line.
pub fn audit_to<K: Sink>(alloc: Global, text: &[u8], out: &mut K) -> u8
    requires short { length text.now ≤ MAX_INPUT }
    ensures statuses { result ≤ OUTPUT_FAILED }
    ensures some { (result ≢ NO_COMMAND) × (result ≢ INPUT_FAILED) }
    ensures done { result ≡ DONE → HasAuditedText text.now (K.written out.old) (K.written out.new) }
    ensures faulty { result ≡ FAULTY_INPUT → HasRejectedAudit text.now (K.written out.old) (K.written out.new) }
    ensures early { (result ≡ NO_MEMORY) ⊎ (result ≡ OUTPUT_FAILED) → HasEndedEarly (HasAuditedText text.now)
        (HasRejectedAudit text.now) (K.written out.old) (K.written out.new) }
    ensures out_cause { HasCause (result ≡ OUTPUT_FAILED) (K.failures out.old) (K.failures out.new) }
{
    match audited_text(alloc, text) {
        Ok(answer) => {
            if write_all(out, answer.as_slice()) {
                DONE
            } else {
                OUTPUT_FAILED
            }
        }
        Err(AuditFailure::At { line, word }) => write_fault(alloc, line, word.as_bytes(), out),
        Err(AuditFailure::Memory) => NO_MEMORY,
    }
}

// The line for an audit: whether its history is legal.
fn audited_text(alloc: Global, input: &[u8]) -> Result<Bytes, AuditFailure>
    requires short { length input.now ≤ MAX_INPUT }
    ensures answer { IfOk result (IsAuditAnswer input.now) }
    ensures failure { IfErr result (IsFailureOf input.now) }
{
    match read_audit_input(alloc, input) {
        Ok(read) => {
            let answer = audit_answer(alloc, &read);
            discard(read);
            answer
        }
        Err(ScriptFault::At { line, reason }) => Err(AuditFailure::At {
            line,
            word: reason.word(),
        }),
        Err(ScriptFault::Memory) => Err(AuditFailure::Memory),
    }
}

// Like `audited_text`, for an input that was already read.
fn audit_answer(alloc: Global, read: &AuditInput<'_>) -> Result<Bytes, AuditFailure>
    requires short { (input : List ℕ)
        × IsAuditInput input read.now.loads read.now.table read.now.declared read.now.text.now read.now.line
        × (length input ≤ MAX_INPUT) }
    requires valid { IsValid read.now.table }
    requires sound { AreValidDeclarations read.now.declared }
    ensures answer { (input : List ℕ)
        → IsAuditInput input read.now.loads read.now.table read.now.declared read.now.text.now read.now.line
        → IfOk result (IsAuditAnswer input) }
    ensures failure { (input : List ℕ)
        → IsAuditInput input read.now.loads read.now.table read.now.declared read.now.text.now read.now.line
        → IfErr result (IsFailureOf input) }
{
    line_number_law();
    match check_audit(alloc, &read.table, &read.declared, read.loads, read.text) {
        Ok(checked) => Ok(answer_line(alloc, read.line, checked)?),
        Err(AuditFault::Bad { line }) => Err(AuditFailure::At {
            line: read.line + line,
            word: "Audit",
        }),
        Err(AuditFault::Memory) => Err(AuditFailure::Memory),
    }
}

// The line for a text that starts after `before` lines of the input.
fn answer_line(alloc: Global, before: u64, checked: Checked) -> Result<Bytes, Memory>
    requires { HasSmallLineNumber before checked }
    ensures { IfOk result (λ line. line ≡ answer_line before checked) }
{
    let mut line = Bytes::new(alloc);
    append_answer(&mut line, before, checked)?;
    Ok(line)
}

fn append_answer(line: &mut Bytes, before: u64, checked: Checked) -> Result<(), Memory>
    requires { HasSmallLineNumber before checked }
    ensures { OnOk result (line.new ≡ line.old ++ answer_line before checked) }
{
    match checked {
        Checked::Legal { happenings, stands } => {
            line.append(b"legal")?;
            line.append_word(happenings)?;
            line.append_word(stands)?;
            line.append(b"\n")
        }
        Checked::Illegal { line: at, rule } => {
            line.append(b"illegal")?;
            line.append_word(before + at)?;
            line.append(b" ")?;
            line.append(rule_word(rule).as_bytes())?;
            line.append(b"\n")
        }
    }
}

// The word of a rule.
fn rule_word(rule: Rule) -> &'static str
    ensures { result.now ≡ rule_word rule }
{
    match rule {
        Rule::A => "a",
        Rule::B => "b",
        Rule::C => "c",
        Rule::D => "d",
        Rule::E => "e",
        Rule::F => "f",
        Rule::G => "g",
        Rule::Stands => "stands",
    }
}
