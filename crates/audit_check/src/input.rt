//! Reads the input of `audit` from its text.

ghost use Rattle.std.specs.Prelude.{◌≡◌, ℕ, List, length, IfOk, IfErr, MatchResult};
ghost use Rattle.std.specs.Str.{bytes_eq};
ghost use Rattle.mrpc_table.specs.Valid.{IsValid};
ghost use Rattle.mrpc_table.specs.declared.table.Table.{Table as TheTable};
ghost use Rattle.policy_declarations.specs.Declarations.{Declared, AreValidDeclarations};
ghost use Rattle.script_grammar.specs.declared.fault.ScriptFault.TheVariants.{Memory as OutOfMemory};
ghost use Rattle.audit_check.specs.Inputs.{audit_word, IsAuditInput, IsFaultOfAuditInput};
ghost use Rattle.audit_check.specs.InputStops.{AreReadDeclarations, IsInputStopOf, input_stop_of};

use crate::input_laws::audit_input_or_fault;
use mrpc_table::{Memory, Table, line_count, split_once};
use policy_declarations::{
    DeclarationForm, DeclarationLines, Declarations, declaration_or_fault,
    declaration_preserves_validity, read_declaration,
};
use script_grammar::{ScriptFault, ScriptReason, read_preamble};
use std::alloc::Global;

// The first line, with its line feed.
const FIRST_LINE: &[u8] = b"mrpc-audit 1\n";

// The line before the audit.
const AUDIT: &[u8] = b"audit";

/// The parsed input of `audit`.
#[derive(Drop)]
pub struct AuditInput<'a> {
    /// The limit of words that are loaded for one call, 1 to 16384.
    pub loads: u64,
    pub table: Table,
    /// The declared tenants and policies.
    pub declared: Declarations,
    /// The lines of the audit: the text after the line `audit`.
    pub text: &'a [u8],
    /// The number of the line `audit`, counted from 1.
    pub line: u64,
}

// The declarations before the line `audit`, and the remainder from that line on.
#[derive(Drop)]
struct ReadDeclarations<'a> {
    declared: Declarations,
    // The text from the line `audit` on.
    rest: &'a [u8],
    // The text after that line.
    text: &'a [u8],
}

// Why reading ended before a line `audit`.
#[derive(Clone, Copy)]
enum InputStop {
    // A line with a fault, counted from 1 at the start of the remaining bytes.
    At {
        left: usize,
        line: u64,
        reason: ScriptReason,
    },
    // Out of memory.
    Memory,
}

/// Parses the input of `audit` from a text.
///
/// The format is this project's own. A text starts with `mrpc-audit 1`, `loads N` unless the limit of loads is 1024,
/// and `table`. The canonical text of a table follows, then `end`, tenants and policies, and the line `audit`. Each of
/// these lines ends with a line feed, and none is empty or a comment. Apart from look-ups of names, the time is linear
/// in the length of the text before the audit.
///
/// # Errors
///
/// [`ScriptFault::At`] has the first line with a fault, counted from 1, and its first reason. If the line `audit` is
/// missing, the fault is [`ScriptReason::Close`] at the line after the last one. [`ScriptFault::Memory`] means out of
/// memory.
pub fn read_audit_input(alloc: Global, text: &[u8]) -> Result<AuditInput<'_>, ScriptFault>
    // The result is the input that the text means.
    ensures read { IfOk result (λ a. IsAuditInput text.now a.loads a.table a.declared a.text.now a.line) }
    // If the text is an input, the call returns it, unless it runs out of memory.
    ensures only { (loads : ℕ) (T : TheTable) (d : Declared) (rest : List ℕ) (line : ℕ)
        → IsAuditInput text.now loads T d rest line
        → MatchResult result (λ a. (a.loads ≡ loads) × (a.table ≡ T) × (a.declared ≡ d) × (a.text.now ≡ rest)
        × (a.line ≡ line)) (λ e. e ≡ OutOfMemory) }
    // A fault is the text's: the first line with a fault, and its first reason.
    ensures fault { IfErr result (IsFaultOfAuditInput text.now) }
    // Properties of each input.
    ensures table { IfOk result (λ a. IsValid a.table) }
    ensures declared { IfOk result (λ a. AreValidDeclarations a.declared) }
{
    audit_input_or_fault();
    input_of(alloc, text)
}

fn input_of(alloc: Global, text: &[u8]) -> Result<AuditInput<'_>, ScriptFault>
    ensures { MatchResult result (λ a. IsAuditInput text.now a.loads a.table a.declared a.text.now a.line)
        (IsFaultOfAuditInput text.now) }
{
    declaration_or_fault();
    let front = read_preamble(alloc, text, FIRST_LINE)?;
    match read_declarations(alloc, &front.table, front.behind) {
        Ok(items) => Ok(AuditInput {
            loads: front.loads,
            table: front.table,
            declared: items.declared,
            text: items.text,
            line: line_count(&text[..text.len() - items.rest.len()]) as u64 + 1,
        }),
        Err(InputStop::At { left, line, reason }) => Err(ScriptFault::At {
            line: line_count(&text[..text.len() - left]) as u64 + line,
            reason,
        }),
        Err(InputStop::Memory) => Err(ScriptFault::Memory),
    }
}

// Reads the declarations before the line `audit`, and returns them with the remainder from that line on.
fn read_declarations<'a>(
    alloc: Global,
    table: &Table,
    text: &'a [u8],
) -> Result<ReadDeclarations<'a>, InputStop>
    requires { IsValid table.now }
    ensures { MatchResult result (λ i. AreReadDeclarations table.now text.now i) (IsInputStopOf table.now text.now) }
{
    declaration_or_fault();
    let mut declared = Declarations::new(alloc);
    let mut rest = text;
    while let Some((line, behind)) = split_once(rest, b'\n') {
        if is_audit(line) {
            return Ok(ReadDeclarations {
                declared,
                rest,
                text: behind,
            });
        }
        let Some(form) = DeclarationForm::of(line) else {
            return Err(stopped(rest, ScriptReason::Word));
        };
        let lines = DeclarationLines { form, line, behind };
        match read_declaration(alloc, table, &declared, lines, false) {
            Ok((item, more)) => {
                declaration_preserves_validity();
                declared = declared.with(alloc, item)?;
                rest = more;
            }
            Err(fault) => return Err(stopped_by(rest, fault)),
        }
    }
    let reason = if rest.is_empty() {
        ScriptReason::Close
    } else {
        ScriptReason::Word
    };
    Err(stopped(rest, reason))
}

// Returns true for the line before the audit.
fn is_audit(line: &[u8]) -> bool
    ensures { result ≡ bytes_eq line.now audit_word }
{
    line == AUDIT
}

// The declaration at the start of these bytes has a fault.
fn stopped_by(rest: &[u8], fault: ScriptFault) -> InputStop
    ensures { result ≡ input_stop_of (length rest.now) fault }
{
    match fault {
        ScriptFault::At { line, reason } => InputStop::At {
            left: rest.len(),
            line,
            reason,
        },
        ScriptFault::Memory => InputStop::Memory,
    }
}

// The first line of these bytes has a fault.
fn stopped(rest: &[u8], reason: ScriptReason) -> InputStop
    ensures { result ≡ InputStop.At (length rest.now) 1 reason }
{
    InputStop::At {
        left: rest.len(),
        line: 1,
        reason,
    }
}

impl From<Memory> for InputStop {
    ghost use Rattle.audit_check.specs.declared.input.InputStop.TheVariants as stop;

    ghost from_gives = { λ _ e. e ≡ stop.Memory };

    fn from(_: Memory) -> InputStop {
        InputStop::Memory
    }
}
