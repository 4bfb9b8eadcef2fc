//! The fault of a command.

ghost use Rattle.std.specs.Prelude.{List, ℕ, IfOk};
ghost use Rattle.diagnostics.specs.Diagnostics.{IsDiagnosticOf, IsPlain};
ghost use Rattle.diagnostics.specs.Locations.{IsLocatedIn};

use crate::check::explain_check;
use crate::fault_line::{FAULT, FaultLine};
use crate::frames::explain_decode;
use crate::lines::{Format, explain_line};
use crate::run::explain_run;
use diagnostics::{Diagnostic, DiagnosticText};
use mrpc_table::{Bytes, Memory, is_word};
use std::alloc::Global;

/// The fault of a command's input, in lines for a person, given the line `fault ..` that the command wrote.
/// Lines of the input are cut to `width` bytes.
pub fn explain_fault(
    alloc: Global,
    command: &[u8],
    input: &[u8],
    fault: &[u8],
    width: usize,
) -> Result<Bytes, Memory>
    ensures { IfOk result (IsDiagnosticOf input.now width) }
{
    let mut front = DiagnosticText::new(alloc);
    say_failed(input, &mut front)?;
    match found(alloc, command, input, fault, &mut front) {
        Ok(finding) => lines_of(alloc, &front, &finding, width),
        Err(fault) => Err(fault),
    }
}

// Appends that the input is the output of a command that failed, if it is.
fn say_failed(input: &[u8], front: &mut DiagnosticText) -> Result<(), Memory> {
    if !input.starts_with(FAULT) {
        return Ok(());
    }
    front.append(b"the input is what a command wrote that failed: it begins with \"fault \"")?;
    front.end_line()
}

// The lines of a diagnostic.
fn lines_of(
    alloc: Global,
    front: &DiagnosticText,
    finding: &Diagnostic<'_>,
    width: usize,
) -> Result<Bytes, Memory>
    ensures { (input : List ℕ) → IsLocatedIn input finding.now.part → IfOk result (IsDiagnosticOf input width) }
{
    let mut out = Bytes::from_slice(alloc, front.as_slice())?;
    finding.put(width, &mut out)?;
    Ok(out)
}

/// Says which words are no command line, in a line for a person.
pub fn explain_usage(alloc: Global, words: &[String]) -> Result<Bytes, Memory>
    ensures { IfOk result IsPlain }
{
    let mut line = DiagnosticText::new(alloc);
    say_no_command(words, &mut line)?;
    Ok(Bytes::from_slice(alloc, line.as_slice())?)
}

fn say_no_command(words: &[String], line: &mut DiagnosticText) -> Result<(), Memory> {
    line.append(b"mrpc: \"")?;
    say_words(words, line)?;
    line.append(b"\" is no command")?;
    line.end_line()
}

// Appends the words, with a blank between two.
fn say_words(words: &[String], line: &mut DiagnosticText) -> Result<(), Memory> {
    for (place, word) in words.iter().enumerate() {
        if place > 0 {
            line.append(b" ")?;
        }
        line.append(word.as_bytes())?;
    }
    Ok(())
}

// The diagnostic for the input. `front` gets the path of a file of a set, which comes before it.
fn found<'a>(
    alloc: Global,
    command: &[u8],
    input: &'a [u8],
    fault: &[u8],
    front: &mut DiagnosticText,
) -> Result<Diagnostic<'a>, Memory>
    ensures { IfOk result (λ f. IsLocatedIn input.now f.part) }
{
    let Some(fault) = FaultLine::of(fault) else {
        return only(alloc, b"the input has a fault");
    };
    if is_word(fault.reason, b"Input") {
        return only(alloc, b"the input has more than 16777216 bytes");
    }
    if is_word(command, b"check") {
        return explain_check(alloc, input, &fault, front);
    }
    if is_word(command, b"decode") {
        return explain_decode(alloc, input, &fault);
    }
    if is_word(command, b"run") {
        return explain_run(alloc, input);
    }
    let format = if is_word(command, b"audit") {
        Format::Audit
    } else {
        Format::Replay
    };
    explain_line(alloc, input, &fault, format)
}

// A sentence alone.
pub(crate) fn only<'a>(alloc: Global, words: &[u8]) -> Result<Diagnostic<'a>, Memory>
    ensures { (input : List ℕ) → IfOk result (λ f. IsLocatedIn input f.part) }
{
    let mut sentence = DiagnosticText::new(alloc);
    sentence.append(words)?;
    Ok(Diagnostic::alone(sentence))
}
