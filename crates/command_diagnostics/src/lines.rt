//! The faults of texts of lines: scripts, the text before frames, and audits.

ghost use Rattle.std.specs.Prelude.{IfOk};
ghost use Rattle.diagnostics.specs.Locations.{IsLocatedIn};

use crate::fault_line::{FAULT, FaultLine};
use crate::line_forms::line_form;
use crate::line_reasons::reason_sentence;
use crate::word_at_fault::{WordAtFault, word_at_fault};
use diagnostics::{Diagnostic, DiagnosticText, TextLine, WordText, text_or};
use mrpc_table::{Memory, is_word};
use script_grammar::first_word;
use std::alloc::Global;

// What is missing at the end of a text, by the reason.
const MISSING: [WordText; 3] = [
    ("Default", "the default of a policy"),
    ("Syntax", "the value 0 of an enum"),
    ("Number", "the value 0 of an enum"),
];

// The format of a text of lines.
#[derive(Clone, Copy)]
pub(crate) enum Format {
    // A script, which `replay` reads.
    Replay,
    // The text before the frames that `decode` reads.
    Decode,
    // An audit.
    Audit,
}

impl Format {
    fn first_line(self) -> &'static str {
        match self {
            Format::Replay => "mrpc-replay 1",
            Format::Decode => "mrpc-decode 1",
            Format::Audit => "mrpc-audit 1",
        }
    }

    // The line whose absence is a fault of its own.
    fn last_line(self) -> &'static str {
        match self {
            Format::Audit => "audit",
            _ => "close",
        }
    }
}

// The fault of a line of a text.
pub(crate) fn explain_line<'a>(
    alloc: Global,
    text: &'a [u8],
    fault: &FaultLine<'_>,
    format: Format,
) -> Result<Diagnostic<'a>, Memory>
    ensures { IfOk result (λ f. IsLocatedIn text.now f.part) }
{
    let mut sentence = DiagnosticText::new(alloc);
    let line = TextLine::of(text, fault.place);
    let found = word_at_fault(&line, fault.reason, format);
    say_line(&line, fault.reason, format, found, &mut sentence)?;
    let part = match found {
        Some(word) => line.word(word.place),
        None => line.trimmed(),
    };
    Ok(Diagnostic::in_line(sentence, part))
}

// Appends the fault of a line, and how the line ends.
fn say_line(
    line: &TextLine<'_>,
    reason: &[u8],
    format: Format,
    found: Option<WordAtFault>,
    sentence: &mut DiagnosticText,
) -> Result<(), Memory> {
    say_fault(line, reason, format, found, sentence)?;
    say_end(line, sentence)
}

fn say_fault(
    line: &TextLine<'_>,
    reason: &[u8],
    format: Format,
    found: Option<WordAtFault>,
    sentence: &mut DiagnosticText,
) -> Result<(), Memory> {
    if line.bytes.is_empty() {
        return say_missing(line, reason, format, sentence);
    }
    if is_word(reason, b"Header") {
        return sentence.append_quoted(
            b"expected the first line to be ",
            format.first_line().as_bytes(),
        );
    }
    say_reason(line, reason, format, found, sentence)
}

// Appends what is missing at the end of the text, or that a line is empty.
fn say_missing(
    line: &TextLine<'_>,
    reason: &[u8],
    format: Format,
    sentence: &mut DiagnosticText,
) -> Result<(), Memory> {
    if line.start < line.text.len() {
        return sentence.append(b"an empty line can't stand here");
    }
    sentence.append(b"the text ends here, and a line is missing: ")?;
    sentence.append(missing_line(line.text, reason, format).as_bytes())
}

fn missing_line(text: &[u8], reason: &[u8], format: Format) -> &'static str {
    if is_word(reason, b"Word") && !has_table(text) {
        return "table";
    }
    if is_word(reason, b"Header") {
        return format.first_line();
    }
    if is_word(reason, b"Close") {
        return format.last_line();
    }
    text_or(&MISSING, reason, "the end of the table or of a policy")
}

// Whether a text starts its table on the line where it may.
fn has_table(text: &[u8]) -> bool {
    is_word(TextLine::of(text, 2).bytes, b"table") || is_word(TextLine::of(text, 3).bytes, b"table")
}

// Appends the fault of a line that isn't empty.
fn say_reason(
    line: &TextLine<'_>,
    reason: &[u8],
    format: Format,
    found: Option<WordAtFault>,
    sentence: &mut DiagnosticText,
) -> Result<(), Memory> {
    match found {
        Some(word) => word.append(line, sentence)?,
        None if is_of_form(reason) => return say_form(line, reason, format, sentence),
        None => sentence.append(reason_sentence(reason, first_word(line.bytes).0).as_bytes())?,
    }
    match line_form(first_word(line.bytes).0, format) {
        Some(form) => sentence.append_quoted(b", in ", form.as_bytes()),
        None => Ok(()),
    }
}

// Whether a reason is about the form of a line.
fn is_of_form(reason: &[u8]) -> bool {
    is_word(reason, b"Word") || is_word(reason, b"Syntax") || is_word(reason, b"Audit")
}

// Appends the form of a line, by its first word, or that no line starts with that word.
fn say_form(
    line: &TextLine<'_>,
    reason: &[u8],
    format: Format,
    sentence: &mut DiagnosticText,
) -> Result<(), Memory> {
    let word = first_word(line.bytes).0;
    match line_form(word, format) {
        Some(form) => {
            sentence.append_quoted(b"expected ", form.as_bytes())?;
            sentence.append(form_rule(reason).as_bytes())
        }
        None => {
            sentence.append_quoted(b"no line begins with ", word)?;
            sentence.append(b" here")
        }
    }
}

// The rule for a line besides its form.
fn form_rule(reason: &[u8]) -> &'static str {
    if is_word(reason, b"Audit") {
        ", with numbers in their ranges, names that are declared, and the encoding of a copy"
    } else {
        ", in its place, with one blank between two words"
    }
}

// Appends that a command wrote the line, or how the line ends if that isn't a single line feed.
fn say_end(line: &TextLine<'_>, sentence: &mut DiagnosticText) -> Result<(), Memory> {
    if line.start > 0 && line.bytes.starts_with(FAULT) {
        return sentence.append(b"; this is what a command wrote that failed");
    }
    if line.bytes.ends_with(b"\r") {
        return sentence.append(b"; the line ends in CR and LF, and lines end in LF alone");
    }
    if line.is_unterminated() && !line.bytes.is_empty() {
        return sentence.append(b"; no line feed stands behind the line");
    }
    Ok(())
}
