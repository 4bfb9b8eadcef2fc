//! The faults of a set of files.

ghost use Rattle.std.specs.Prelude.{List, ℕ, ◌≡◌, ◌<◌, ◌≤◌, ◌^◌, length, Contains, IfOk, IfSome};
ghost use Rattle.diagnostics.specs.Locations.{IsLocatedIn};
ghost use Rattle.diagnostics.specs.Diagnostics.{IsSourceOf};
ghost use Rattle.proto_set.specs.Bundle.{IsBundle};

use crate::check::{TOO_LONG, token_diagnostic};
use crate::commands::only;
use crate::fault_line::FaultLine;
use crate::limits::LIMITS;
use diagnostics::{Diagnostic, DiagnosticText, SourceSpan, TextLine, WordText, text_for, text_or};
use mrpc_table::Memory;
use proto_ast::{File, Import};
use proto_grammar::ProtoFault;
use proto_schema::read_proto;
use proto_set::{BundleFault, Named, read_bundle};
use std::alloc::Global;

// The words for a reason, before the path of an import.
const IMPORTS: [WordText; 3] = [
    ("Missing", "no file of the set has the path "),
    ("Twice", "an import before this one has the path "),
    ("Cycle", "imports lead back to this file from "),
];

// The words for a reason about something in a line.
const LINES: [WordText; 12] = [
    (
        "Missing",
        "no file of the set has the path of an import of this line",
    ),
    ("Twice", "an import before has the path of one of this line"),
    (
        "Cycle",
        "imports lead back to this file from one of this line",
    ),
    (
        "UnknownName",
        "no message or enum that this file sees is named so, or no message as the type of an rpc",
    ),
    (
        "NumberRange",
        "a number is out of range: fields have 1 to 536870911 without 19000 to 19999, values of enums 32 bits",
    ),
    (
        "DuplicateNumber",
        "an earlier field of the message has this number",
    ),
    (
        "DuplicateName",
        "something earlier in the same scope has this name",
    ),
    (
        "Reserved",
        "a number or a name is reserved by a \"reserved\" statement around it",
    ),
    ("FirstEnum", "the first value of an enum is 0 in proto3"),
    (
        "MapKey",
        "expected an integer type, \"bool\" or \"string\" as the key of a map",
    ),
    (
        "MapPlace",
        "a map can't stand under a label, in a oneof or as the value of a map",
    ),
    ("Limit", LIMITS),
];

// The fault of a set of files; names the file by its path.
pub(crate) fn explain_set<'a>(
    alloc: Global,
    input: &'a [u8],
    fault: &FaultLine<'_>,
    front: &mut DiagnosticText,
) -> Result<Diagnostic<'a>, Memory>
    requires { IsBundle input.now }
    ensures { IfOk result (λ f. IsLocatedIn input.now f.part) }
{
    let files = match read_bundle(alloc, input) {
        Ok(files) => files,
        Err(BundleFault::Bundle { file }) => return missing_file(alloc, file),
        Err(BundleFault::Memory) => return Err(Memory),
    };
    let number = fault.file.unwrap_or(fault.place);
    match nth_file(files.as_slice(), number) {
        Some(file) => explain_set_file(alloc, file, fault, front),
        None => only(alloc, b"the input has a fault"),
    }
}

// The file with this number, from 1.
fn nth_file<'a, 'b>(files: &'b [Named<'a>], number: u64) -> Option<&'b Named<'a>>
    ensures { IfSome result (λ file. Contains files.now file.now) }
{
    if number == 0 || number > files.len() as u64 {
        return None;
    }
    Some(&files[(number - 1) as usize])
}

// The diagnostic for a file that isn't there.
fn missing_file<'a>(alloc: Global, file: u32) -> Result<Diagnostic<'a>, Memory>
    ensures { (input : List ℕ) → IfOk result (λ f. IsLocatedIn input f.part) }
{
    let mut sentence = DiagnosticText::new(alloc);
    sentence.append_numbered(b"file ", u64::from(file))?;
    sentence.append(
        b" of the set: expected a line \"file PATH BYTES\" with as many bytes behind it, for 1 to 64 files",
    )?;
    Ok(Diagnostic::alone(sentence))
}

// The fault of a file of a set.
fn explain_set_file<'a>(
    alloc: Global,
    file: &Named<'a>,
    fault: &FaultLine<'_>,
    front: &mut DiagnosticText,
) -> Result<Diagnostic<'a>, Memory>
    ensures { (input : List ℕ) → IsSourceOf input file.now.text.now → IfOk result (λ f. IsLocatedIn input f.part) }
{
    if fault.file.is_none() {
        front.append_quotation(file.path)?;
        return only(
            alloc,
            b": expected a path that no file before has, 1 to 255 letters, digits, \"_\", \"-\", \".\" or \"/\"",
        );
    }
    front.append(file.path)?;
    front.append(b":")?;
    if file.text.len() > TOO_LONG {
        return only(alloc, b"the file has a fault");
    }
    match read_proto(alloc, file.text) {
        Ok(read) => explain_read(alloc, file.text, &read, fault),
        Err(
            ProtoFault::At {
                reason,
                start,
                end,
                ..
            },
        ) => token_diagnostic(alloc, file.text, reason, start, end),
        Err(ProtoFault::Memory) => Err(Memory),
    }
}

// The fault of an import, a name or a number of a file that was read, on the reported line.
fn explain_read<'a>(
    alloc: Global,
    text: &'a [u8],
    file: &File,
    fault: &FaultLine<'_>,
) -> Result<Diagnostic<'a>, Memory>
    ensures { (input : List ℕ) → IsSourceOf input text.now → IfOk result (λ f. IsLocatedIn input f.part) }
{
    let words = text_for(&IMPORTS, fault.reason);
    match (words, import_at(file.imports.as_slice(), fault.place)) {
        (Some(words), Some(import)) => import_diagnostic(alloc, text, import, words),
        _ => line_diagnostic(alloc, text, fault),
    }
}

// The fault of an import.
fn import_diagnostic<'a>(
    alloc: Global,
    text: &'a [u8],
    import: &Import,
    words: &'static str,
) -> Result<Diagnostic<'a>, Memory>
    ensures { (input : List ℕ) → IsSourceOf input text.now → IfOk result (λ f. IsLocatedIn input f.part) }
{
    let mut sentence = DiagnosticText::new(alloc);
    sentence.append_quoted(words.as_bytes(), import.path.as_slice())?;
    Ok(Diagnostic::in_line(
        sentence,
        SourceSpan::of(text, import.span.start, import.span.end),
    ))
}

// The fault of something in a line.
fn line_diagnostic<'a>(
    alloc: Global,
    text: &'a [u8],
    fault: &FaultLine<'_>,
) -> Result<Diagnostic<'a>, Memory>
    ensures { (input : List ℕ) → IsSourceOf input text.now → IfOk result (λ f. IsLocatedIn input f.part) }
{
    let mut sentence = DiagnosticText::new(alloc);
    sentence.append(text_or(&LINES, fault.reason, "the file is at fault here").as_bytes())?;
    Ok(Diagnostic::in_line(sentence, TextLine::of(text, fault.place).trimmed()))
}

// The import on a line; `None` if there is none, or several.
fn import_at(imports: &[Import], line: u64) -> Option<&Import> {
    let mut found = None;
    for import in imports {
        if import.span.line == line {
            if found.is_some() {
                return None;
            }
            found = Some(import);
        }
    }
    found
}
