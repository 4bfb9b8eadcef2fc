//! The faults of a proto file.

ghost use Rattle.std.specs.Prelude.{List, ℕ, ◌≡◌, ◌<◌, ◌^◌, length, IfOk};
ghost use Rattle.diagnostics.specs.Locations.{IsLocatedIn};
ghost use Rattle.diagnostics.specs.Diagnostics.{IsSourceOf};
ghost use Rattle.proto_schema.specs.Faults.{IsFaultOf, IsProtoTextOf as IsTextOfFile};
ghost use Rattle.proto_grammar.specs.declared.fault.ProtoFault.TheVariants.{At};

use crate::commands::only;
use crate::expected::say_expected;
use crate::fault_line::FaultLine;
use crate::set::explain_set;
use crate::violations::violation_diagnostic;
use diagnostics::{Diagnostic, DiagnosticText, QuotedPhrase, SourceSpan};
use mrpc_table::Memory;
use proto_ast::{File, Span};
use proto_grammar::{ProtoFault, ProtoReason};
use proto_schema::{alone_is_ordered, read_proto};
use proto_set::is_bundle;
use schema_resolve::{ResolveFault, resolve};
use std::alloc::Global;

// The length from which a text isn't read again. No input that a command reads is this long.
pub(crate) const TOO_LONG: usize = 0x1000_0000;

// The fault of a proto file or a set of files.
pub(crate) fn explain_check<'a>(
    alloc: Global,
    input: &'a [u8],
    fault: &FaultLine<'_>,
    front: &mut DiagnosticText,
) -> Result<Diagnostic<'a>, Memory>
    ensures { IfOk result (λ f. IsLocatedIn input.now f.part) }
{
    if input.len() > TOO_LONG {
        return only(alloc, b"the input has a fault");
    }
    if is_bundle(input) {
        explain_set(alloc, input, fault, front)
    } else {
        explain_file(alloc, input)
    }
}

// The fault of a single file.
fn explain_file<'a>(alloc: Global, text: &'a [u8]) -> Result<Diagnostic<'a>, Memory>
    requires short { length text.now < 2 ^ 62 }
    ensures { IfOk result (λ f. IsLocatedIn text.now f.part) }
{
    match read_proto(alloc, text) {
        Ok(file) => explain_resolved(alloc, text, &file),
        Err(
            ProtoFault::At {
                reason,
                start,
                end,
                ..
            },
        ) => token_diagnostic(alloc, text, reason, start, end),
        Err(ProtoFault::Memory) => Err(Memory),
    }
}

// The fault of the names and numbers of a file that was read.
fn explain_resolved<'a>(
    alloc: Global,
    text: &'a [u8],
    file: &File,
) -> Result<Diagnostic<'a>, Memory>
    requires read { IsTextOfFile text.now file.now }
    ensures { IfOk result (λ f. IsLocatedIn text.now f.part) }
{
    alone_is_ordered();
    match resolve(alloc, file) {
        Err(
            ResolveFault::At {
                reason,
                start,
                end,
                line,
            },
        ) => violation_diagnostic(alloc, text, file, reason, Span { start, end, line }),
        Err(ResolveFault::Memory) => Err(Memory),
        Ok(_) => only(alloc, b"the input has a fault"),
    }
}

// What is wrong with the first token at fault of a text.
pub(crate) fn token_diagnostic<'a>(
    alloc: Global,
    text: &'a [u8],
    reason: ProtoReason,
    start: usize,
    end: usize,
) -> Result<Diagnostic<'a>, Memory>
    ensures { (input : List ℕ) (line : ℕ) → IsSourceOf input text.now → IsFaultOf text.now (At reason start end line)
        → IfOk result (λ f. IsLocatedIn input f.part) }
{
    let mut sentence = DiagnosticText::new(alloc);
    say_token(alloc, text, reason, start, end, &mut sentence)?;
    Ok(Diagnostic {
        sentence,
        part: Some(SourceSpan::of(text, start, end)),
    })
}

fn say_token(
    alloc: Global,
    text: &[u8],
    reason: ProtoReason,
    start: usize,
    end: usize,
    sentence: &mut DiagnosticText,
) -> Result<(), Memory> {
    match token_words(reason) {
        None => say_expected(alloc, text, start, end, sentence),
        Some(words) => sentence.append_phrase(words, text, start, end),
    }
}

// The words before the token and after it; `None` if the diagnostic lists the tokens that can be there.
fn token_words(reason: ProtoReason) -> Option<QuotedPhrase> {
    match reason {
        ProtoReason::Token => Some(QuotedPhrase::quoted("no token begins with ", "")),
        ProtoReason::Expected => None,
        ProtoReason::Import => Some(QuotedPhrase::quoted(
            "expected a path in quotation marks or \"public\" behind \"import\", found ",
            "",
        )),
        ProtoReason::Stream => Some(QuotedPhrase::alone(
            "an rpc of this profile has one request and one reply: \"stream\" can't stand here",
        )),
        ProtoReason::Group => Some(QuotedPhrase::alone(
            "\"group\" isn't part of proto3: a message's name stands here",
        )),
        ProtoReason::Extend => Some(QuotedPhrase::quoted(
            "extensions aren't part of this profile: ",
            " can't stand here",
        )),
        ProtoReason::Syntax2 => Some(QuotedPhrase::quoted(
            "expected syntax = \"proto3\"; as the first statement, found ",
            "",
        )),
        ProtoReason::Nesting => Some(QuotedPhrase::alone(
            "at most 32 messages stand in one another, and this is the 33rd",
        )),
    }
}
