//! The violation by a name or a number of a proto file.

ghost use Rattle.std.specs.Prelude.{List, ℕ, IfOk};
ghost use Rattle.diagnostics.specs.Locations.{IsLocatedIn};
ghost use Rattle.diagnostics.specs.Diagnostics.{IsSourceOf};
ghost use Rattle.proto_schema.specs.Faults.{IsProtoTextOf as IsTextOfFile};
ghost use Rattle.schema_resolve.specs.Resolving.{IsFaultOf};
ghost use Rattle.schema_resolve.specs.declared.fault.ResolveFault.TheVariants.{At};

use crate::limits::limit_words;
use crate::named::{say_earlier_name, say_earlier_number};
use diagnostics::{Diagnostic, DiagnosticText, QuotedPhrase, SourceSpan};
use mrpc_table::Memory;
use proto_ast::{File, Span};
use schema_validation::ResolveReason;
use std::alloc::Global;

// The diagnostic for the first name or number at fault of a file that was read.
pub(crate) fn violation_diagnostic<'a>(
    alloc: Global,
    text: &'a [u8],
    file: &File,
    reason: ResolveReason,
    span: Span,
) -> Result<Diagnostic<'a>, Memory>
    ensures { (input : List ℕ) → IsSourceOf input text.now → IsTextOfFile text.now file.now
        → IsFaultOf file.now (At reason span.start span.end span.line) → IfOk result (λ f. IsLocatedIn input f.part) }
{
    let mut sentence = DiagnosticText::new(alloc);
    say_violation(text, file, reason, span, &mut sentence)?;
    Ok(Diagnostic {
        sentence,
        part: Some(SourceSpan::of(text, span.start, span.end)),
    })
}

fn say_violation(
    text: &[u8],
    file: &File,
    reason: ResolveReason,
    span: Span,
    sentence: &mut DiagnosticText,
) -> Result<(), Memory> {
    match reason {
        ResolveReason::DuplicateNumber => say_earlier_number(text, file, span, sentence),
        ResolveReason::DuplicateName => say_earlier_name(text, file, span, sentence),
        ResolveReason::Limit => sentence.append(limit_words(file, span).as_bytes()),
        _ => sentence.append_phrase(violation_words(reason), text, span.start, span.end),
    }
}

// The words before the name or the number, and after it.
fn violation_words(reason: ResolveReason) -> QuotedPhrase {
    match reason {
        ResolveReason::UnknownName => {
            QuotedPhrase::quoted(
                "no message or enum is named ",
                " here; the types of an rpc are messages",
            )
        }
        ResolveReason::NumberRange => QuotedPhrase::quoted(
            "",
            " is out of range: fields have 1 to 536870911 without 19000 to 19999, values of enums -2147483648 to \
             2147483647",
        ),
        ResolveReason::DuplicateNumber => QuotedPhrase::quoted("the number ", " is used already"),
        ResolveReason::DuplicateName => QuotedPhrase::quoted("the name ", " is used already"),
        ResolveReason::Reserved => QuotedPhrase::quoted(
            "",
            " is reserved by a \"reserved\" statement around it",
        ),
        ResolveReason::FirstEnum => QuotedPhrase::quoted(
            "the first value of an enum is 0 in proto3, found ",
            "",
        ),
        ResolveReason::MapKey => QuotedPhrase::quoted(
            "expected an integer type, \"bool\" or \"string\" as the key of a map, found ",
            "",
        ),
        ResolveReason::MapPlace => QuotedPhrase::quoted(
            "the map ",
            " can't stand under a label, in a oneof or as the value of a map",
        ),
        ResolveReason::Limit => QuotedPhrase::alone("past a limit of tables"),
        ResolveReason::Import => QuotedPhrase::alone(
            "a file by itself imports nothing: its imports have to come with it, as a set of files",
        ),
    }
}
