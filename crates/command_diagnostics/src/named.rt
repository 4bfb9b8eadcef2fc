//! Names and numbers that are used already in a file.

use diagnostics::{DiagnosticText, QuotedPhrase};
use mrpc_table::{Decimal, Memory};
use proto_ast::{EnumDecl, FieldDecl, File, MessageDecl, ServiceDecl, Span, Word};

// Appends which earlier field of its message has the number at the span.
pub(crate) fn say_earlier_number(
    text: &[u8],
    file: &File,
    span: Span,
    sentence: &mut DiagnosticText,
) -> Result<(), Memory> {
    match earlier_number(file, span) {
        Some(field) => {
            let words = QuotedPhrase::quoted("number ", " is used by ");
            sentence.append_phrase(words, text, span.start, span.end)?;
            sentence.append_quotation(field.name.name.as_slice())?;
            say_line(field.number.span, sentence)
        }
        None => {
            let words = QuotedPhrase::quoted("number ", " is used already");
            sentence.append_phrase(words, text, span.start, span.end)
        }
    }
}

// Appends on which line the name at the span was used already.
pub(crate) fn say_earlier_name(
    text: &[u8],
    file: &File,
    span: Span,
    sentence: &mut DiagnosticText,
) -> Result<(), Memory> {
    let words = QuotedPhrase::quoted("the name ", " is used");
    sentence.append_phrase(words, text, span.start, span.end)?;
    match earlier_name(file, span) {
        Some(earlier) => say_line(earlier, sentence),
        None => sentence.append(b" already in this scope"),
    }
}

fn say_line(span: Span, sentence: &mut DiagnosticText) -> Result<(), Memory> {
    sentence.append_numbered(b" in line ", span.line)?;
    sentence.append(b" already")
}

// The first field that has the number at the span and is before the field there.
fn earlier_number(file: &File, span: Span) -> Option<&FieldDecl> {
    for message in file.messages.as_slice() {
        if let Some(field) = earlier_field(message.fields.as_slice(), span) {
            return Some(field);
        }
    }
    None
}

fn earlier_field(fields: &[FieldDecl], span: Span) -> Option<&FieldDecl> {
    let value = value_at(fields, span)?;
    for field in fields {
        if field.number.span.start < span.start && field.number.value == value {
            return Some(field);
        }
    }
    None
}

// The number at the span.
fn value_at(fields: &[FieldDecl], span: Span) -> Option<Decimal> {
    for field in fields {
        if field.number.span.start == span.start {
            return Some(field.number.value);
        }
    }
    None
}

// Where a name is looked up: among the methods of a service, in a message, in an enum's scope, or in the
// file.
#[derive(Clone, Copy)]
enum Scope {
    // The methods of the service with this index.
    Service(usize),
    // The members of the message with this index.
    Message(usize),
    // The declarations outside messages.
    File,
}

// The span of the first member of the scope that has the name at the span.
fn earlier_name(file: &File, span: Span) -> Option<Span> {
    let (scope, own) = named_at(file, span)?;
    match scope {
        Scope::Service(place) => {
            let service = file.services.as_slice().get(place)?;
            first_of_rpcs(service, own)
        }
        Scope::Message(place) => first_in_scope(file, Some(place), own),
        Scope::File => first_in_scope(file, None, own),
    }
}

fn scope_of(parent: Option<usize>) -> Scope {
    match parent {
        Some(place) => Scope::Message(place),
        None => Scope::File,
    }
}

// The name of a declaration at the span.
pub(crate) fn name_at(file: &File, span: Span) -> Option<&Word> {
    let (_, word) = named_at(file, span)?;
    Some(word)
}

// The name at the span, and its scope.
fn named_at(file: &File, span: Span) -> Option<(Scope, &Word)> {
    if let Some(found) = named_in_messages(file.messages.as_slice(), span) {
        return Some(found);
    }
    if let Some(found) = named_in_enums(file.enums.as_slice(), span) {
        return Some(found);
    }
    named_in_services(file.services.as_slice(), span)
}

fn named_in_messages(messages: &[MessageDecl], span: Span) -> Option<(Scope, &Word)> {
    for (place, message) in messages.iter().enumerate() {
        if is_at_span(&message.name, span) {
            return Some((scope_of(message.parent), &message.name));
        }
        if let Some(own) = named_in_message(message, span) {
            return Some((Scope::Message(place), own));
        }
    }
    None
}

fn named_in_message(message: &MessageDecl, span: Span) -> Option<&Word> {
    for field in message.fields.as_slice() {
        if is_at_span(&field.name, span) {
            return Some(&field.name);
        }
    }
    for oneof in message.oneofs.as_slice() {
        if is_at_span(oneof, span) {
            return Some(oneof);
        }
    }
    None
}

fn named_in_enums(enums: &[EnumDecl], span: Span) -> Option<(Scope, &Word)> {
    for choices in enums {
        if is_at_span(&choices.name, span) {
            return Some((scope_of(choices.parent), &choices.name));
        }
        for value in choices.values.as_slice() {
            if is_at_span(&value.name, span) {
                return Some((scope_of(choices.parent), &value.name));
            }
        }
    }
    None
}

fn named_in_services(services: &[ServiceDecl], span: Span) -> Option<(Scope, &Word)> {
    for (place, service) in services.iter().enumerate() {
        if is_at_span(&service.name, span) {
            return Some((Scope::File, &service.name));
        }
        for rpc in service.rpcs.as_slice() {
            if is_at_span(&rpc.name, span) {
                return Some((Scope::Service(place), &rpc.name));
            }
        }
    }
    None
}

// Whether the name is at the span.
pub(crate) fn is_at_span(word: &Word, span: Span) -> bool {
    word.span.start == span.start
}

// Whether a name is equal to a later one.
fn is_earlier(word: &Word, own: &Word) -> bool {
    word.span.start < own.span.start && word.name.as_slice() == own.name.as_slice()
}

fn first_of_rpcs(service: &ServiceDecl, own: &Word) -> Option<Span> {
    for rpc in service.rpcs.as_slice() {
        if is_earlier(&rpc.name, own) {
            return Some(rpc.name.span);
        }
    }
    None
}

// The first member of a message's scope, or of the file's, that has this name and is before it.
fn first_in_scope(file: &File, scope: Option<usize>, own: &Word) -> Option<Span> {
    let mut first = None;
    for (place, message) in file.messages.as_slice().iter().enumerate() {
        if scope == Some(place) {
            note_parts(&mut first, message, own);
        }
        if message.parent == scope {
            note(&mut first, &message.name, own);
        }
    }
    for choices in file.enums.as_slice() {
        if choices.parent == scope {
            note_enum(&mut first, choices, own);
        }
    }
    if scope.is_none() {
        for service in file.services.as_slice() {
            note(&mut first, &service.name, own);
        }
    }
    first
}

fn note_parts(first: &mut Option<Span>, message: &MessageDecl, own: &Word) {
    for field in message.fields.as_slice() {
        note(first, &field.name, own);
    }
    for oneof in message.oneofs.as_slice() {
        note(first, oneof, own);
    }
}

fn note_enum(first: &mut Option<Span>, choices: &EnumDecl, own: &Word) {
    note(first, &choices.name, own);
    for value in choices.values.as_slice() {
        note(first, &value.name, own);
    }
}

// Keeps a name's span if it is equal to `own` and before the span that is kept.
fn note(first: &mut Option<Span>, word: &Word, own: &Word) {
    let is_first = match first {
        Some(span) => word.span.start < span.start,
        None => true,
    };
    if is_first && is_earlier(word, own) {
        *first = Some(word.span);
    }
}
