//! Which limit of tables a name of a proto file exceeds.

use crate::named::{is_at_span, name_at};
use mrpc_table::{MAX_ENUMS, MAX_FIELDS, MAX_MESSAGES, MAX_METHODS, MAX_NAME, MAX_VALUES};
use proto_ast::{EnumDecl, File, MessageDecl, ServiceDecl, Span};

// All limits, for a name whose limit isn't known.
pub(crate) const LIMITS: &str =
    "past a limit: 256 messages, enums or rpcs, 128 fields of a message, 1024 values of an \
    enum, 64 bytes of a name, 255 of a full name, 65536 of the table's text";

// The limit that the name at the span exceeds.
pub(crate) fn limit_words(file: &File, span: Span) -> &'static str {
    if is_message_past(file.messages.as_slice(), span) {
        return "a table has 256 messages at the most, and this is the 257th";
    }
    if is_enum_past(file.enums.as_slice(), span) {
        return "a table has 256 enums at the most, and this is the 257th";
    }
    if is_rpc_past(file.services.as_slice(), span) {
        return "a table has 256 rpcs at the most, and this is the 257th";
    }
    if is_field_past(file.messages.as_slice(), span) {
        return "a message has 128 fields at the most, and this is the 129th";
    }
    if is_value_past(file.enums.as_slice(), span) {
        return "an enum has 1024 values at the most, and this is the 1025th";
    }
    match name_at(file, span) {
        Some(word) if word.name.as_slice().len() > MAX_NAME => "a name has 64 bytes at the most",
        Some(_) =>
            "a full name has 255 bytes at the most, and a table's text 65536, with the line of this name",
        None => "the name of a package has 255 bytes at the most, and each part of it 64",
    }
}

fn is_message_past(messages: &[MessageDecl], span: Span) -> bool {
    messages.len() > MAX_MESSAGES && is_at_span(&messages[MAX_MESSAGES].name, span)
}

fn is_enum_past(enums: &[EnumDecl], span: Span) -> bool {
    enums.len() > MAX_ENUMS && is_at_span(&enums[MAX_ENUMS].name, span)
}

// Whether the first rpc past the limit is at the span. The rpcs of all services count together.
fn is_rpc_past(services: &[ServiceDecl], span: Span) -> bool {
    let mut left = MAX_METHODS;
    for service in services {
        let rpcs = service.rpcs.as_slice();
        if rpcs.len() > left {
            return is_at_span(&rpcs[left].name, span);
        }
        left -= rpcs.len();
    }
    false
}

fn is_field_past(messages: &[MessageDecl], span: Span) -> bool {
    for message in messages {
        let fields = message.fields.as_slice();
        if fields.len() > MAX_FIELDS && is_at_span(&fields[MAX_FIELDS].name, span) {
            return true;
        }
    }
    false
}

fn is_value_past(enums: &[EnumDecl], span: Span) -> bool {
    for choices in enums {
        let values = choices.values.as_slice();
        if values.len() > MAX_VALUES && is_at_span(&values[MAX_VALUES].name, span) {
            return true;
        }
    }
    false
}
