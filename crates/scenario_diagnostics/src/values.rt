//! Values of another type than their key takes.

use crate::Phrase;
use crate::forms::ValueForm;
use crate::site::{DiagnosedPart, say_at};
use mrpc_table::Bytes;
use toml::Value;

// Whether a value has the type that a key takes.
pub(crate) fn fits(takes: ValueForm, value: &Value) -> bool {
    match takes {
        ValueForm::Text => value.is_str(),
        ValueForm::Number(_, _) => value.is_integer(),
        ValueForm::Flag => value.is_bool(),
        ValueForm::Texts => holds_all(value, false),
        ValueForm::Tables => holds_all(value, true),
    }
}

// Whether a value is a list of tables, or one of texts.
fn holds_all(value: &Value, tables: bool) -> bool {
    let Some(items) = value.as_array() else {
        return false;
    };
    for item in items {
        let fits = if tables {
            item.is_table()
        } else {
            item.is_str()
        };
        if !fits {
            return false;
        }
    }
    true
}

// Appends that the value at a key has another type.
pub(crate) fn say_type<'a>(
    out: &mut Bytes,
    name: &'a str,
    takes: ValueForm,
    value: &Value,
) -> DiagnosedPart<'a> {
    say_at(
        out,
        name,
        &[
            Phrase::Text(": "),
            Phrase::Quoted(name.as_bytes()),
            Phrase::Text(" has a value of type "),
            Phrase::Text(value.type_str()),
            Phrase::Text(", and takes "),
            Phrase::Text(type_words(takes)),
        ],
    )
}

fn type_words(takes: ValueForm) -> &'static str {
    match takes {
        ValueForm::Text => "a string",
        ValueForm::Number(_, _) => "an integer",
        ValueForm::Flag => "true or false",
        ValueForm::Texts => "an array of strings",
        ValueForm::Tables => "an array of tables",
    }
}
