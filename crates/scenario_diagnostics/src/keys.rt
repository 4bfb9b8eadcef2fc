//! Keys that the entry doesn't have, keys that are missing, and values of another type.

use crate::forms::{Choice, KeyForm, ValueForm, choice_of, keys_of};
use crate::site::{DiagnosedPart, EntryPart, Site, say_at};
use crate::values::{fits, say_type};
use crate::{Phrase, append_phrases};
use mrpc_table::{Bytes, is_word};
use toml::{Table, Value};

// Appends which key of an entry is at fault.
pub(crate) fn say_key<'a>(out: &mut Bytes, site: &Site<'a>) -> DiagnosedPart<'a> {
    let keys = keys_of(site.at, site.entry);
    if !keys.is_empty() {
        if let Some(spot) = say_against(out, keys, site.entry)? {
            return Ok(Some(spot));
        }
    }
    match choice_of(site.at, site.entry) {
        Some(choice) => say_choice(out, site.entry, choice),
        None => Ok(None),
    }
}

// Appends the first fault: a key that isn't in the list or whose value has another type, or else a missing
// key.
fn say_against<'a>(out: &mut Bytes, keys: &[KeyForm], entry: &'a Table) -> DiagnosedPart<'a> {
    for (name, value) in entry.iter() {
        if let Some(spot) = say_wrong(out, keys, name.as_str(), value)? {
            return Ok(Some(spot));
        }
    }
    for key in keys {
        if key.2 && !entry.contains_key(key.0) {
            return say_missing(out, key.0);
        }
    }
    Ok(None)
}

// Appends that a key isn't in the list, or that its value has another type.
fn say_wrong<'a>(
    out: &mut Bytes,
    keys: &[KeyForm],
    name: &'a str,
    value: &Value,
) -> DiagnosedPart<'a> {
    match taken_at(keys, name) {
        Some(takes) if fits(takes, value) => Ok(None),
        Some(takes) => say_type(out, name, takes, value),
        None => say_no_key(out, keys, name),
    }
}

// The values that a key takes; `None` if it isn't in the list.
fn taken_at(keys: &[KeyForm], name: &str) -> Option<ValueForm> {
    for key in keys {
        if is_word(key.0.as_bytes(), name.as_bytes()) {
            return Some(key.1);
        }
    }
    None
}

fn say_no_key<'a>(out: &mut Bytes, keys: &[KeyForm], name: &'a str) -> DiagnosedPart<'a> {
    let mut between = " is none of its keys, which are ";
    append_phrases(out, &[Phrase::Text(": "), Phrase::Quoted(name.as_bytes())])?;
    for key in keys {
        append_phrases(out, &[Phrase::Text(between), Phrase::Text(key.0)])?;
        between = ", ";
    }
    Ok(Some(EntryPart { key: name, line: 0 }))
}

// Appends that a key is missing.
fn say_missing(out: &mut Bytes, key: &str) -> DiagnosedPart<'static> {
    say_at(
        out,
        "",
        &[
            Phrase::Text(": the key "),
            Phrase::Quoted(key.as_bytes()),
            Phrase::Text(" is missing"),
        ],
    )
}

// Appends what is wrong with the word at a key that takes one of a few words.
fn say_choice(out: &mut Bytes, entry: &Table, choice: Choice) -> DiagnosedPart<'static> {
    let (key, choices) = choice;
    let Some(value) = entry.get(key) else {
        return say_missing(out, key);
    };
    let Some(word) = value.as_str() else {
        return say_type(out, key, ValueForm::Text, value);
    };
    say_at(
        out,
        key,
        &[
            Phrase::Text(": "),
            Phrase::Text(key),
            Phrase::Text(" is "),
            Phrase::Quoted(word.as_bytes()),
            Phrase::Text("; it may be "),
            Phrase::Text(choices),
        ],
    )
}
