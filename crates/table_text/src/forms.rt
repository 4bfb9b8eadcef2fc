//! Lines by their form.

ghost use Rattle.std.specs.Prelude.{◌≡◌, ◌++◌, ◌∷◌, ◌==◌, ◌&&◌, ℕ, [], List, length, IfOk, IfSome, MatchOption};
ghost use Rattle.mrpc_table.specs.Lines.{words_of};
ghost use Rattle.mrpc_table.specs.Names.{is_name_form, is_full_form};
ghost use Rattle.table_text.specs.Lines.{line_of, enum_line_of, value_line_of, message_line_of, field_line_of, method_line_of};

use crate::line::{FieldLine, MethodLine, TableLine};
use crate::words::{enum_number_of, full_name_of, index_of, kind_of, label_of, name_of};
use mrpc_table::{Bytes, Memory, is_full_form, is_name_form, is_word, split_once};
use std::alloc::Global;

// The first word and the line after it, if there are at least two words.
fn next_word(line: &[u8]) -> Option<(&[u8], &[u8])>
    ensures { MatchOption result (words_of line.now ≡ line.now ∷ [])
        (λ p. words_of line.now ≡ p.0.now ∷ words_of p.1.now) }
{
    split_once(line, b' ')
}

// The word of a line that has only one.
fn only_word(line: &[u8]) -> Option<&[u8]>
    ensures one { IfSome result (λ word. words_of line.now ≡ word.now ∷ []) }
    ensures more { MatchOption result
        ((a b : List ℕ) × (others : List (List ℕ)) × (words_of line.now ≡ a ∷ b ∷ others))
        (λ word. word.now ≡ line.now) }
{
    match next_word(line) {
        None => Some(line),
        Some(_) => None,
    }
}

// `enum FULLNAME`, without its first word.
fn enum_line(alloc: Global, line: &[u8]) -> Result<Option<TableLine>, Memory>
    ensures { IfOk result (λ r. r ≡ enum_line_of (words_of line.now)) }
{
    let Some(name) = only_word(line) else {
        return Ok(None);
    };
    match full_name_of(alloc, name)? {
        Some(name) => Ok(Some(TableLine::Enum(name))),
        None => Ok(None),
    }
}

// `message FULLNAME`, without its first word.
fn message_line(alloc: Global, line: &[u8]) -> Result<Option<TableLine>, Memory>
    ensures { IfOk result (λ r. r ≡ message_line_of (words_of line.now)) }
{
    let Some(name) = only_word(line) else {
        return Ok(None);
    };
    match full_name_of(alloc, name)? {
        Some(name) => Ok(Some(TableLine::Message(name))),
        None => Ok(None),
    }
}

// `value NUMBER NAME`, without its first word.
fn value_line(alloc: Global, line: &[u8]) -> Result<Option<TableLine>, Memory>
    ensures { IfOk result (λ r. r ≡ value_line_of (words_of line.now)) }
{
    let Some((number, rest)) = next_word(line) else {
        return Ok(None);
    };
    let Some(name) = only_word(rest) else {
        return Ok(None);
    };
    let Some(number) = enum_number_of(number) else {
        return Ok(None);
    };
    match name_of(alloc, name)? {
        Some(name) => Ok(Some(TableLine::Value(number, name))),
        None => Ok(None),
    }
}

// `field NUMBER LABEL KIND NAME`, without its first word.
fn field_line(alloc: Global, line: &[u8]) -> Result<Option<TableLine>, Memory>
    ensures { IfOk result (λ r. r ≡ field_line_of (words_of line.now)) }
{
    let Some((number, rest)) = next_word(line) else {
        return Ok(None);
    };
    let Some((label, rest)) = next_word(rest) else {
        return Ok(None);
    };
    let Some((kind, rest)) = next_word(rest) else {
        return Ok(None);
    };
    let Some(name) = only_word(rest) else {
        return Ok(None);
    };
    field_of_words(alloc, number, label, kind, name)
}

fn field_of_words(
    alloc: Global,
    number: &[u8],
    label: &[u8],
    kind: &[u8],
    name: &[u8],
) -> Result<Option<TableLine>, Memory>
    ensures { IfOk result (λ r. r ≡ field_line_of (number.now ∷ label.now ∷ kind.now ∷ name.now ∷ [])) }
{
    let Some(number) = index_of(number) else {
        return Ok(None);
    };
    let Some(label) = label_of(alloc, label)? else {
        return Ok(None);
    };
    let Some(kind) = kind_of(alloc, kind)? else {
        return Ok(None);
    };
    let Some(name) = name_of(alloc, name)? else {
        return Ok(None);
    };
    Ok(Some(TableLine::Field(FieldLine {
        number,
        label,
        kind,
        name,
    })))
}

// `method INDEX SERVICE NAME INPUT OUTPUT`, without its first word.
fn method_line(alloc: Global, line: &[u8]) -> Result<Option<TableLine>, Memory>
    ensures { IfOk result (λ r. r ≡ method_line_of (words_of line.now)) }
{
    let Some((index, rest)) = next_word(line) else {
        return Ok(None);
    };
    let Some((service, rest)) = next_word(rest) else {
        return Ok(None);
    };
    let Some((name, rest)) = next_word(rest) else {
        return Ok(None);
    };
    let Some((input, rest)) = next_word(rest) else {
        return Ok(None);
    };
    let Some(output) = only_word(rest) else {
        return Ok(None);
    };
    method_of_words(alloc, index, service, name, input, output)
}

// Whether the names of a method have the form of names.
fn are_method_names(service: &[u8], name: &[u8], input: &[u8], output: &[u8]) -> bool
    ensures { result ≡ is_full_form service.now && is_name_form name.now && is_full_form input.now
        && is_full_form output.now }
{
    is_full_form(service) && is_name_form(name) && is_full_form(input) && is_full_form(output)
}

fn method_of_words(
    alloc: Global,
    index: &[u8],
    service: &[u8],
    name: &[u8],
    input: &[u8],
    output: &[u8],
) -> Result<Option<TableLine>, Memory>
    ensures { IfOk result (λ r. r ≡ method_line_of (index.now ∷ service.now ∷ name.now ∷ input.now ∷ output.now ∷ [])) }
{
    let Some(index) = index_of(index) else {
        return Ok(None);
    };
    if !are_method_names(service, name, input, output) {
        return Ok(None);
    }
    Ok(Some(TableLine::Method(MethodLine {
        index,
        service: Bytes::from_slice(alloc, service)?,
        name: Bytes::from_slice(alloc, name)?,
        input: Bytes::from_slice(alloc, input)?,
        output: Bytes::from_slice(alloc, output)?,
    })))
}

/// Parses a line. `None` if it doesn't have the form of a line.
#[tactic(auto, unfolding(crate::specs::Lines::line_of))]
pub fn line_of(alloc: Global, line: &[u8]) -> Result<Option<TableLine>, Memory>
    ensures { IfOk result (λ r. r ≡ line_of line.now) }
{
    let Some((first, rest)) = next_word(line) else {
        return Ok(None);
    };
    if is_word(first, b"enum") {
        enum_line(alloc, rest)
    } else if is_word(first, b"value") {
        value_line(alloc, rest)
    } else if is_word(first, b"message") {
        message_line(alloc, rest)
    } else if is_word(first, b"field") {
        field_line(alloc, rest)
    } else if is_word(first, b"method") {
        method_line(alloc, rest)
    } else {
        Ok(None)
    }
}
