//! The reasons for which a line is at fault.

ghost use Rattle.std.specs.Prelude.{◌≡◌, ◌<◌, ◌++◌, ◌∷◌, ℕ, [], length, not, IfOk, OnOk, Some};
ghost use Rattle.mrpc_table.specs.Names.{is_short, is_short_full};
ghost use Rattle.mrpc_table.specs.Words.{is_numeric, is_key};
ghost use Rattle.table_text.specs.Faults.{is_key_kind};
ghost use Rattle.table_text.specs.LineTests.{clashes, is_short_kind, is_short_label, has_field_number, is_index, has_short_names, has_one_too_many, exceeds_limit, has_map_key_fault, has_syntax_fault, has_number_fault};
ghost use Rattle.table_text.specs.Drafts.{names_before_line};

use crate::draft::TableDraft;
use crate::{EnumNumber, KindWord, LabelWord, TableLine};
use mrpc_table::{
    Kind, MAX_FIELDS, MAX_METHODS, MAX_TEXT, MAX_VALUES, is_field_number, is_short, is_short_full,
};

fn clashes(label: &LabelWord, kind: &KindWord) -> bool
    ensures { result ≡ clashes label.now kind.now }
{
    match label {
        LabelWord::Optional => matches!(kind, KindWord::Message(_)),
        LabelWord::Packed => match kind {
            KindWord::Scalar(kind) => !kind.is_numeric(),
            KindWord::Message(_) => true,
            KindWord::Choice(_) => false,
        },
        LabelWord::Plain | LabelWord::Repeated | LabelWord::Map(_) | LabelWord::Member(_) => false,
    }
}

fn has_field_number(number: Option<u32>) -> bool
    ensures { result ≡ has_field_number number }
{
    match number {
        Some(n) => is_field_number(u64::from(n)),
        None => false,
    }
}

fn is_index(index: Option<u32>, count: usize) -> bool
    ensures { result ≡ is_index index count }
{
    match index {
        Some(i) => i as usize == count,
        None => false,
    }
}

// A line out of order, a label that doesn't go with its kind, or an enum without a value.
pub(crate) fn has_syntax_fault(draft: &TableDraft, line: &TableLine) -> bool
    ensures { result ≡ has_syntax_fault (names_before_line draft.now) line.now }
{
    let part = &draft.open_part;
    match line {
        TableLine::Enum(name) => {
            part.lacks_value()
                || draft.has_messages()
                || !draft.methods.is_empty()
                || draft.is_enum_below_last(name.as_slice())
        }
        TableLine::Value(number, name) => part.is_value_out_of_order(*number, name.as_slice()),
        TableLine::Message(name) => {
            part.lacks_value()
                || !draft.methods.is_empty()
                || draft.is_message_below_last(name.as_slice())
        }
        TableLine::Field(field) => {
            clashes(&field.label, &field.kind) || part.is_field_out_of_order(field.number)
        }
        TableLine::Method(_) => part.lacks_value(),
    }
}

// A number out of its range, an enum without a value 0, or an index that isn't the next one.
pub(crate) fn has_number_fault(draft: &TableDraft, line: &TableLine) -> bool
    ensures { result ≡ has_number_fault (names_before_line draft.now) line.now }
{
    let part = &draft.open_part;
    match line {
        TableLine::Enum(_) | TableLine::Message(_) => part.lacks_zero(),
        TableLine::Value(number, _) => !matches!(number, EnumNumber::Within(_)),
        TableLine::Field(field) => !has_field_number(field.number),
        TableLine::Method(method) => {
            part.lacks_zero() || !is_index(method.index, draft.methods.len())
        }
    }
}

fn is_key_kind(kind: &KindWord) -> bool
    ensures { result ≡ is_key_kind kind.now }
{
    match kind {
        KindWord::Scalar(kind) => kind.is_key(),
        KindWord::Message(_) | KindWord::Choice(_) => false,
    }
}

// A map key that is neither integral, nor a bool, nor a string.
pub(crate) fn has_map_key_fault(line: &TableLine) -> bool
    ensures { result ≡ has_map_key_fault line.now }
{
    match line {
        TableLine::Field(field) => match &field.label {
            LabelWord::Map(key) => !is_key_kind(key),
            LabelWord::Plain
            | LabelWord::Optional
            | LabelWord::Repeated
            | LabelWord::Packed
            | LabelWord::Member(_) => false,
        },
        TableLine::Enum(_)
        | TableLine::Message(_)
        | TableLine::Value(_, _)
        | TableLine::Method(_) => false,
    }
}

fn is_short_kind(kind: &KindWord) -> bool
    ensures { result ≡ is_short_kind kind.now }
{
    match kind {
        KindWord::Scalar(_) => true,
        KindWord::Message(name) | KindWord::Choice(name) => is_short_full(name.as_slice()),
    }
}

fn is_short_label(label: &LabelWord) -> bool
    ensures { result ≡ is_short_label label.now }
{
    match label {
        LabelWord::Map(key) => is_short_kind(key),
        LabelWord::Member(name) => is_short(name.as_slice()),
        _ => true,
    }
}

fn has_short_names(line: &TableLine) -> bool
    ensures { result ≡ has_short_names line.now }
{
    match line {
        TableLine::Enum(name) | TableLine::Message(name) => is_short_full(name.as_slice()),
        TableLine::Value(_, name) => is_short(name.as_slice()),
        TableLine::Field(field) => {
            is_short_label(&field.label)
                && is_short_kind(&field.kind)
                && is_short(field.name.as_slice())
        }
        TableLine::Method(method) => {
            is_short_full(method.service.as_slice())
                && is_short(method.name.as_slice())
                && is_short_full(method.input.as_slice())
                && is_short_full(method.output.as_slice())
        }
    }
}

fn has_one_too_many(draft: &TableDraft, line: &TableLine) -> bool
    ensures { result ≡ has_one_too_many (names_before_line draft.now) line.now }
{
    match line {
        TableLine::Enum(_) => draft.is_full_of_enums(),
        TableLine::Value(_, _) => draft.open_part.count() >= MAX_VALUES,
        TableLine::Message(_) => draft.is_full_of_messages(),
        TableLine::Field(_) => draft.open_part.count() >= MAX_FIELDS,
        TableLine::Method(_) => draft.methods.len() >= MAX_METHODS,
    }
}

// A name that is too long, one part too many, or too many bytes up to the end of the line.
pub(crate) fn exceeds_limit(draft: &TableDraft, bytes: usize, line: &TableLine) -> bool
    ensures { result ≡ exceeds_limit (names_before_line draft.now) bytes line.now }
{
    !has_short_names(line) || has_one_too_many(draft, line) || bytes > MAX_TEXT
}
