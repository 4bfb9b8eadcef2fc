//! The types that a text names, as far as its lines need to be read.

ghost use Rattle.std.specs.Prelude.{◌++◌, ℕ, List, IfOk, IfSome, OnOk};
ghost use Rattle.std.specs.List.{filter_map};
ghost use Rattle.std.specs.Option.{option_to_list};
ghost use Rattle.mrpc_table.specs.Lines.{whole_lines};
ghost use Rattle.table_text.specs.Lines.{without_prefix, line_of};
ghost use Rattle.table_text.specs.NameIndex.{AreNames};
ghost use Rattle.table_text.specs.Reach.{used_by_kind, used_by_label, used_by, used_by_line, used_in, used_with_prefix, AreLongParts, AreKnown};

use crate::name_index::NameIndex;
use crate::{KindWord, LabelWord, TableLine, line_of, without_prefix};
use mrpc_table::{MAX_TEXT, Memory, split_once};
use std::alloc::Global;

// What follows a prefix, in each whole line of a text that has it.
fn names_with_prefix(alloc: Global, prefix: &[u8], text: &[u8]) -> Result<NameIndex, Memory>
    ensures { IfOk result (λ p. AreNames p (filter_map (without_prefix prefix.now) (whole_lines text.now))) }
{
    let mut names = NameIndex::new(alloc);
    let mut rest = text;
    while let Some((line, others)) = split_once(rest, b'\n') {
        add_with_prefix(alloc, &mut names, prefix, line)?;
        rest = others;
    }
    Ok(names)
}

fn add_with_prefix(
    alloc: Global,
    names: &mut NameIndex,
    prefix: &[u8],
    line: &[u8],
) -> Result<(), Memory>
    ensures { (old : List (List ℕ)) → AreNames names.old old
        → OnOk result (AreNames names.new (old ++ option_to_list (without_prefix prefix.now line.now))) }
{
    if let Some(name) = without_prefix(prefix, line) {
        names.add(alloc, name)?;
    }
    Ok(())
}

// The full names of the types that the whole lines of a text use.
fn names_used(alloc: Global, text: &[u8]) -> Result<NameIndex, Memory>
    ensures { IfOk result (λ p. AreNames p (used_in (whole_lines text.now))) }
{
    let mut names = NameIndex::new(alloc);
    let mut rest = text;
    while let Some((line, others)) = split_once(rest, b'\n') {
        add_line(alloc, &mut names, line)?;
        rest = others;
    }
    Ok(names)
}

fn add_line(alloc: Global, names: &mut NameIndex, text: &[u8]) -> Result<(), Memory>
    ensures { (old : List (List ℕ)) → AreNames names.old old
        → OnOk result (AreNames names.new (old ++ used_by_line (line_of text.now))) }
{
    match line_of(alloc, text)? {
        Some(line) => add_used(alloc, names, &line),
        None => Ok(()),
    }
}

fn add_used(alloc: Global, names: &mut NameIndex, line: &TableLine) -> Result<(), Memory>
    ensures { (old : List (List ℕ)) → AreNames names.old old → OnOk result (AreNames names.new (old ++ used_by line.now)) }
{
    match line {
        TableLine::Field(field) => {
            add_label(alloc, names, &field.label)?;
            add_kind(alloc, names, &field.kind)
        }
        TableLine::Method(method) => {
            names.add(alloc, method.input.as_slice())?;
            names.add(alloc, method.output.as_slice())
        }
        _ => Ok(()),
    }
}

fn add_label(alloc: Global, names: &mut NameIndex, label: &LabelWord) -> Result<(), Memory>
    ensures { (old : List (List ℕ)) → AreNames names.old old
        → OnOk result (AreNames names.new (old ++ used_by_label label.now)) }
{
    match label {
        LabelWord::Map(key) => add_kind(alloc, names, key),
        LabelWord::Plain
        | LabelWord::Optional
        | LabelWord::Repeated
        | LabelWord::Packed
        | LabelWord::Member(_) => Ok(()),
    }
}

fn add_kind(alloc: Global, names: &mut NameIndex, kind: &KindWord) -> Result<(), Memory>
    ensures { (old : List (List ℕ)) → AreNames names.old old
        → OnOk result (AreNames names.new (old ++ used_by_kind kind.now)) }
{
    match kind {
        KindWord::Scalar(_) => Ok(()),
        KindWord::Message(name) | KindWord::Choice(name) => names.add(alloc, name.as_slice()),
    }
}

// What follows a prefix, in each whole near line that has it, and in each far one if it is one of the used names.
fn names_within(
    alloc: Global,
    prefix: &[u8],
    near: &[u8],
    used: &NameIndex,
    far: &[u8],
) -> Result<NameIndex, Memory>
    ensures { (wanted : List (List ℕ)) → AreNames used.now wanted → IfOk result (λ p. AreNames p
        (filter_map (without_prefix prefix.now) (whole_lines near.now)
        ++ filter_map (used_with_prefix wanted prefix.now) (whole_lines far.now))) }
{
    let mut names = names_with_prefix(alloc, prefix, near)?;
    if used.is_empty() {
        return Ok(names);
    }
    let mut rest = far;
    while let Some((line, others)) = split_once(rest, b'\n') {
        add_used_with_prefix(alloc, &mut names, prefix, used, line)?;
        rest = others;
    }
    Ok(names)
}

fn add_used_with_prefix(
    alloc: Global,
    names: &mut NameIndex,
    prefix: &[u8],
    used: &NameIndex,
    line: &[u8],
) -> Result<(), Memory>
    ensures { (old wanted : List (List ℕ)) → AreNames names.old old → AreNames used.now wanted
        → OnOk result (AreNames names.new (old ++ option_to_list (used_with_prefix wanted prefix.now line.now))) }
{
    let Some(name) = without_prefix(prefix, line) else {
        return Ok(());
    };
    if !used.contains(name) {
        return Ok(());
    }
    names.add(alloc, name)
}

// The lines up to the first that ends past the largest size of a text, and the lines after it.
fn long_parts(text: &[u8]) -> Option<(&[u8], &[u8])>
    ensures { IfSome result (λ p. AreLongParts text.now p.0.now p.1.now) }
{
    if text.len() <= MAX_TEXT {
        return None;
    }
    let (_, far) = split_once(&text[MAX_TEXT..], b'\n')?;
    Some((&text[..text.len() - far.len()], far))
}

fn known_in(alloc: Global, text: &[u8]) -> Result<(NameIndex, NameIndex), Memory>
    ensures { IfOk result (λ p. AreKnown text.now p.0 p.1) }
{
    let enums = names_with_prefix(alloc, b"enum ", text)?;
    let messages = names_with_prefix(alloc, b"message ", text)?;
    Ok((enums, messages))
}

fn known_near(alloc: Global, near: &[u8], far: &[u8]) -> Result<(NameIndex, NameIndex), Memory>
    ensures { (text : List ℕ) → AreLongParts text near.now far.now → IfOk result (λ p. AreKnown text p.0 p.1) }
{
    let used = names_used(alloc, near)?;
    let enums = names_within(alloc, b"enum ", near, &used, far)?;
    let messages = names_within(alloc, b"message ", near, &used, far)?;
    Ok((enums, messages))
}

// The enums and messages by which the lines of a text are checked. A text that is too long has a fault at the line that
// passes the largest size, or earlier. So of the types in later lines, only those are kept that the lines up to that
// one use.
pub(crate) fn known_types(alloc: Global, text: &[u8]) -> Result<(NameIndex, NameIndex), Memory>
    ensures { IfOk result (λ p. AreKnown text.now p.0 p.1) }
{
    match long_parts(text) {
        None => known_in(alloc, text),
        Some((near, far)) => known_near(alloc, near, far),
    }
}
