//! The words of a line of a table's text.

ghost use Rattle.std.specs.Prelude.{◌≡◌, ◌-◌, ◌^◌, option_map, option_and_then, codes, IfOk};
ghost use Rattle.std.specs.Option.{option_copied};
ghost use Rattle.std.specs.List.{find};
ghost use Rattle.std.specs.Str.{bytes_eq};
ghost use Rattle.mrpc_table.specs.Lines.{number_of};
ghost use Rattle.table_text.specs.Lines.{in_32_bits, enum_number_of, negative, not_negative, without_prefix, name_of, full_name_of, kind_of, label_names, label_of};
ghost use Rattle.table_text.specs.declared.line.KindWord.TheVariants as kinds;
ghost use Rattle.table_text.specs.declared.line.LabelWord.TheVariants as labels;

use crate::line::{EnumNumber, KindWord, LabelWord};
use mrpc_table::{
    Bytes, Decimal, Kind, Memory, Name, is_full_form, is_name_form, is_word, number_of,
};
use std::alloc::Global;

// A number without sign or leading zero; the inner option is `None` if it has more than 32 bits.
pub(crate) fn index_of(word: &[u8]) -> Option<Option<u32>>
    ensures { result ≡ option_map in_32_bits (number_of word.now) }
{
    match number_of(word)? {
        Decimal::Small(number) => Some(u32::try_from(number).ok()),
        Decimal::Large => Some(None),
    }
}

// The number of an enum value: digits, or a `-` and digits.
pub(crate) fn enum_number_of(word: &[u8]) -> Option<EnumNumber>
    ensures { result ≡ enum_number_of word.now }
{
    match word {
        [] => None,
        [45, digits @ ..] => negative(digits),
        _ => not_negative(word),
    }
}

fn negative(digits: &[u8]) -> Option<EnumNumber>
    ensures { result ≡ option_and_then negative (number_of digits.now) }
{
    match number_of(digits)? {
        Decimal::Small(0) => None,
        Decimal::Small(number) if number <= 0x8000_0000 => {
            Some(EnumNumber::Within((-(number as i64)) as i32))
        }
        _ => Some(EnumNumber::Low),
    }
}

fn not_negative(digits: &[u8]) -> Option<EnumNumber>
    ensures { result ≡ option_map not_negative (number_of digits.now) }
{
    match number_of(digits)? {
        Decimal::Small(number) if number < 0x8000_0000 => Some(EnumNumber::Within(number as i32)),
        _ => Some(EnumNumber::High),
    }
}

/// The suffix of a word after a prefix; `None` if the word lacks the prefix.
pub fn without_prefix<'a>(prefix: &[u8], word: &'a [u8]) -> Option<&'a [u8]>
    ensures { option_copied result ≡ without_prefix prefix.now word.now }
{
    word.strip_prefix(prefix)
}

// The word, if it is a name.
pub(crate) fn name_of(alloc: Global, word: &[u8]) -> Result<Option<Name>, Memory>
    ensures { IfOk result (λ r. r ≡ name_of word.now) }
{
    if is_name_form(word) {
        Ok(Some(Bytes::from_slice(alloc, word)?))
    } else {
        Ok(None)
    }
}

// The word, if it is a full name.
pub(crate) fn full_name_of(alloc: Global, word: &[u8]) -> Result<Option<Name>, Memory>
    ensures { IfOk result (λ r. r ≡ full_name_of word.now) }
{
    if is_full_form(word) {
        Ok(Some(Bytes::from_slice(alloc, word)?))
    } else {
        Ok(None)
    }
}

fn message_kind(alloc: Global, word: &[u8]) -> Result<Option<KindWord>, Memory>
    ensures { IfOk result (λ r. r
        ≡ option_map kinds.Message (option_and_then full_name_of (without_prefix (codes "message:") word.now))) }
{
    let Some(name) = without_prefix(b"message:", word) else {
        return Ok(None);
    };
    match full_name_of(alloc, name)? {
        Some(name) => Ok(Some(KindWord::Message(name))),
        None => Ok(None),
    }
}

fn enum_kind(alloc: Global, word: &[u8]) -> Result<Option<KindWord>, Memory>
    ensures { IfOk result (λ r. r
        ≡ option_map kinds.Choice (option_and_then full_name_of (without_prefix (codes "enum:") word.now))) }
{
    let Some(name) = without_prefix(b"enum:", word) else {
        return Ok(None);
    };
    match full_name_of(alloc, name)? {
        Some(name) => Ok(Some(KindWord::Choice(name))),
        None => Ok(None),
    }
}

// The kind that a word names.
pub(crate) fn kind_of(alloc: Global, word: &[u8]) -> Result<Option<KindWord>, Memory>
    ensures { IfOk result (λ r. r ≡ kind_of word.now) }
{
    if let Some(kind) = Kind::of_name(word) {
        return Ok(Some(KindWord::Scalar(kind)));
    }
    match message_kind(alloc, word)? {
        Some(kind) => Ok(Some(kind)),
        None => enum_kind(alloc, word),
    }
}

fn plain_label(word: &[u8]) -> Option<LabelWord>
    ensures { result ≡ option_map (λ e. e.1) (find (λ e. bytes_eq word.now e.0) label_names) }
{
    if is_word(word, b"plain") {
        Some(LabelWord::Plain)
    } else if is_word(word, b"optional") {
        Some(LabelWord::Optional)
    } else if is_word(word, b"repeated") {
        Some(LabelWord::Repeated)
    } else if is_word(word, b"packed") {
        Some(LabelWord::Packed)
    } else {
        None
    }
}

fn map_label(alloc: Global, word: &[u8]) -> Result<Option<LabelWord>, Memory>
    ensures { IfOk result (λ r. r ≡ option_map labels.Map (option_and_then kind_of (without_prefix (codes "map:") word.now))) }
{
    let Some(key) = without_prefix(b"map:", word) else {
        return Ok(None);
    };
    match kind_of(alloc, key)? {
        Some(key) => Ok(Some(LabelWord::Map(key))),
        None => Ok(None),
    }
}

fn member_label(alloc: Global, word: &[u8]) -> Result<Option<LabelWord>, Memory>
    ensures { IfOk result (λ r. r
        ≡ option_map labels.Member (option_and_then name_of (without_prefix (codes "oneof:") word.now))) }
{
    let Some(name) = without_prefix(b"oneof:", word) else {
        return Ok(None);
    };
    match name_of(alloc, name)? {
        Some(name) => Ok(Some(LabelWord::Member(name))),
        None => Ok(None),
    }
}

// The label that a word names.
pub(crate) fn label_of(alloc: Global, word: &[u8]) -> Result<Option<LabelWord>, Memory>
    ensures { IfOk result (λ r. r ≡ label_of word.now) }
{
    if let Some(label) = plain_label(word) {
        return Ok(Some(label));
    }
    match map_label(alloc, word)? {
        Some(label) => Ok(Some(label)),
        None => member_label(alloc, word),
    }
}
