//! Parses the value of a rule by the kind of its field.

ghost use Rattle.std.specs.Prelude.{◌≡◌, nat_lt, IfOk};
ghost use Rattle.std.specs.List.{list_all};
ghost use Rattle.std.specs.Option.{option_copied};
ghost use Rattle.std.specs.Result.{result_ok};
ghost use Rattle.hex.specs.Hex.{decode_of};
ghost use Rattle.policy_access.specs.Values.{negative_limit_of, limit_of, positive_word, negative_word, number_value, is_text_byte, quoted_text, text_value, is_lower_digit, run_or_word, bytes_value, operand_of, is_out_of_form, has_no_form};

use crate::fault::SelectorReason;
use crate::limits::MAX_TEXT_VALUE;
use crate::rule::Operand;
use hex::FromHexError;
use mrpc_table::{Bytes, Decimal, Kind, Memory, number_of, split_once};
use std::alloc::Global;

// The absolute value of the smallest number of a kind.
fn negative_limit_of(kind: Kind) -> u64
    ensures { result ≡ negative_limit_of kind }
{
    match kind {
        Kind::Int32 | Kind::Sint32 | Kind::Sfixed32 | Kind::Choice(_) => 0x8000_0000,
        Kind::Int64 | Kind::Sint64 | Kind::Sfixed64 => 0x8000_0000_0000_0000,
        Kind::Uint32
        | Kind::Uint64
        | Kind::Bool
        | Kind::Fixed32
        | Kind::Fixed64
        | Kind::Float
        | Kind::Double
        | Kind::Text
        | Kind::Octets
        | Kind::Message(_) => 0,
    }
}

// Whether an unsigned number is in the range of the kind.
fn is_below_limit(kind: Kind, number: u64) -> bool
    ensures { result ≡ nat_lt number (limit_of kind) }
{
    match kind {
        Kind::Int32 | Kind::Sint32 | Kind::Sfixed32 | Kind::Choice(_) => number < 0x8000_0000,
        Kind::Int64 | Kind::Sint64 | Kind::Sfixed64 => number < 0x8000_0000_0000_0000,
        Kind::Uint32 | Kind::Fixed32 => number < 0x1_0000_0000,
        Kind::Bool => number < 2,
        Kind::Uint64
        | Kind::Fixed64
        | Kind::Float
        | Kind::Double
        | Kind::Text
        | Kind::Octets
        | Kind::Message(_) => true,
    }
}

fn positive_word(kind: Kind, number: Decimal) -> Result<Operand, SelectorReason>
    ensures { result ≡ positive_word kind number }
{
    match number {
        Decimal::Small(number) if is_below_limit(kind, number) => Ok(Operand::Number(number)),
        _ => Err(SelectorReason::Number),
    }
}

fn negative_word(kind: Kind, number: Decimal) -> Result<Operand, SelectorReason>
    ensures { result ≡ negative_word kind number }
{
    match number {
        Decimal::Small(number) if number <= negative_limit_of(kind) => {
            Ok(Operand::Number(number.wrapping_neg()))
        }
        _ => Err(SelectorReason::Number),
    }
}

fn number_value(kind: Kind, word: &[u8]) -> Result<Operand, SelectorReason>
    ensures { result ≡ number_value kind word.now }
{
    match word {
        [] => Err(SelectorReason::Word),
        [b'-', digits @ ..] => match number_of(digits) {
            None => Err(SelectorReason::Word),
            Some(number) => negative_word(kind, number),
        },
        _ => match number_of(word) {
            None => Err(SelectorReason::Word),
            Some(number) => positive_word(kind, number),
        },
    }
}

fn is_text_byte(byte: u8) -> bool
    ensures { result ≡ is_text_byte byte }
{
    byte >= 32 && byte != 127
}

fn are_text_bytes(text: &[u8]) -> bool
    ensures { result ≡ list_all is_text_byte text.now }
{
    text.iter().all(|byte| is_text_byte(*byte))
}

// The bytes between quotes.
fn quoted_text(word: &[u8]) -> Option<&[u8]>
    ensures { option_copied result ≡ quoted_text word.now }
{
    let (before, rest) = split_once(word, b'"')?;
    let (text, after) = split_once(rest, b'"')?;
    if before.is_empty() && after.is_empty() {
        Some(text)
    } else {
        None
    }
}

fn text_value(alloc: Global, word: &[u8]) -> Result<Result<Operand, SelectorReason>, Memory>
    ensures { IfOk result (λ r. r ≡ text_value word.now) }
{
    match quoted_text(word) {
        Some(text) if are_text_bytes(text) && text.len() <= MAX_TEXT_VALUE => {
            Ok(Ok(Operand::Run(Bytes::from_slice(alloc, text)?)))
        }
        _ => Ok(Err(SelectorReason::Word)),
    }
}

fn is_lower_digit(byte: u8) -> bool
    ensures { result ≡ is_lower_digit byte }
{
    (byte >= 48 && byte <= 57) || (byte >= 97 && byte <= 102)
}

fn are_lower_digits(digits: &[u8]) -> bool
    ensures { result ≡ list_all is_lower_digit digits.now }
{
    digits.iter().all(|byte| is_lower_digit(*byte))
}

fn bytes_of(alloc: Global, digits: &[u8]) -> Result<Result<Operand, SelectorReason>, Memory>
    ensures { IfOk result (λ r. r ≡ run_or_word (result_ok (decode_of digits.now))) }
{
    match hex::decode(alloc, digits) {
        Ok(bytes) => Ok(Ok(Operand::Run(Bytes::from_vec(bytes)))),
        Err(FromHexError::OutOfMemory) => Err(Memory),
        Err(_) => Ok(Err(SelectorReason::Word)),
    }
}

fn bytes_value(alloc: Global, word: &[u8]) -> Result<Result<Operand, SelectorReason>, Memory>
    ensures { IfOk result (λ r. r ≡ bytes_value word.now) }
{
    match word {
        [b'x', digits @ ..] if are_lower_digits(digits) => bytes_of(alloc, digits),
        _ => Ok(Err(SelectorReason::Word)),
    }
}

// Parses a value for a field of the kind: `Word` if it is malformed, `Number` if it is out of range. Numbers are
// digits after an optional `-`. A text is in quotes. Bytes are lower-case hexadecimal digits after an `x`.
pub(crate) fn operand_of(
    alloc: Global,
    kind: Kind,
    word: &[u8],
) -> Result<Result<Operand, SelectorReason>, Memory>
    ensures { IfOk result (λ r. r ≡ operand_of kind word.now) }
{
    match kind {
        Kind::Text => text_value(alloc, word),
        Kind::Octets => bytes_value(alloc, word),
        Kind::Message(_) => Ok(Err(SelectorReason::Word)),
        Kind::Int32
        | Kind::Int64
        | Kind::Uint32
        | Kind::Uint64
        | Kind::Sint32
        | Kind::Sint64
        | Kind::Bool
        | Kind::Fixed32
        | Kind::Fixed64
        | Kind::Sfixed32
        | Kind::Sfixed64
        | Kind::Float
        | Kind::Double
        | Kind::Choice(_) => Ok(number_value(kind, word)),
    }
}

// Whether a value is malformed for a field of the kind.
fn is_out_of_form(alloc: Global, kind: Kind, word: &[u8]) -> Result<bool, Memory>
    ensures { IfOk result (λ out. out ≡ is_out_of_form kind word.now) }
{
    match operand_of(alloc, kind, word)? {
        Err(SelectorReason::Word) => Ok(true),
        Err(SelectorReason::Number | SelectorReason::Path) | Ok(_) => Ok(false),
    }
}

// Whether a value has none of the three forms: number, text or bytes.
pub(crate) fn has_no_form(alloc: Global, word: &[u8]) -> Result<bool, Memory>
    ensures { IfOk result (λ none. none ≡ has_no_form word.now) }
{
    Ok(
        is_out_of_form(alloc, Kind::Uint64, word)?
            && is_out_of_form(alloc, Kind::Text, word)?
            && is_out_of_form(alloc, Kind::Octets, word)?,
    )
}
