//! The words of a line, from the left.

ghost use Rattle.std.specs.Prelude.{◌≡◌, ◌^◌, ◌∷◌, true, IfSome, Some, option_map};
ghost use Rattle.std.specs.Char.{is_ascii_digit};
ghost use Rattle.std.specs.List.{list_all};
ghost use Rattle.std.specs.Str.{bytes_eq};
ghost use Rattle.mrpc_table.specs.Lines.{is_decimal, words_of};
ghost use Rattle.audit_text.specs.Numbers.{IsNumberBefore};
ghost use Rattle.audit_text.specs.Reading.{read_end, read_word, read_last_number, read_name, read_number, words_in};

use mrpc_table::{Decimal, is_name_form, number_of, split_once};

// The remainder of a line after some of its words: the text after a space, or `None` at the end of the line.
pub(crate) type Remainder<'a> = Option<&'a [u8]>;

// Returns true if a word is the expected one. (Words of lines are short, and most differ in length or in the first
// byte, so a loop over bytes is faster than `is_word` of `mrpc_table`, which serves longer ones.)
#[inline(always)]
pub(crate) fn is_word(word: &[u8], expected: &[u8]) -> bool
    ensures { result ≡ bytes_eq word.now expected.now }
{
    if word.len() != expected.len() {
        return false;
    }
    let mut place = 0;
    while place < expected.len() {
        if word[place] != expected[place] {
            return false;
        }
        place += 1;
    }
    true
}

// Returns the first word, and the remainder after it.
pub(crate) fn next(rest: Remainder<'_>) -> Option<(&[u8], Remainder<'_>)>
    ensures { option_map (λ p. (p.0.now, words_in p.1)) result ≡ read_word (words_in rest.entry) }
{
    let text = rest?;
    match split_once(text, b' ') {
        Some((word, behind)) => Some((word, Some(behind))),
        None => Some((text, None)),
    }
}

// Succeeds if nothing remains.
pub(crate) fn end(rest: Remainder<'_>) -> Option<()>
    ensures { result ≡ read_end (words_in rest.entry) }
{
    match rest {
        None => Some(()),
        Some(_) => None,
    }
}

// Most numbers have one to four digits, and a call that returns several words costs as much as some digits. So the fast
// path for numbers is inlined; the slow path isn't.

// Any number of this many digits fits 64 bits.
const FEW_DIGITS: usize = 19;

// Returns true if digits are a number: there is at least one, and no leading zero before others.
#[inline(always)]
fn is_number(digits: &[u8]) -> bool
    requires { list_all is_ascii_digit digits.now ≡ true }
    ensures { result ≡ is_decimal digits.now }
{
    match digits {
        [] => false,
        [first, others @ ..] => *first != b'0' || others.is_empty(),
    }
}

// Reads up to 19 leading digits of a text as a number. Returns it with the remainder; `None` if they aren't a number.
#[inline(always)]
pub(crate) fn prefix_number(text: &[u8]) -> Option<(u64, &[u8])>
    ensures { IfSome result (λ r. IsNumberBefore text.now r.0 r.1.now) }
{
    let most = text.len().min(FEW_DIGITS);
    let mut number: u64 = 0;
    let mut count = 0;
    while count < most && text[count].is_ascii_digit() {
        number = number * 10 + u64::from(text[count] - b'0');
        count += 1;
    }
    if !is_number(&text[..count]) {
        return None;
    }
    Some((number, &text[count..]))
}

// Returns the remainder of a text after its first byte, if that is the expected one.
#[inline(always)]
pub(crate) fn after_byte(text: &[u8], byte: u8) -> Option<&[u8]>
    ensures { IfSome result (λ r. text.now ≡ byte ∷ r.now) }
{
    match text {
        [first, others @ ..] if *first == byte => Some(others),
        _ => None,
    }
}

// Reads a number of up to 19 digits as the first word. Returns it with the remainder; `None` for any other word.
#[inline(always)]
fn short_number(text: &[u8]) -> Option<(u64, Remainder<'_>)>
    ensures { IfSome result (λ p. read_number (2 ^ 64) (words_of text.now) ≡ Some (p.0, words_in p.1)) }
{
    let (number, behind) = prefix_number(text)?;
    if behind.is_empty() {
        return Some((number, None));
    }
    let others = after_byte(behind, b' ')?;
    Some((number, Some(others)))
}

// Reads a 64-bit number, by its whole word.
#[inline(never)]
#[tactic(auto, unfolding(crate::specs::Reading::read_number))]
fn any_number(rest: Remainder<'_>) -> Option<(u64, Remainder<'_>)>
    ensures { option_map (λ p. (p.0, words_in p.1)) result ≡ read_number (2 ^ 64) (words_in rest.entry) }
{
    let (word, behind) = next(rest)?;
    match number_of(word) {
        Some(Decimal::Small(number)) => Some((number, behind)),
        _ => None,
    }
}

// Reads a 64-bit number. (Most words of an audit are short numbers, so `short_number` is tried first.)
#[inline(always)]
#[tactic(auto, unfolding(crate::specs::Reading::read_number))]
pub(crate) fn number64(rest: Remainder<'_>) -> Option<(u64, Remainder<'_>)>
    ensures { option_map (λ p. (p.0, words_in p.1)) result ≡ read_number (2 ^ 64) (words_in rest.entry) }
{
    match short_number(rest?) {
        Some(found) => Some(found),
        None => any_number(rest),
    }
}

// Reads a 32-bit number.
#[inline(always)]
pub(crate) fn number32(rest: Remainder<'_>) -> Option<(u32, Remainder<'_>)>
    ensures { option_map (λ p. (p.0, words_in p.1)) result ≡ read_number (2 ^ 32) (words_in rest.entry) }
{
    let (number, behind) = number64(rest)?;
    if number > u64::from(u32::MAX) {
        return None;
    }
    Some((number as u32, behind))
}

// Reads a 16-bit number.
#[inline(always)]
pub(crate) fn number16(rest: Remainder<'_>) -> Option<(u16, Remainder<'_>)>
    ensures { option_map (λ p. (p.0, words_in p.1)) result ≡ read_number (2 ^ 16) (words_in rest.entry) }
{
    let (number, behind) = number64(rest)?;
    if number > u64::from(u16::MAX) {
        return None;
    }
    Some((number as u16, behind))
}

// Reads a 64-bit number as the last word.
#[inline(always)]
#[tactic(auto, unfolding(crate::specs::Reading::read_last_number))]
pub(crate) fn last64(rest: Remainder<'_>) -> Option<u64>
    ensures { result ≡ read_last_number (2 ^ 64) (words_in rest.entry) }
{
    let (number, behind) = number64(rest)?;
    end(behind)?;
    Some(number)
}

// Reads a 32-bit number as the last word.
#[tactic(auto, unfolding(crate::specs::Reading::read_last_number))]
pub(crate) fn last32(rest: Remainder<'_>) -> Option<u32>
    ensures { result ≡ read_last_number (2 ^ 32) (words_in rest.entry) }
{
    let (number, behind) = number32(rest)?;
    end(behind)?;
    Some(number)
}

// Reads a name of any length.
#[tactic(auto, unfolding(crate::specs::Reading::read_name))]
pub(crate) fn name(rest: Remainder<'_>) -> Option<(&[u8], Remainder<'_>)>
    ensures { option_map (λ p. (p.0.now, words_in p.1)) result ≡ read_name (words_in rest.entry) }
{
    let (word, behind) = next(rest)?;
    if !is_name_form(word) {
        return None;
    }
    Some((word, behind))
}
