//! Reads the prefix of a text: given bytes, a number or a name, each with the byte after it. So a line is read before
//! its end is known.

ghost use Rattle.std.specs.Prelude.{◌≡◌, ◌<◌, ◌^◌, ◌++◌, ◌∷◌, IfSome};
ghost use Rattle.std.specs.Fmt.{decimal};
ghost use Rattle.audit_text.specs.Writable.{HasNameForm};

use crate::word::{after_byte, is_word, prefix_number};
use mrpc_table::is_name_form;

// Returns the remainder of a text after a prefix.
#[inline(always)]
pub(crate) fn after_prefix<'a>(text: &'a [u8], front: &[u8]) -> Option<&'a [u8]>
    ensures { IfSome result (λ rest. text.now ≡ front.now ++ rest.now) }
{
    let len = front.len();
    if text.len() < len || !is_word(&text[..len], front) {
        return None;
    }
    Some(&text[len..])
}

// Reads a 64-bit number and the byte after it. Returns the number and the remainder.
#[inline(always)]
pub(crate) fn prefix_number64(text: &[u8], byte: u8) -> Option<(u64, &[u8])>
    ensures { IfSome result (λ r. (r.0 < 2 ^ 64) × (text.now ≡ decimal r.0 ++ byte ∷ r.1.now)) }
{
    let (number, behind) = prefix_number(text)?;
    let rest = after_byte(behind, byte)?;
    Some((number, rest))
}

// Reads a 32-bit number and the byte after it. Returns the number and the remainder.
#[inline(always)]
pub(crate) fn prefix_number32(text: &[u8], byte: u8) -> Option<(u32, &[u8])>
    ensures { IfSome result (λ r. (r.0 < 2 ^ 32) × (text.now ≡ decimal r.0 ++ byte ∷ r.1.now)) }
{
    let (number, rest) = prefix_number64(text, byte)?;
    if number > u64::from(u32::MAX) {
        return None;
    }
    Some((number as u32, rest))
}

// Splits a text before its first space or line feed.
#[inline(always)]
fn prefix_word(text: &[u8]) -> (&[u8], &[u8])
    ensures { text.now ≡ result.0.now ++ result.1.now }
{
    let mut count = 0;
    while count < text.len() && text[count] != b' ' && text[count] != b'\n' {
        count += 1;
    }
    (&text[..count], &text[count..])
}

// Reads a name and the byte after it. Returns the name and the remainder.
#[inline(always)]
pub(crate) fn prefix_name(text: &[u8], byte: u8) -> Option<(&[u8], &[u8])>
    ensures { IfSome result (λ r. HasNameForm r.0.now × (text.now ≡ r.0.now ++ byte ∷ r.1.now)) }
{
    let (name, behind) = prefix_word(text);
    let rest = after_byte(behind, byte)?;
    if !is_name_form(name) {
        return None;
    }
    Some((name, rest))
}
