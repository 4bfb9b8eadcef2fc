//! The first line of a text.

ghost use Rattle.audit_check.specs.States.{IsFirstLine};

use memchr::memchr;

// Splits a text after its first line feed; without a line feed, all of the text is the line. (The search compares many
// bytes at once, unlike `cut`, which serves short words.)
pub(crate) fn first_line(text: &[u8]) -> (&[u8], &[u8])
    ensures { IsFirstLine text.now result.0.now result.1.now }
{
    match memchr(b'\n', text) {
        Some(at) => (&text[..at + 1], &text[at + 1..]),
        None => (text, &[]),
    }
}
