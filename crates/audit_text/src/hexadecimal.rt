//! Bytes from hexadecimal digits, lower case alone, as in audit lines. (`hex::decode` accepts upper case too, so digits
//! would have to be checked a second time, and it allocates the bytes.)

ghost use Rattle.std.specs.Prelude.{◌≡◌, ◌*◌, ◌<◌, ◌≤◌, ℕ, List, length, slice_index, take, MatchOption};
ghost use Rattle.hex.specs.Hex.{IsBytes, encode_lower, lower_digits};
ghost use Rattle.audit_text.specs.Hexadecimal.{with_digits};
ghost use Rattle.audit_text.specs.Lines.{hex_word};

use crate::word::is_word;

// The value of each digit, and a number that is no value for each other byte.
const VALUES: [u8; 256] = [
    255, 255, 255, 255, 255, 255, 255, 255, 255, 255, 255, 255, 255, 255, 255, 255, 255, 255, 255,
    255, 255, 255, 255, 255, 255, 255, 255, 255, 255, 255, 255, 255, 255, 255, 255, 255, 255, 255,
    255, 255, 255, 255, 255, 255, 255, 255, 255, 255, 0, 1, 2, 3, 4, 5, 6, 7, 8, 9, 255, 255, 255,
    255, 255, 255, 255, 255, 255, 255, 255, 255, 255, 255, 255, 255, 255, 255, 255, 255, 255, 255,
    255, 255, 255, 255, 255, 255, 255, 255, 255, 255, 255, 255, 255, 255, 255, 255, 255, 10, 11,
    12, 13, 14, 15, 255, 255, 255, 255, 255, 255, 255, 255, 255, 255, 255, 255, 255, 255, 255, 255,
    255, 255, 255, 255, 255, 255, 255, 255, 255, 255, 255, 255, 255, 255, 255, 255, 255, 255, 255,
    255, 255, 255, 255, 255, 255, 255, 255, 255, 255, 255, 255, 255, 255, 255, 255, 255, 255, 255,
    255, 255, 255, 255, 255, 255, 255, 255, 255, 255, 255, 255, 255, 255, 255, 255, 255, 255, 255,
    255, 255, 255, 255, 255, 255, 255, 255, 255, 255, 255, 255, 255, 255, 255, 255, 255, 255, 255,
    255, 255, 255, 255, 255, 255, 255, 255, 255, 255, 255, 255, 255, 255, 255, 255, 255, 255, 255,
    255, 255, 255, 255, 255, 255, 255, 255, 255, 255, 255, 255, 255, 255, 255, 255, 255, 255, 255,
    255, 255, 255, 255, 255, 255, 255, 255, 255, 255, 255, 255, 255, 255, 255, 255, 255, 255, 255,
    255, 255, 255, 255,
];

// Returns the value of a digit.
#[inline(always)]
fn value_of(digit: u8) -> Option<u8>
    ensures { MatchOption result ((value : ℕ) → value < 16 → digit ≡ slice_index lower_digits value → ⊥)
        (λ value. (value < 16) × (digit ≡ slice_index lower_digits value)) }
{
    let value = VALUES[usize::from(digit)];
    if value < 16 { Some(value) } else { None }
}

// Reads the first two digits of a word as a byte. Returns the byte and the remainder.
#[inline(always)]
fn prefix_byte(word: &[u8]) -> Option<(u8, &[u8])>
    ensures { MatchOption result ((byte : ℕ) (rest : List ℕ) → byte < 256 → word.now ≡ with_digits byte rest → ⊥)
        (λ p. (p.0 < 256) × (word.now ≡ with_digits p.0 p.1.now)) }
{
    let [high, low, others @ ..] = word else {
        return None;
    };
    let high = value_of(*high)?;
    let low = value_of(*low)?;
    Some((high * 16 + low, others))
}

// Decodes the digits of a word into the prefix of a row, and returns the number of bytes.
fn read_digits(row: &mut [u8], word: &[u8]) -> Option<usize>
    requires { length word.now ≤ 2 * length row.old }
    ensures { MatchOption result ((bytes : List ℕ) → IsBytes bytes → word.now ≡ encode_lower bytes → ⊥)
        (λ count. (count ≤ length row.new) × IsBytes (take count row.new)
        × (word.now ≡ encode_lower (take count row.new))) }
{
    let mut left = word;
    let mut count = 0;
    while let Some((byte, behind)) = prefix_byte(left) {
        row[count] = byte;
        count += 1;
        left = behind;
    }
    if left.is_empty() { Some(count) } else { None }
}

// Decodes a word into the prefix of a row, and returns the number of bytes: 0 if the word is `-`. Returns `None` if the
// word spells no bytes.
pub(crate) fn read_bytes(row: &mut [u8], word: &[u8]) -> Option<usize>
    requires { length word.now ≤ 2 * length row.old }
    ensures { MatchOption result ((bytes : List ℕ) → IsBytes bytes → word.now ≡ hex_word bytes → ⊥)
        (λ count. (count ≤ length row.new) × IsBytes (take count row.new)
        × (word.now ≡ hex_word (take count row.new))) }
{
    if is_word(word, b"-") {
        return Some(0);
    }
    if word.is_empty() {
        return None;
    }
    read_digits(row, word)
}
