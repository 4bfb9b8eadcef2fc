//! The values that lines store.

ghost use Rattle.std.specs.Prelude.{◌≡◌, Some, None, if◌then◌else◌, option_map};
ghost use Rattle.std.specs.Char.{digit_value};
ghost use Rattle.script_grammar.specs.Values.{is_hexadecimal};
ghost use Rattle.script_grammar.specs.Reading.{negated, hexadecimal_in, value_in};

use mrpc_table::{Decimal, number_of};

// The two's complement of a negated number; `Large` below -2^63.
fn negated(number: Decimal) -> Decimal
    ensures { result ≡ negated number }
{
    match number {
        Decimal::Small(number) if number <= 1 << 63 => Decimal::Small(number.wrapping_neg()),
        _ => Decimal::Large,
    }
}

// Returns the value of a lower-case hexadecimal digit.
fn hexadecimal_digit(byte: u8) -> Option<u64>
    ensures { result ≡ (if is_hexadecimal byte then Some (digit_value byte) else None) }
{
    match byte {
        b'0'..=b'9' => Some(u64::from(byte - b'0')),
        b'a'..=b'f' => Some(u64::from(byte - b'a') + 10),
        _ => None,
    }
}

// Returns the number that 1 to 16 hexadecimal digits spell.
fn hexadecimal(digits: &[u8]) -> Option<Decimal>
    ensures { result ≡ hexadecimal_in digits.now }
{
    if digits.is_empty() || digits.len() > 16 {
        return None;
    }
    let mut word: u64 = 0;
    for digit in digits {
        let Some(value) = hexadecimal_digit(*digit) else {
            return None;
        };
        word = word * 16 + value;
    }
    Some(Decimal::Small(word))
}

// Returns the 64 bits that a word stores, or `Large` if the value is out of range; `None` if the word isn't a value.
pub(crate) fn value_of(word: &[u8]) -> Option<Decimal>
    ensures { result ≡ value_in word.now }
{
    match word {
        [b'-', digits @ ..] => Some(negated(number_of(digits)?)),
        [b'0', b'x', digits @ ..] => hexadecimal(digits),
        _ => number_of(word),
    }
}
