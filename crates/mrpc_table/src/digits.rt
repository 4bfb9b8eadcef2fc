//! Digits of a base, and the number that they denote.

ghost use Rattle.std.specs.Prelude.{◌≡◌, ◌≤◌, ◌<◌, ◌^◌, min};
ghost use Rattle.std.specs.Char.{digit_value};
ghost use Rattle.std.specs.Str.Parse.{digits_value};
ghost use Rattle.mrpc_table.specs.Lines.{in_64_bits};

use crate::words::Decimal;

/// The value of a byte as a digit: 0 to 9, 10 to 35 for a letter of either case, and 36 for any other byte.
pub fn digit_value(byte: u8) -> u8
    ensures { result ≡ digit_value byte }
{
    if byte < 48 {
        36
    } else if byte < 58 {
        byte - 48
    } else if byte < 65 {
        36
    } else if byte < 91 {
        byte - 55
    } else if byte < 97 {
        36
    } else if byte < 123 {
        byte - 87
    } else {
        36
    }
}

// Larger than each 64-bit number, and small enough that one more digit can't overflow.
const LARGE: u128 = 0x1_0000_0000_0000_0000;

/// The number that digits denote, capped at 2^64.
#[tactic(auto, using(crate::proofs::CappedValues::capped_more))]
pub fn number_capped(digits: &[u8], base: u8) -> u128
    requires { base ≤ 16 }
    ensures { 0 < base → result ≡ min (digits_value base digits.now) (2 ^ 64) }
{
    let mut number = 0;
    for digit in digits {
        let next: u128 = number * u128::from(base) + u128::from(digit_value(*digit));
        number = next.min(LARGE);
    }
    number
}

/// The number that digits of a base denote.
pub fn decimal_of(digits: &[u8], base: u8) -> Decimal
    requires small { base ≤ 16 }
    requires positive { 0 < base }
    ensures { result ≡ in_64_bits (digits_value base digits.now) }
{
    match u64::try_from(number_capped(digits, base)) {
        Ok(number) => Decimal::Small(number),
        Err(_) => Decimal::Large,
    }
}
