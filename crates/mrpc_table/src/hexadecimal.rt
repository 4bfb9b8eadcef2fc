//! Hexadecimal digits.

ghost use Rattle.std.specs.Prelude.{◌≡◌, ◌+◌, ◌*◌, ◌<◌, length, slice_index, IfSome};
ghost use Rattle.hex.specs.Hex.{encode_lower, lower_digits};

// The offset after two digits for each byte, if the first digit is at `start`.
pub(crate) fn end_of_digits(start: usize, bytes: usize) -> Option<usize>
    ensures { IfSome result (λ end. end ≡ start + 2 * bytes) }
{
    let digits = bytes.checked_mul(2)?;
    start.checked_add(digits)
}

// Writes two digits for each byte, in lower case.
pub(crate) fn write_digits(digits: &mut [u8], bytes: &[u8])
    requires { length digits.old ≡ 2 * length bytes.now }
    ensures { digits.new ≡ encode_lower bytes.now }
{
    for place in 0..bytes.len() {
        let byte = bytes[place];
        digits[2 * place] = digit(byte / 16);
        digits[2 * place + 1] = digit(byte % 16);
    }
}

// The digit of a number. Without a table look-up, the compiler can convert many bytes at once.
fn digit(number: u8) -> u8
    requires { number < 16 }
    ensures { result ≡ slice_index lower_digits number }
{
    if number < 10 {
        number + b'0'
    } else {
        number - 10 + b'a'
    }
}
