//! The layout of a float's digits, as C's `%g` has it, which protoc uses. Each text is read back before use,
//! so that only the look of a float depends on this module.

use mrpc_table::{Bytes, Decimal, Memory, number_of, split_once};
use std::alloc::Global;

const MINUS: &[u8] = b"-";

// The largest x for which a number `d.ddde-x` is written without an exponent.
const PLACES: u64 = 4;

// The layout of a number that is given as `-d.ddde-x`, in at most `digits` digits. Trailing zeros are
// dropped, and an exponent is used if the point would be far off. Any other text is returned as it is.
pub(crate) fn general(alloc: Global, text: &[u8], digits: u64) -> Result<Bytes, Memory> {
    let mut out = Bytes::new(alloc);
    put_general(alloc, &mut out, text, digits)?;
    Ok(out)
}

fn put_general(alloc: Global, out: &mut Bytes, text: &[u8], digits: u64) -> Result<(), Memory> {
    match split_once(text, b'e') {
        Some((mantissa, power)) => {
            let unsigned = put_sign(out, mantissa)?;
            let shown = without_point(alloc, unsigned)?;
            put_layout(out, without_zeros(shown.as_slice()), power, digits)
        }
        None => out.append(text),
    }
}

// Appends the sign of a number, if it has one, and returns what follows it.
fn put_sign<'a>(out: &mut Bytes, number: &'a [u8]) -> Result<&'a [u8], Memory> {
    match number.strip_prefix(MINUS) {
        Some(unsigned) => {
            out.append(MINUS)?;
            Ok(unsigned)
        }
        None => Ok(number),
    }
}

// The digits of a number without its point.
fn without_point(alloc: Global, text: &[u8]) -> Result<Bytes, Memory> {
    let mut digits = Bytes::new(alloc);
    put_digits(&mut digits, text)?;
    Ok(digits)
}

fn put_digits(out: &mut Bytes, text: &[u8]) -> Result<(), Memory> {
    for byte in text {
        if *byte != b'.' {
            out.push(*byte)?;
        }
    }
    Ok(())
}

// Digits without their trailing zeros; the first digit stays.
fn without_zeros(digits: &[u8]) -> &[u8] {
    let mut end = digits.len();
    while end > 1 && digits[end - 1] == b'0' {
        end -= 1;
    }
    &digits[..end]
}

// Appends a number by its digits and its power of ten.
fn put_layout(out: &mut Bytes, digits: &[u8], power: &[u8], most: u64) -> Result<(), Memory> {
    match power.strip_prefix(MINUS) {
        Some(power) => put_small(out, digits, small(power)),
        None => put_large(out, digits, small(power), most),
    }
}

// The number that a word spells; 0 if it spells none.
fn small(word: &[u8]) -> u64 {
    match number_of(word) {
        Some(Decimal::Small(number)) => number,
        _ => 0,
    }
}

// Appends a number below 1, whose first digit is `power` digits after the point.
fn put_small(out: &mut Bytes, digits: &[u8], power: u64) -> Result<(), Memory> {
    if power > PLACES {
        return put_scientific(out, digits, b"e-", power);
    }
    out.append(b"0.")?;
    put_zeros(out, 1, power)?;
    out.append(digits)
}

// Appends a number of at least 1, or 0, whose first digit is `power` digits before the last one before the
// point.
fn put_large(out: &mut Bytes, digits: &[u8], power: u64, most: u64) -> Result<(), Memory> {
    if power >= most {
        return put_scientific(out, digits, b"e+", power);
    }
    let whole = power.saturating_add(1);
    if whole < digits.len() as u64 {
        return put_parts(out, digits.split_at(whole as usize));
    }
    out.append(digits)?;
    put_zeros(out, digits.len() as u64, whole)
}

// Appends the digits before a point and those after it.
fn put_parts(out: &mut Bytes, parts: (&[u8], &[u8])) -> Result<(), Memory> {
    out.append(parts.0)?;
    out.append(b".")?;
    out.append(parts.1)
}

// Appends a zero for each number from one up to another.
fn put_zeros(out: &mut Bytes, from: u64, to: u64) -> Result<(), Memory> {
    for _ in from..to {
        out.append(b"0")?;
    }
    Ok(())
}

// Appends a number with its exponent.
fn put_scientific(out: &mut Bytes, digits: &[u8], letter: &[u8], power: u64) -> Result<(), Memory> {
    put_mantissa(out, digits)?;
    out.append(letter)?;
    put_exponent(out, power)
}

// Appends digits with a point after the first one, if there are others.
fn put_mantissa(out: &mut Bytes, digits: &[u8]) -> Result<(), Memory> {
    if digits.len() < 2 {
        return out.append(digits);
    }
    put_parts(out, digits.split_at(1))
}

// Appends an exponent, of at least two digits.
fn put_exponent(out: &mut Bytes, power: u64) -> Result<(), Memory> {
    if power >= 10 {
        return out.append_decimal(power);
    }
    out.append(b"0")?;
    out.append_decimal(power)
}
