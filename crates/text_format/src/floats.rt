//! Floats and doubles in decimal digits.

ghost use Rattle.std.specs.Prelude.{◌≡◌, ◌%◌, ◌≤◌, Some, IsTrue, IfOk, from_bits};
ghost use Rattle.std.specs.Float.{NotNanBits, binary32, binary64};
ghost use Rattle.std.specs.Float.Parse.{parse_float};
ghost use Rattle.text_format.specs.Numbers.{IsFloatText};

use crate::layout::general;
use mrpc_table::{Bytes, Memory};
use ryu::{Buffer, Float};
use std::alloc::Global;

const NAN: &[u8] = b"nan";

// The sign of a float, and of a double.
const SIGN: u32 = 0x8000_0000;

const DOUBLE_SIGN: u64 = 0x8000_0000_0000_0000;

// The bits of the infinite float, and of the infinite double, above which all are NaN.
const INFINITE: u32 = 0x7f80_0000;

const DOUBLE_INFINITE: u64 = 0x7ff0_0000_0000_0000;

// The text of the float with these bits.
pub(crate) fn float_text(alloc: Global, bits: u32) -> Result<Bytes, Memory>
    ensures { IfOk result (IsFloatText binary32 bits) }
{
    if bits % SIGN > INFINITE {
        return Bytes::from_slice(alloc, NAN);
    }
    float_digits(alloc, bits)
}

// The text of the double with these bits.
pub(crate) fn double_text(alloc: Global, bits: u64) -> Result<Bytes, Memory>
    ensures { IfOk result (IsFloatText binary64 bits) }
{
    if bits % DOUBLE_SIGN > DOUBLE_INFINITE {
        return Bytes::from_slice(alloc, NAN);
    }
    double_digits(alloc, bits)
}

// Six digits, or nine if six don't read back or the float is subnormal. Each text was read back.
fn float_digits(alloc: Global, bits: u32) -> Result<Bytes, Memory>
    requires { NotNanBits binary32 bits }
    ensures { IfOk result (λ text. parse_float binary32 text ≡ Some (from_bits binary32 bits)) }
{
    let float = f32::from_bits(bits);
    let six = six_digits(alloc, float)?;
    if reads_as_float(six.as_slice(), bits) && !float.is_subnormal() {
        return Ok(six);
    }
    long_float_digits(alloc, bits)
}

// Nine digits, or those of `ryu`, which always read back, if nine don't.
fn long_float_digits(alloc: Global, bits: u32) -> Result<Bytes, Memory>
    requires { NotNanBits binary32 bits }
    ensures { IfOk result (λ text. parse_float binary32 text ≡ Some (from_bits binary32 bits)) }
{
    let float = f32::from_bits(bits);
    let nine = nine_digits(alloc, float)?;
    if reads_as_float(nine.as_slice(), bits) {
        return Ok(nine);
    }
    Bytes::from_slice(alloc, Buffer::new().format(float).as_bytes())
}

// Fifteen digits, or seventeen if fifteen don't read back.
fn double_digits(alloc: Global, bits: u64) -> Result<Bytes, Memory>
    requires { NotNanBits binary64 bits }
    ensures { IfOk result (λ text. parse_float binary64 text ≡ Some (from_bits binary64 bits)) }
{
    let fifteen = fifteen_digits(alloc, f64::from_bits(bits))?;
    if reads_as_double(fifteen.as_slice(), bits) {
        return Ok(fifteen);
    }
    long_double_digits(alloc, bits)
}

// Seventeen digits, or those of `ryu`.
fn long_double_digits(alloc: Global, bits: u64) -> Result<Bytes, Memory>
    requires { NotNanBits binary64 bits }
    ensures { IfOk result (λ text. parse_float binary64 text ≡ Some (from_bits binary64 bits)) }
{
    let double = f64::from_bits(bits);
    let seventeen = seventeen_digits(alloc, double)?;
    if reads_as_double(seventeen.as_slice(), bits) {
        return Ok(seventeen);
    }
    Bytes::from_slice(alloc, Buffer::new().format(double).as_bytes())
}

fn six_digits(alloc: Global, float: f32) -> Result<Bytes, Memory> {
    let text = format!(in alloc; "{float:.5e}")?;
    general(alloc, text.as_bytes(), 6)
}

fn nine_digits(alloc: Global, float: f32) -> Result<Bytes, Memory> {
    let text = format!(in alloc; "{float:.8e}")?;
    general(alloc, text.as_bytes(), 9)
}

fn fifteen_digits(alloc: Global, double: f64) -> Result<Bytes, Memory> {
    let text = format!(in alloc; "{double:.14e}")?;
    general(alloc, text.as_bytes(), 15)
}

fn seventeen_digits(alloc: Global, double: f64) -> Result<Bytes, Memory> {
    let text = format!(in alloc; "{double:.16e}")?;
    general(alloc, text.as_bytes(), 17)
}

// Whether a text reads back as the float with these bits.
fn reads_as_float(text: &[u8], bits: u32) -> bool
    ensures { IsTrue result → parse_float binary32 text.now ≡ Some (from_bits binary32 bits) }
{
    match fast_float::parse::<f32, &[u8]>(text) {
        Ok(float) if float.is_number() => float.raw_bits() == u64::from(bits),
        _ => false,
    }
}

fn reads_as_double(text: &[u8], bits: u64) -> bool
    ensures { IsTrue result → parse_float binary64 text.now ≡ Some (from_bits binary64 bits) }
{
    match fast_float::parse::<f64, &[u8]>(text) {
        Ok(double) if double.is_number() => double.raw_bits() == bits,
        _ => false,
    }
}
