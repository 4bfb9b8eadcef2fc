//! The texts of numbers.

ghost use Rattle.std.specs.Prelude.{◌≡◌, ◌==◌, ◌++◌, ℕ, List, codes, if◌then◌else◌, OnOk};
ghost use Rattle.std.specs.Float.{binary32, binary64};
ghost use Rattle.mrpc_table.specs.Valid.{IsValid};
ghost use Rattle.text_format.specs.Numbers.{IsFloatText, IsNumberText, integral_text};

use crate::enum_values::{put_enum_value, put_signed};
use crate::floats::{double_text, float_text};
use mrpc_table::{Bytes, Kind, Memory, Table};
use std::alloc::Global;

// Appends the text of a number of the kind, given in its word form.
pub(crate) fn put_number(
    alloc: Global,
    out: &mut Bytes,
    table: &Table,
    kind: Kind,
    word: u64,
) -> Result<(), Memory>
    requires { IsValid table.now }
    ensures { OnOk result ((text : List ℕ) × IsNumberText table.now kind word text × (out.new ≡ out.old ++ text)) }
{
    match kind {
        Kind::Choice(choices) => put_enum_value(out, table, choices, word),
        Kind::Float => put_float(alloc, out, word),
        Kind::Double => put_double(alloc, out, word),
        _ => put_integral(out, kind, word),
    }
}

// Appends the text of an integer or a boolean.
fn put_integral(out: &mut Bytes, kind: Kind, word: u64) -> Result<(), Memory>
    ensures { OnOk result (out.new ≡ out.old ++ integral_text kind word) }
{
    match kind {
        Kind::Bool => put_bool(out, word),
        Kind::Uint32 | Kind::Uint64 | Kind::Fixed32 | Kind::Fixed64 => out.append_decimal(word),
        Kind::Int32
        | Kind::Int64
        | Kind::Sint32
        | Kind::Sint64
        | Kind::Sfixed32
        | Kind::Sfixed64
        | Kind::Float
        | Kind::Double
        | Kind::Text
        | Kind::Octets
        | Kind::Message(_)
        | Kind::Choice(_) => put_signed(out, word),
    }
}

fn put_bool(out: &mut Bytes, word: u64) -> Result<(), Memory>
    ensures { OnOk result (out.new ≡ out.old ++ (if word == 0 then codes "false" else codes "true")) }
{
    if word == 0 {
        out.append(b"false")
    } else {
        out.append(b"true")
    }
}

// A float's word form has 32 bits.
fn put_float(alloc: Global, out: &mut Bytes, word: u64) -> Result<(), Memory>
    ensures { OnOk result ((text : List ℕ) × IsFloatText binary32 word text × (out.new ≡ out.old ++ text)) }
{
    let Ok(bits) = u32::try_from(word) else {
        return Err(Memory);
    };
    let text = float_text(alloc, bits)?;
    out.append(text.as_slice())
}

fn put_double(alloc: Global, out: &mut Bytes, word: u64) -> Result<(), Memory>
    ensures { OnOk result ((text : List ℕ) × IsFloatText binary64 word text × (out.new ≡ out.old ++ text)) }
{
    let text = double_text(alloc, word)?;
    out.append(text.as_slice())
}
