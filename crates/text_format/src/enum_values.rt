//! The values of enums, by their names.

ghost use Rattle.std.specs.Prelude.{◌≡◌, ◌≤◌, ◌≤ℤ◌, ◌<ℤ◌, ◌++◌, ℕ, List, length, IfSome, IfNone, OnOk};
ghost use Rattle.std.specs.Fmt.{signed_decimal};
ghost use Rattle.std.specs.Int.{w64, cast_signed};
ghost use Rattle.std.specs.List.{AllWithin};
ghost use Rattle.mrpc_table.specs.Valid.{IsAscendingBy, IsValid, IsValueBelow};
ghost use Rattle.text_format.specs.Numbers.{enum_values, IsFirstName, HasNoName, IsEnumText};

use itoa::Buffer;
use mrpc_table::{Bytes, Memory, Name, Table};

// Appends the text of a number of the enum with this index in the table, given in its word form.
pub(crate) fn put_enum_value(
    out: &mut Bytes,
    table: &Table,
    choices: u32,
    word: u64,
) -> Result<(), Memory>
    requires { IsValid table.now }
    ensures { OnOk result ((text : List ℕ) × IsEnumText (enum_values table.now choices) (cast_signed w64 word) text
        × (out.new ≡ out.old ++ text)) }
{
    match first_name(enum_values(table, choices), word) {
        Some(name) => out.append(name),
        None => put_signed(out, word),
    }
}

// Appends the digits of a number, with `-` before them if it is negative.
pub(crate) fn put_signed(out: &mut Bytes, word: u64) -> Result<(), Memory>
    ensures { OnOk result (out.new ≡ out.old ++ signed_decimal (cast_signed w64 word)) }
{
    let mut buffer = Buffer::new();
    out.append(buffer.format(word.cast_signed()).as_bytes())
}

// The values of the enum with this index; empty if there is no such enum.
fn enum_values(table: &Table, choices: u32) -> &[(i32, Name)]
    requires { IsValid table.now }
    ensures value { result.now ≡ enum_values table.now choices }
    ensures ascend { IsAscendingBy IsValueBelow result.now }
{
    match table.enums.as_slice().get(choices as usize) {
        Some(choices) => choices.values.as_slice(),
        None => &[],
    }
}

// The first name of a number, found by binary search.
fn first_name(values: &[(i32, Name)], word: u64) -> Option<&[u8]>
    requires { IsAscendingBy IsValueBelow values.now }
    ensures found { IfSome result (λ name. IsFirstName values.now (cast_signed w64 word) name.now) }
    ensures absent { IfNone result (HasNoName values.now (cast_signed w64 word)) }
{
    let place = first_from(values, word);
    if place >= values.len() {
        return None;
    }
    let value = &values[place];
    if i64::from(value.0) != word.cast_signed() {
        return None;
    }
    Some(value.1.as_slice())
}

// The index of the first value that isn't below a number.
fn first_from(values: &[(i32, Name)], word: u64) -> usize
    requires { IsAscendingBy IsValueBelow values.now }
    ensures within { result ≤ length values.now }
    ensures before { AllWithin (λ value. value.0 <ℤ cast_signed w64 word) values.now 0 result }
    ensures behind { AllWithin (λ value. cast_signed w64 word ≤ℤ value.0) values.now result (length values.now) }
{
    values.partition_point(|value| i64::from(value.0) < word.cast_signed())
}
