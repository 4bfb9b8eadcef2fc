//! The tables, names and messages of several tests.

ghost use Rattle.mrpc_table.specs.Valid.{IsValid};

use mrpc_table::{Bytes, FieldValue, Table, Tree, Value};
use std::alloc::Global;
use std::process::Abort;
use table_text::read_table;

// A message with one number, and a method on it.
pub(crate) const SMALL: &[u8] = b"message M\nfield 1 plain uint64 a\nmethod 0 S Get M M\n";

// A message with packed numbers, and a method on it.
pub(crate) const NUMBERS: &[u8] = b"message M\nfield 6 packed uint64 n\nmethod 0 S Get M M\n";

// The frame of call 1 with 7 in its first field.
pub(crate) const FIRST_WITH_7: &[u8] =
    b"\x00\x00\x00\x02\x01\x01\x00\x00\x00\x00\x00\x01\x00\x00\x00\x01\x08\x07";

// The frame of call 2, with the same content.
pub(crate) const SECOND_WITH_7: &[u8] =
    b"\x00\x00\x00\x02\x01\x01\x00\x00\x00\x00\x00\x01\x00\x00\x00\x02\x08\x07";

// The table of a text.
pub(crate) fn table_of(rt: &impl Abort, alloc: Global, text: &[u8]) -> Table
    ensures { IsValid result }
{
    read_table(alloc, text).expect(rt, "a table")
}

// A copy of bytes, as a name or a frame.
pub(crate) fn bytes_of(rt: &impl Abort, alloc: Global, bytes: &[u8]) -> Bytes {
    Bytes::from_slice(alloc, bytes).expect(rt, "memory")
}

// A message whose field 1 is this number.
pub(crate) fn with_number(rt: &impl Abort, alloc: Global, number: u64) -> Tree {
    let mut fields = Vec::new(alloc);
    let field = (1, FieldValue::One(Value::Number(number)));
    fields.push(field).expect(rt, "memory");
    Tree { fields }
}
