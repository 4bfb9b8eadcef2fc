//! Resolves a path in a message of a table.

ghost use Rattle.std.specs.Prelude.{◌≡◌, IfOk, option_map};
ghost use Rattle.std.specs.Option.{option_copied};
ghost use Rattle.mrpc_table.specs.Valid.{IsValid};
ghost use Rattle.mrpc_table.specs.PathFields.{field_numbered, has_one_message, step_in, way_in, path_in};

use crate::memory::Memory;
use crate::path::{Path, PathWord};
use crate::sequence::Sequence;
use crate::table::{Field, Kind, Label, Table};
use crate::words::Decimal;
use std::alloc::Global;

// The field with a number; no field number has more than 32 bits.
fn field_numbered(table: &Table, msg: u32, number: Decimal) -> Option<&Field>
    requires { IsValid table.now }
    ensures { option_copied result ≡ field_numbered table.now msg number }
{
    match number {
        Decimal::Small(number) if number < 0x1_0000_0000 => table.field(msg, number as u32),
        _ => None,
    }
}

fn has_one_message(label: Label) -> bool
    ensures { result ≡ has_one_message label }
{
    matches!(label, Label::Plain | Label::Member(_))
}

// A field along the path: its number, and the message that it contains.
fn step_in(table: &Table, msg: u32, number: Decimal) -> Option<(u32, u32)>
    requires { IsValid table.now }
    ensures { result ≡ step_in table.now msg number }
{
    let field = field_numbered(table, msg, number)?;
    match field.kind {
        Kind::Message(inner) if has_one_message(field.label) => Some((field.number, inner)),
        _ => None,
    }
}

// The numbers along a path, and the message at its end.
fn way_in(
    alloc: Global,
    table: &Table,
    msg: u32,
    numbers: &[Decimal],
) -> Result<Option<(Vec<u32>, u32)>, Memory>
    requires { IsValid table.now }
    ensures { IfOk result (λ w. option_map (λ p. (p.0.items, p.1)) w ≡ way_in table.now msg numbers.now) }
{
    let mut way = Vec::with_capacity(alloc, numbers.len())?;
    let mut message = msg;
    for number in numbers {
        let Some((step, inner)) = step_in(table, message, *number) else {
            return Ok(None);
        };
        way.push(step)?;
        message = inner;
    }
    Ok(Some((way, message)))
}

impl PathWord {
    /// The field that the numbers lead to in a message of the table. Each number but the last must be a field of
    /// message kind that is plain or a member of a oneof; the last is any field. `None` if a number is no such field.
    pub fn resolve(&self, alloc: Global, table: &Table, msg: u32) -> Result<Option<Path>, Memory>
        requires { IsValid table.now }
        ensures { IfOk result (λ p. p ≡ path_in table.now msg self.now) }
    {
        let Some((way, message)) = way_in(alloc, table, msg, self.way.as_slice())? else {
            return Ok(None);
        };
        let Some(field) = field_numbered(table, message, self.last) else {
            return Ok(None);
        };
        Ok(Some(Path {
            way: Sequence::from_vec(way),
            number: field.number,
            kind: field.kind,
            label: field.label,
        }))
    }
}
