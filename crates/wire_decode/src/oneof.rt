//! Oneofs: of the records of a oneof, only the longest suffix whose records are all of one member counts.

ghost use Rattle.std.specs.Prelude.{◌≡◌, ◌≢◌, ℕ, ◌<◌, ◌^◌, [], ◌∷◌, ◌++◌, if◌then◌else◌, length, not, false, IfOk, OnOk, IfSome, vec_len, slice_index_or};
ghost use Rattle.mrpc_table.specs.Node.{field};
ghost use Rattle.mrpc_table.specs.View.{node_of};
ghost use Rattle.mrpc_table.specs.Ascending.{AreFieldsAscending};
ghost use Rattle.wire_decode.specs.Merged.{counted_records};
ghost use Rattle.wire_decode.specs.Oneofs.{oneof_at};
ghost use Rattle.wire_decode.specs.LaterMembers.{overtakes, IsPrepended, IsNotedAt, HasNoMember, IsCountDecision};

use mrpc_table::{Field, FieldValue, Label, Memory, Numbered, find_field};
use std::alloc::Global;

// The members of a oneof among the later records.
#[derive(Clone, Copy)]
enum LaterMembers {
    Nothing,
    Only(u32),
    Several,
}

// Whether a record of another member comes after one of this number.
fn overtakes(behind: LaterMembers, number: u32) -> bool
    ensures { result ≡ overtakes behind number }
{
    match behind {
        LaterMembers::Nothing => false,
        LaterMembers::Only(other) => other != number,
        LaterMembers::Several => true,
    }
}

// The members of the later records, with a record of this number before them.
fn prepended(behind: LaterMembers, number: u32) -> LaterMembers
    ensures { IsPrepended behind number result }
{
    match behind {
        LaterMembers::Nothing => LaterMembers::Only(number),
        LaterMembers::Only(other) => {
            if other == number {
                LaterMembers::Only(number)
            } else {
                LaterMembers::Several
            }
        }
        LaterMembers::Several => LaterMembers::Several,
    }
}

// The contents that count.
pub(crate) fn counted_records(
    alloc: Global,
    raw: Numbered,
    fields: &[Field],
) -> Result<Numbered, Memory>
    requires { AreFieldsAscending fields.now }
    ensures { IfOk result (λ kept. node_of kept.items ≡ counted_records fields.now (node_of raw.items)) }
{
    if has_member(&raw, fields) {
        counted_from_end(alloc, raw, fields)
    } else {
        Ok(raw)
    }
}

// The contents that count, found from the last one to the first.
fn counted_from_end(alloc: Global, raw: Numbered, fields: &[Field]) -> Result<Numbered, Memory>
    requires { AreFieldsAscending fields.now }
    ensures { IfOk result (λ kept. node_of kept.items ≡ counted_records fields.now (node_of raw.items)) }
{
    let mut left = raw;
    let mut kept = Vec::with_capacity(alloc, left.len())?;
    let mut behind = Vec::new(alloc);
    while let Some(part) = left.pop() {
        let counts = counts(&mut behind, fields, part.0)?;
        keep_if(&mut kept, part, counts)?;
    }
    kept.reverse();
    Ok(kept)
}

// Appends a part that counts.
fn keep_if(kept: &mut Numbered, part: (u32, FieldValue), counts: bool) -> Result<(), Memory>
    ensures { OnOk result
        (kept.new.items ≡ (if counts then kept.old.items ++ part ∷ [] else kept.old.items)) }
{
    if counts {
        kept.push(part)?;
    }
    Ok(())
}

// Whether a record counts, given the later ones; then adds it to them.
fn counts(behind: &mut Vec<LaterMembers>, fields: &[Field], number: u32) -> Result<bool, Memory>
    requires { AreFieldsAscending fields.now }
    ensures { IfOk result (λ b. IsCountDecision fields.now behind.old.items number behind.new.items b) }
{
    match oneof_at(fields, number) {
        Some(oneof) => note(behind, oneof, number),
        None => Ok(true),
    }
}

// Adds a record of a oneof to the later ones, and returns whether it counts.
fn note(behind: &mut Vec<LaterMembers>, oneof: usize, number: u32) -> Result<bool, Memory>
    requires { oneof < 2 ^ 32 }
    ensures noted { OnOk result (IsNotedAt behind.old.items oneof number behind.new.items) }
    ensures counts { IfOk result
        (λ b. b ≡ not (overtakes (slice_index_or behind.old.items oneof LaterMembers.Nothing) number)) }
{
    grow(behind, oneof)?;
    let tail = behind[oneof];
    behind[oneof] = prepended(tail, number);
    Ok(!overtakes(tail, number))
}

// Extends the list so that a oneof has an entry.
fn grow(behind: &mut Vec<LaterMembers>, oneof: usize) -> Result<(), Memory>
    requires { oneof < 2 ^ 32 }
    ensures within { OnOk result (oneof < length behind.new.items) }
    ensures same { OnOk result
        ((p : ℕ) → slice_index_or behind.new.items p LaterMembers.Nothing
        ≡ slice_index_or behind.old.items p LaterMembers.Nothing) }
{
    while behind.len() <= oneof {
        behind.push(LaterMembers::Nothing)?;
    }
    Ok(())
}

// Whether any record is of a member of a oneof.
fn has_member(raw: &Numbered, fields: &[Field]) -> bool
    requires { AreFieldsAscending fields.now }
    ensures { result ≡ false → HasNoMember fields.now (node_of raw.now.items) }
{
    for part in raw {
        if oneof_at(fields, part.0).is_some() {
            return true;
        }
    }
    false
}

// The oneof that the field with a number is a member of.
fn oneof_at(fields: &[Field], number: u32) -> Option<usize>
    requires { AreFieldsAscending fields.now }
    ensures value { result ≡ oneof_at fields.now number }
    ensures small { IfSome result (λ o. o < 2 ^ 32) }
{
    match find_field(fields, number, 0) {
        Some(place) => {
            let field = &fields[place];
            match field.label {
                Label::Member(oneof) => Some(oneof as usize),
                _ => None,
            }
        }
        None => None,
    }
}
