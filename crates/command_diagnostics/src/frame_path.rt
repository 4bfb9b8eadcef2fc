//! The fields of a frame's message that contain a byte.

ghost use Rattle.std.specs.Prelude.{◌≤◌, length, IfSome};
ghost use Rattle.mrpc_table.specs.Valid.{IsValid};

use diagnostics::DiagnosticText;
use frame_transport::{FrameRef, HEADER_LEN};
use mrpc_table::{Kind, MAX_DEPTH, Memory, Table};
use wire_base::{read_delimited, read_record, read_tag};

// Appends the numbers of the fields that contain a byte of a frame, joined by dots.
pub(crate) fn say_path(
    table: &Table,
    frame: &FrameRef<'_>,
    at: usize,
    sentence: &mut DiagnosticText,
) -> Result<(), Memory>
    requires valid { IsValid table.now }
{
    let Some(sort) = frame.call_kind() else {
        return Ok(());
    };
    if table.methods.len() <= frame.method as usize || at < HEADER_LEN {
        return Ok(());
    }
    let message = table.message_of(frame.method, sort);
    say_fields(table, message, frame.payload, at - HEADER_LEN, sentence)
}

// Appends the numbers of the fields of a message that contain a byte of its payload.
fn say_fields(
    table: &Table,
    message: u32,
    payload: &[u8],
    place: usize,
    sentence: &mut DiagnosticText,
) -> Result<(), Memory>
    requires valid { IsValid table.now }
{
    let mut message = message;
    let mut rest = payload;
    let mut place = place;
    for depth in 0..MAX_DEPTH {
        let Some(record) = enclosing_record(rest, place) else {
            return Ok(());
        };
        sentence.append_numbered(
            if depth == 0 { b", field " } else { b"." },
            u64::from(record.number),
        )?;
        let Some(inner) = inner_message(table, message, record.number) else {
            return Ok(());
        };
        if place < record.from {
            return Ok(());
        }
        message = inner;
        rest = &rest[record.from..record.to];
        place -= record.from;
    }
    Ok(())
}

// The message that is the type of a field; `None` if the field has none.
fn inner_message(table: &Table, message: u32, number: u32) -> Option<u32>
    requires valid { IsValid table.now }
{
    match table.field(message, number)?.kind {
        Kind::Message(inner) => Some(inner),
        _ => None,
    }
}

// A record that contains a byte.
#[derive(Clone, Copy)]
struct EnclosingRecord {
    // The number of its field.
    number: u32,
    // The start of its own payload if it has a length, and else the end of all.
    from: usize,
    // The end of its own payload.
    to: usize,
}

// The record of a payload that contains a byte; `None` if there is no tag.
fn enclosing_record(payload: &[u8], place: usize) -> Option<EnclosingRecord>
    ensures { IfSome result (λ r. (r.from ≤ r.to) × (r.to ≤ length payload.now)) }
{
    let mut at = 0;
    for _ in 0..payload.len() {
        match record_end(payload, at, place) {
            Some(next) => at = next,
            None => return record_at(payload, at),
        }
    }
    None
}

// The end of the record at an offset, if that is at or before the byte.
fn record_end(payload: &[u8], at: usize, place: usize) -> Option<usize> {
    if at > payload.len() {
        return None;
    }
    match read_record(payload, at) {
        Ok(record) if record.next <= place => Some(record.next),
        _ => None,
    }
}

// The record at an offset; `None` if there is no tag.
fn record_at(payload: &[u8], at: usize) -> Option<EnclosingRecord>
    ensures { IfSome result (λ r. (r.from ≤ r.to) × (r.to ≤ length payload.now)) }
{
    if at > payload.len() {
        return None;
    }
    let (tag, start) = read_tag(payload, at).ok()?;
    let number = tag / 8;
    if tag % 8 != 2 || start > payload.len() {
        return Some(EnclosingRecord {
            number,
            from: payload.len(),
            to: payload.len(),
        });
    }
    match read_delimited(payload, start) {
        Ok((from, to)) => Some(EnclosingRecord { number, from, to }),
        Err(_) => Some(EnclosingRecord {
            number,
            from: payload.len(),
            to: payload.len(),
        }),
    }
}
