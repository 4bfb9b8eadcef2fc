//! The faults of `decode`: of the text before the frames, and of the frames.

ghost use Rattle.std.specs.Prelude.{◌≤◌, ℕ, List, length, IfOk};
ghost use Rattle.mrpc_table.specs.Valid.{IsValid};
ghost use Rattle.diagnostics.specs.Locations.{IsLocatedIn};

use crate::fault_line::FaultLine;
use crate::frame_path::say_path;
use crate::lines::{Format, explain_line};
use diagnostics::{Diagnostic, DiagnosticText, WordText, text_or};
use frame_transport::{HEADER_LEN, frame_at};
use mrpc_table::{Memory, Table, is_word};
use std::alloc::Global;
use table_text::{TableFault, read_table, split_table};

// The lines before the table in an input of `decode`.
const HEAD: &[u8] = b"mrpc-decode 1\ntable\n";

// The most bytes around the byte at fault, before it and after it.
const AROUND: usize = 12;

// Sentences for reasons. The last ones are about frames that no replay can send.
const SENTENCES: [WordText; 18] = [
    ("Version", "the version of a frame is 1, of a hello 1 or 2"),
    (
        "Kind",
        "the kind of a frame is 1 (a request), 2 (a reply) or 3 (a hello)",
    ),
    ("TooLong", "a payload has 262144 bytes at the most"),
    ("NoMethod", "the table has no method of this index"),
    ("Varint", "a varint has ten bytes at the most"),
    ("TagRange", "a tag is below 4294967296"),
    ("NumberZero", "a field number is at least 1"),
    ("WireType", "a wire type is 0, 1, 2 or 5"),
    ("Short", "the bytes end inside of what begins here"),
    ("Utf8", "the payload of a string isn't UTF-8"),
    (
        "PackedLength",
        "the payload of packed numbers isn't whole numbers",
    ),
    (
        "Depth",
        "32 messages stand in one another at the most, and this is the 33rd",
    ),
    ("Conn", "the connections of a replay are 1 to 16"),
    (
        "Number",
        "in a replay the numbers of requests rise on each connection, and a reply has one",
    ),
    ("Words", "the heap of a replay has no room for this message"),
    (
        "Loads",
        "a message of a replay takes 16384 loads at the most",
    ),
    (
        "Work",
        "the calls of a replay times the loads of the largest message are 16777216 at the most",
    ),
    (
        "Size",
        "the script of these frames is too long for a replay",
    ),
];

// The fault of an input of `decode`.
pub(crate) fn explain_decode<'a>(
    alloc: Global,
    input: &'a [u8],
    fault: &FaultLine<'_>,
) -> Result<Diagnostic<'a>, Memory>
    ensures { IfOk result (λ f. IsLocatedIn input.now f.part) }
{
    let Some((text, stream)) = split_table(input, HEAD) else {
        return explain_line(alloc, input, fault, Format::Decode);
    };
    match read_table(alloc, text) {
        Ok(table) => frames_diagnostic(alloc, &table, stream, fault),
        Err(TableFault::Memory) => Err(Memory),
        Err(TableFault::At { .. }) => explain_line(alloc, input, fault, Format::Decode),
    }
}

// The fault of the frames, as a sentence alone.
fn frames_diagnostic<'a>(
    alloc: Global,
    table: &Table,
    stream: &[u8],
    fault: &FaultLine<'_>,
) -> Result<Diagnostic<'a>, Memory>
    requires valid { IsValid table.now }
    ensures { (input : List ℕ) → IfOk result (λ f. IsLocatedIn input f.part) }
{
    let mut sentence = DiagnosticText::new(alloc);
    say_frames(table, stream, fault, &mut sentence)?;
    Ok(Diagnostic::alone(sentence))
}

// Appends the location and the fault of the frames, and prints the bytes there.
fn say_frames(
    table: &Table,
    stream: &[u8],
    fault: &FaultLine<'_>,
    sentence: &mut DiagnosticText,
) -> Result<(), Memory>
    requires valid { IsValid table.now }
{
    let at = if fault.place < stream.len() as u64 {
        fault.place as usize
    } else {
        stream.len()
    };
    say_where(table, stream, at, byte_within(at, fault.reason), sentence)?;
    sentence.append(b": ")?;
    sentence.append(text_or(&SENTENCES, fault.reason, "the frame is at fault").as_bytes())?;
    sentence.end_line()?;
    say_around(stream, at, sentence)
}

// A byte of the frame at fault. A message that is too deep starts at the offset of the fault, and may be
// empty and the last of its frame; the byte of its length is before it.
fn byte_within(at: usize, reason: &[u8]) -> usize
    ensures { result ≤ at }
{
    if is_word(reason, b"Depth") {
        at.saturating_sub(1)
    } else {
        at
    }
}

// Appends the offset of a fault, and which frame and which field contain a byte.
fn say_where(
    table: &Table,
    stream: &[u8],
    at: usize,
    byte: usize,
    sentence: &mut DiagnosticText,
) -> Result<(), Memory>
    requires valid { IsValid table.now }
    requires within { byte ≤ length stream.now }
{
    let (count, from) = enclosing_frame(stream, byte);
    sentence.append_numbered(b"byte ", at as u64)?;
    sentence.append_numbered(b" of the frames, in frame ", count)?;
    sentence.append_numbered(b" at byte ", from as u64)?;
    match frame_at(0, &stream[from..]) {
        Ok(Some(frame)) => say_path(table, &frame, byte - from, sentence),
        _ => Ok(()),
    }
}

// The number of the frame, from 1, that contains a byte of a stream, and the offset of that frame.
fn enclosing_frame(stream: &[u8], at: usize) -> (u64, usize)
    ensures before { result.1 ≤ at }
{
    let mut from = 0;
    let mut count: u64 = 1;
    for _ in 0..stream.len() {
        let Some(behind) = frame_end(stream, from) else {
            break;
        };
        if behind > at {
            break;
        }
        from = behind;
        count = count.saturating_add(1);
    }
    (count, from.min(at))
}

// The offset after the frame at an offset; `None` if there is no whole frame.
fn frame_end(stream: &[u8], from: usize) -> Option<usize> {
    if from > stream.len() {
        return None;
    }
    match frame_at(0, &stream[from..]) {
        Ok(Some(frame)) => Some(
            from.saturating_add(HEADER_LEN)
                .saturating_add(frame.payload.len()),
        ),
        _ => None,
    }
}

// Prints the bytes around an offset in hexadecimal digits, with a mark under its own.
fn say_around(stream: &[u8], at: usize, sentence: &mut DiagnosticText) -> Result<(), Memory>
    requires within { at ≤ length stream.now }
{
    let from = at - at.min(AROUND);
    let to = at + (stream.len() - at).min(AROUND);
    for byte in &stream[from..to] {
        sentence.append_digits(*byte)?;
        sentence.append(b" ")?;
    }
    sentence.end_line()?;
    for _ in from..at {
        sentence.append(b"   ")?;
    }
    sentence.append(b"^^")
}
