//! The lines that replay consecutive frames.

ghost use Rattle.std.specs.Prelude.{◌≡◌, ◌<◌, ◌≤◌, ◌^◌, ◌++◌, ◌+◌, ◌==◌, ℕ, List, [], length, if◌then◌else◌, IfOk, IfErr, IfSome, IfNone, OnOk};
ghost use Rattle.mrpc_table.specs.Valid.{IsValid};
ghost use Rattle.frame_transport.specs.FramesInPlace.{owned_frame};
ghost use Rattle.frame_view.specs.Contents.{IsContentOf, IsMessageOfFrame};
ghost use Rattle.frame_transport.specs.Messages.{payload_message};
ghost use Rattle.frame_view.specs.Faults.{OnFault};
ghost use Rattle.script_view.specs.Playing.{IsNumberedAfter, lines_of_call, conn_line};
ghost use Rattle.mrpc_table.specs.declared.table.Table.{Table};
ghost use Rattle.replay_script.specs.declared.limits.TheConstants.{MAX_CONNECTIONS};
ghost use Rattle.script_view.specs.Unplayable.{IsLaidOut, IsReplayedBy, IsUnplayable, CallCounts, last_number};
ghost use Rattle.script_view.specs.declared.limits.TheConstants.{MAX_BODY};
ghost use Rattle.script_view.specs.ReplayRanges.{IsReplayBetween, IsReplayOfFrame, IsFirstStop, IsStopOfNext, call_counts_of};

use crate::calls::{ReplayCalls, is_conn};
use crate::limits::{FIRST_PLACE, MAX_BODY, MAX_REPLAY_WORDS};
use crate::lines::{put_blanks, put_conn, put_hello, put_send, put_stores, put_submit};
use frame_transport::{FrameRef, HEADER_LEN, REQUEST};
use frame_view::{FrameContent, ReadFault, content_of, frame_from_stream, frames_are_consecutive};
use graph_form::Placed;
use graph_place::{layout, place_words};
use mrpc_table::{Bytes, MAX_LOADS, Memory, Table, Tree};
use std::alloc::Global;
use wire_decode::TreePool;

// The offset of the sender's connection in a header, and that of the number.
const CONN_PLACE: u64 = 8;

const NUMBER_PLACE: u64 = 12;

// Appends the lines that replay the frames of a stream, in order.
pub(crate) fn put_stream(
    alloc: Global,
    table: &Table,
    stream: &[u8],
    spare: &mut TreePool,
    calls: &mut ReplayCalls,
    body: &mut Bytes,
) -> Result<(), ReadFault>
    requires valid { IsValid table.now }
    requires countable { length stream.now < 2 ^ 63 }
    requires empty { body.old ≡ [] }
    ensures made { OnOk result ((to : ℕ) × (text : List ℕ) × (length stream.now ≤ to) × (body.new ≡ body.old ++ text)
        × IsReplayBetween table.now stream.now 0 to (call_counts_of calls.old) text (call_counts_of calls.new)) }
    ensures short { OnOk result (length body.new ≤ MAX_BODY) }
    ensures fault { IfErr result (OnFault (IsFirstStop table.now stream.now (call_counts_of calls.old))) }
{
    frames_are_consecutive();
    let mut place = 0;
    while place < stream.len() {
        place = put_frame(alloc, table, stream, place, spare, calls, body)?;
    }
    Ok(())
}

// Appends the lines that replay the frame at this offset of a stream, and returns the offset after it.
fn put_frame(
    alloc: Global,
    table: &Table,
    stream: &[u8],
    from: usize,
    spare: &mut TreePool,
    calls: &mut ReplayCalls,
    body: &mut Bytes,
) -> Result<usize, ReadFault>
    requires valid { IsValid table.now }
    requires countable { length stream.now < 2 ^ 63 }
    requires some { from < length stream.now }
    ensures made { IfOk result (λ to. (text : List ℕ) × (body.new ≡ body.old ++ text)
        × IsReplayBetween table.now stream.now from to (call_counts_of calls.old) text (call_counts_of calls.new)) }
    ensures short { OnOk result (length body.new ≤ MAX_BODY) }
    ensures further { IfOk result (λ to. from < to) }
    ensures fault { IfErr result (OnFault
        (IsStopOfNext table.now stream.now from (call_counts_of calls.old) (length body.old))) }
{
    frames_are_consecutive();
    let frame = frame_from_stream(stream, from)?;
    let content = content_of(alloc, spare, table, &frame)?;
    put_content(alloc, table, &frame, content, spare, calls, body)?;
    if body.len() > MAX_BODY {
        return Err(unplayable(&frame, 0, "Size"));
    }
    Ok(from + HEADER_LEN + frame.payload.len())
}

// Appends the lines that replay a frame with this content.
fn put_content(
    alloc: Global,
    table: &Table,
    frame: &FrameRef,
    content: FrameContent,
    spare: &mut TreePool,
    calls: &mut ReplayCalls,
    body: &mut Bytes,
) -> Result<(), ReadFault>
    requires valid { IsValid table.now }
    requires near { frame.now.place < 2 ^ 63 }
    requires content { IsContentOf table.now (owned_frame frame.now) content }
    ensures made { OnOk result ((text : List ℕ) × (body.new ≡ body.old ++ text)
        × IsReplayOfFrame table.now (call_counts_of calls.old) (owned_frame frame.now) text (call_counts_of calls.new)) }
    ensures fault { IfErr result (OnFault (λ place word. (size : ℕ)
        → IsUnplayable table.now (call_counts_of calls.old) size
        (owned_frame frame.now) place word)) }
{
    match content {
        FrameContent::Hello => {
            put_hello(body)?;
            Ok(())
        }
        FrameContent::Call { message, tree } => {
            let put = put_call(alloc, table, frame, message, &tree, calls, body);
            spare.recycle(tree);
            put
        }
    }
}

// Appends the lines that replay a request or a reply.
fn put_call(
    alloc: Global,
    table: &Table,
    frame: &FrameRef,
    message: u32,
    tree: &Tree,
    calls: &mut ReplayCalls,
    body: &mut Bytes,
) -> Result<(), ReadFault>
    requires valid { IsValid table.now }
    requires message { message ≡ payload_message table.now (owned_frame frame.now) }
    requires near { frame.now.place < 2 ^ 63 }
    requires of_frame { IsMessageOfFrame table.now (owned_frame frame.now) tree.now }
    ensures made { OnOk result ((text : List ℕ) × (body.new ≡ body.old ++ text)
        × IsReplayOfFrame table.now (call_counts_of calls.old) (owned_frame frame.now) text (call_counts_of calls.new)) }
    ensures fault { IfErr result (OnFault (λ place word. (size : ℕ)
        → IsUnplayable table.now (call_counts_of calls.old) size
        (owned_frame frame.now) place word)) }
{
    if !is_conn(frame.conn) {
        return Err(unplayable(frame, CONN_PLACE, "Conn"));
    }
    let last = calls.last(frame.conn);
    let Some(blanks) = blanks_before(frame, last) else {
        return Err(unplayable(frame, NUMBER_PLACE, "Number"));
    };
    let placed = laid_out(alloc, table, frame, message, tree)?;
    put_placed(frame, last, blanks, &placed, calls, body)
}

// Like `put_call`, given the words of the message, the last number of its connection, and the number of calls
// without a message before it.
fn put_placed(
    frame: &FrameRef,
    last: u64,
    blanks: u64,
    placed: &Placed,
    calls: &mut ReplayCalls,
    body: &mut Bytes,
) -> Result<(), ReadFault>
    requires near { frame.now.place < 2 ^ 63 }
    requires conn { frame.now.conn ≤ MAX_CONNECTIONS }
    requires blanks { blanks < 2 ^ 32 }
    requires last { last ≡ last_number (call_counts_of calls.old) (owned_frame frame.now) }
    ensures made { (T : Table) → IsReplayedBy T (call_counts_of calls.old) (owned_frame frame.now) blanks placed.now
        → OnOk result ((text : List ℕ) × (body.new ≡ body.old ++ text)
        × IsReplayOfFrame T (call_counts_of calls.old) (owned_frame frame.now) text (call_counts_of calls.new)) }
    ensures fault { (T : Table) → IsReplayedBy T (call_counts_of calls.old) (owned_frame frame.now) blanks placed.now
        → IfErr result (OnFault (λ place word. (size : ℕ) → IsUnplayable T (call_counts_of calls.old) size
        (owned_frame frame.now) place word)) }
{
    if !calls.add(frame.conn, blanks, placed.words.len() as u64) {
        return Err(unplayable(frame, 0, "Work"));
    }
    put_lines(body, frame, last, blanks, placed)?;
    Ok(())
}

// How many calls without a message must precede that of a frame, given the last number of its connection.
// `None` if no call can have the frame's number.
fn blanks_before(frame: &FrameRef, last: u64) -> Option<u64>
    ensures some { IfSome result (λ blanks. IsNumberedAfter (owned_frame frame.now) last blanks) }
    ensures small { IfSome result (λ blanks. blanks < 2 ^ 32) }
    ensures none { IfNone result ((blanks : ℕ) → IsNumberedAfter (owned_frame frame.now) last blanks → ⊥) }
{
    let number = u64::from(frame.number);
    if frame.kind == REQUEST {
        if number <= last {
            return None;
        }
        return Some(number - last - 1);
    }
    if number == 0 { None } else { Some(0) }
}

// The words of a message, each with its place.
fn laid_out(
    alloc: Global,
    table: &Table,
    frame: &FrameRef,
    message: u32,
    tree: &Tree,
) -> Result<Placed, ReadFault>
    requires valid { IsValid table.now }
    requires near { frame.now.place < 2 ^ 63 }
    requires of_frame { IsMessageOfFrame table.now (owned_frame frame.now) tree.now }
    requires message { message ≡ payload_message table.now (owned_frame frame.now) }
    ensures placed { IfOk result (IsLaidOut table.now message tree.now) }
    ensures fault { IfErr result (OnFault (λ place word. (before : CallCounts) (size : ℕ)
        → IsUnplayable table.now before size
        (owned_frame frame.now) place word)) }
{
    if place_words(tree, table, message) >= MAX_REPLAY_WORDS {
        return Err(unplayable(frame, HEADER_LEN as u64, "Words"));
    }
    let placed = layout(alloc, tree, table, message, FIRST_PLACE)?;
    if placed.words.len() as u64 > MAX_LOADS {
        return Err(unplayable(frame, HEADER_LEN as u64, "Loads"));
    }
    Ok(placed)
}

// The fault of a frame that no replay can send, at an offset from the frame's start.
fn unplayable(frame: &FrameRef, at: u64, word: &'static str) -> ReadFault
    requires near { frame.now.place < 2 ^ 63 }
    requires inside { at ≤ HEADER_LEN }
    ensures { OnFault (λ p w. (p ≡ frame.now.place + at) × (w ≡ word.now)) result }
{
    ReadFault::At {
        place: frame.place + at,
        word,
    }
}

// Appends the lines of the frame of a request or a reply.
fn put_lines(
    body: &mut Bytes,
    frame: &FrameRef,
    last: u64,
    blanks: u64,
    placed: &Placed,
) -> Result<(), Memory>
    ensures { OnOk result (body.new ≡ body.old ++ lines_of_call (owned_frame frame.now) last blanks placed.now.words) }
{
    put_opening(body, frame.conn, last)?;
    put_blanks(body, frame.conn, blanks)?;
    put_stores(body, frame.conn, placed.words.as_slice())?;
    put_submit(body, frame)?;
    put_send(body, frame.conn)
}

// Appends the line that opens a connection, before its first call.
fn put_opening(body: &mut Bytes, conn: u32, last: u64) -> Result<(), Memory>
    ensures { OnOk result (body.new ≡ body.old ++ (if last == 0 then conn_line conn else [])) }
{
    if last == 0 {
        put_conn(body, conn)
    } else {
        Ok(())
    }
}
