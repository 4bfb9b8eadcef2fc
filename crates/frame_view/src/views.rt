//! The frames of an input, in order.

ghost use Rattle.std.specs.Prelude.{◌≡◌, ◌<◌, ◌≤◌, ◌^◌, ◌++◌, ℕ, List, length, drop, OnOk, IfOk, IfErr, Err};
ghost use Rattle.mrpc_base.specs.Failures.{HasCause};
ghost use Rattle.mrpc_table.specs.Valid.{IsValid};
ghost use Rattle.frame_transport.specs.FramesInPlace.{owned_frame};
ghost use Rattle.frame_view.specs.Contents.{IsContentOf};
ghost use Rattle.frame_view.specs.Faults.{OnFault, IsFaultOfNext};
ghost use Rattle.frame_view.specs.Views.{IsViewOf};
ghost use Rattle.frame_view.specs.ViewRanges.{IsLinesOf, HasWrittenViews};
ghost use Rattle.frame_view.specs.Written.{OnViewError, HasViewedText, HasViewedToFault};

use crate::heads::{put_call, put_hello};
use crate::{
    FrameContent, ReadFault, content_of, frame_from_stream, frames_are_consecutive, read_head,
};
use frame_transport::{FrameRef, HEADER_LEN};
use mrpc_base::{Sink, write_all};
use mrpc_table::{Bytes, Memory, Table};
use std::alloc::Global;
use text_format::append_message;
use wire_decode::TreePool;

// The fewest bytes of text that are gathered before a write.
const PIECE: usize = 65_536;

/// Why the view stops.
#[derive(Drop, Clone, Copy)]
pub enum ViewError {
    /// The reading of the input stopped.
    Read(ReadFault),
    /// A write failed.
    Out,
}

impl From<ReadFault> for ViewError {
    ghost use Rattle.std.specs.Prelude.{◌≡◌};
    ghost use Rattle.frame_view.specs.declared.views.ViewError.TheVariants.{Read};

    ghost from_gives = { λ fault stop. stop ≡ Read fault };

    fn from(fault: ReadFault) -> ViewError {
        ViewError::Read(fault)
    }
}

/// Writes each frame of an input in words, up to its end or its first fault.
pub fn view_frames<K: Sink>(alloc: Global, text: &[u8], out: &mut K) -> Result<(), ViewError>
    requires short { length text.now < 2 ^ 63 }
    ensures done { OnOk result (HasViewedText text.now (K.written out.old) (K.written out.new)) }
    ensures cut { IfErr result (OnViewError (HasViewedToFault text.now (K.written out.old) (K.written out.new))) }
    ensures out_cause { HasCause (result ≡ Err ViewError.Out) (K.failures out.old) (K.failures out.new) }
{
    frames_are_consecutive();
    match read_head(alloc, text) {
        Ok((table, stream)) => view_stream(alloc, &table, stream, out),
        Err(fault) => Err(ViewError::Read(fault)),
    }
}

// Writes the frames of a stream.
fn view_stream<K: Sink>(
    alloc: Global,
    table: &Table,
    stream: &[u8],
    out: &mut K,
) -> Result<(), ViewError>
    requires valid { IsValid table.now }
    requires countable { length stream.now < 2 ^ 63 }
    ensures done { OnOk result ((to : ℕ) × (length stream.now ≤ to)
        × HasWrittenViews table.now stream.now to (K.written out.old) (K.written out.new)) }
    ensures cut { IfErr result (OnViewError (λ place word. (to : ℕ)
        × HasWrittenViews table.now stream.now to (K.written out.old) (K.written out.new)
        × IsFaultOfNext table.now to (drop to stream.now) place word)) }
    ensures out_cause { HasCause (result ≡ Err ViewError.Out) (K.failures out.old) (K.failures out.new) }
{
    frames_are_consecutive();
    let mut spare = TreePool::new(alloc);
    let mut place = 0;
    while place < stream.len() {
        let mut lines = Bytes::new(alloc);
        let told = append_views(alloc, table, stream, place, &mut spare, &mut lines);
        // After `Memory` the lines may be truncated anywhere, so none of them is written.
        if matches!(told, Err(ReadFault::Memory)) {
            return Err(ViewError::Read(ReadFault::Memory));
        }
        if !write_all(out, lines.as_slice()) {
            return Err(ViewError::Out);
        }
        place = told?;
    }
    Ok(())
}

// Appends the frames of a stream from this offset until `PIECE` bytes are gathered or the stream ends.
// Returns the offset after them.
fn append_views(
    alloc: Global,
    table: &Table,
    stream: &[u8],
    from: usize,
    spare: &mut TreePool,
    lines: &mut Bytes,
) -> Result<usize, ReadFault>
    requires valid { IsValid table.now }
    requires countable { length stream.now < 2 ^ 63 }
    requires some { from < length stream.now }
    ensures shown { IfOk result (λ to. (text : List ℕ) × (lines.new ≡ lines.old ++ text)
        × IsLinesOf table.now stream.now from to text) }
    ensures further { IfOk result (λ to. from < to) }
    ensures fault { IfErr result (OnFault (λ place word. (to : ℕ) × (text : List ℕ) × (lines.new ≡ lines.old ++ text)
        × IsLinesOf table.now stream.now from to text × IsFaultOfNext table.now to (drop to stream.now) place word)) }
{
    frames_are_consecutive();
    let mut place = from;
    'frames: loop {
        place = append_next_view(alloc, table, stream, place, spare, lines)?;
        if place >= stream.len() || lines.len() >= PIECE {
            return Ok(place);
        }
    }
}

// Appends the frame at this offset of a stream, and returns the offset after it.
fn append_next_view(
    alloc: Global,
    table: &Table,
    stream: &[u8],
    from: usize,
    spare: &mut TreePool,
    lines: &mut Bytes,
) -> Result<usize, ReadFault>
    requires valid { IsValid table.now }
    requires countable { length stream.now < 2 ^ 63 }
    requires some { from < length stream.now }
    ensures shown { IfOk result (λ to. (text : List ℕ) × (lines.new ≡ lines.old ++ text)
        × IsLinesOf table.now stream.now from to text) }
    ensures further { IfOk result (λ to. from < to) }
    ensures fault { IfErr result (OnFault (λ place word. (lines.new ≡ lines.old)
        × IsFaultOfNext table.now from (drop from stream.now) place word)) }
{
    frames_are_consecutive();
    let frame = frame_from_stream(stream, from)?;
    let content = content_of(alloc, spare, table, &frame)?;
    append_view(alloc, table, &frame, content, spare, lines)?;
    Ok(from + HEADER_LEN + frame.payload.len())
}

// Appends a frame with its content, and recycles the content's tree.
fn append_view(
    alloc: Global,
    table: &Table,
    frame: &FrameRef,
    content: FrameContent,
    spare: &mut TreePool,
    lines: &mut Bytes,
) -> Result<(), Memory>
    requires valid { IsValid table.now }
    requires content { IsContentOf table.now (owned_frame frame.now) content }
    ensures { OnOk result ((text : List ℕ) × IsViewOf table.now (owned_frame frame.now) text
        × (lines.new ≡ lines.old ++ text)) }
{
    match content {
        FrameContent::Hello => put_hello(lines, frame),
        FrameContent::Call { message, tree } => {
            put_call(lines, table, frame)?;
            append_message(alloc, lines, &tree, table, message)?;
            spare.recycle(tree);
            Ok(())
        }
    }
}
