//! How a feed advances with a further piece.

ghost use Rattle.std.specs.Prelude.{◌≡◌, ◌+◌, ◌<◌, ◌^◌, ◌++◌, length, min, is_some, if◌then◌else◌, OnOk, OnErr, IfOk, None};
ghost use Rattle.frame_transport.specs.Frames.{IsPartial};
ghost use Rattle.frame_transport.specs.Kept.{IsAdvance};
ghost use Rattle.frame_transport.specs.Parts.{remainder_after};

use crate::fault::FeedFault;
use crate::format::{Frame, HEADER_LEN};
use crate::split::split;
use mrpc_table::Memory;
use std::alloc::Global;
use std::collections::VecDeque;

// The progress that a piece made.
#[derive(Drop)]
pub(crate) struct Advance {
    // The offset after the last whole frame.
    pub end: u64,
    // How many bytes of the piece aren't kept, because they are past a fault.
    pub dropped: usize,
    // The fault after the last whole frame.
    pub fault: Option<FeedFault>,
}

// Advances by a piece that follows `begun`, whose first byte is at offset `end`. If it is out of memory, nothing
// changes.
pub(crate) fn advance_by(
    alloc: Global,
    end: u64,
    waiting: &mut VecDeque<Frame>,
    begun: &mut Vec<u8>,
    piece: &[u8],
) -> Result<Advance, Memory>
    requires partial { IsPartial begun.old.items }
    requires room { end + length begun.old.items + length piece.now < 2 ^ 63 }
    ensures ok { IfOk result (λ went. IsAdvance
        (record { waiting = waiting.old.items; end = end; begun = begun.old.items }) piece.now
        (record { waiting = waiting.new.items; end = went.end; begun = begun.new.items }) went.dropped went.fault) }
    ensures waiting { OnErr result (waiting.new.items ≡ waiting.old.items) }
    ensures begun { OnErr result (begun.new.items ≡ begun.old.items) }
{
    let mut found = split(alloc, end, begun, piece)?;
    let left = found.left;
    let kept = kept_len(found.fault, left.len());
    keep(alloc, waiting, begun, &mut found.frames, &left[..kept])?;
    Ok(Advance {
        end: found.end,
        dropped: left.len() - kept,
        fault: found.fault,
    })
}

// Appends the frames to the waiting ones, and the bytes after them to those of the partial frame. If there are frames,
// the partial frame is a new one.
fn keep(
    alloc: Global,
    waiting: &mut VecDeque<Frame>,
    begun: &mut Vec<u8>,
    frames: &mut VecDeque<Frame>,
    left: &[u8],
) -> Result<(), Memory>
    ensures waiting { OnOk result (waiting.new.items ≡ waiting.old.items ++ frames.old.items) }
    ensures begun { OnOk result (begun.new.items ≡ remainder_after frames.old.items begun.old.items left.now) }
    ensures same_waiting { OnErr result (waiting.new.items ≡ waiting.old.items) }
    ensures same_begun { OnErr result (begun.new.items ≡ begun.old.items) }
{
    if frames.is_empty() {
        begun.extend_from_slice(left)?;
        return Ok(());
    }
    let next = Vec::from_slice(alloc, left)?;
    waiting.append(frames)?;
    *begun = next;
    Ok(())
}

// How many of the bytes after the last whole frame are kept: all of them, or with a fault at most as many as a header
// has.
fn kept_len(fault: Option<FeedFault>, left: usize) -> usize
    ensures { result ≡ (if is_some fault then min left HEADER_LEN else left) }
{
    match fault {
        None => left,
        Some(_) => left.min(HEADER_LEN),
    }
}
