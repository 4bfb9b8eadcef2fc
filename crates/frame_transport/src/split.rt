//! The whole frames at the start of a stream.

ghost use Rattle.std.specs.Prelude.{◌≡◌, ◌+◌, ◌<◌, ◌≤◌, ◌^◌, length, IfOk};
ghost use Rattle.frame_transport.specs.Frames.{IsPartial};
ghost use Rattle.frame_transport.specs.Parts.{IsSplitOfParts};

use crate::fault::FeedFault;
use crate::format::{Frame, HEADER_LEN};
use crate::parsed_frame::{ParsedFrame, parse_frame};
use mrpc_table::Memory;
use std::alloc::Global;
use std::collections::VecDeque;

// The frames that end in a piece, and what follows them.
#[derive(Drop)]
pub(crate) struct SplitResult<'a> {
    // The frames, in order.
    pub frames: VecDeque<Frame>,
    // The offset after them.
    pub end: u64,
    // The bytes of the piece that are in none of them.
    pub left: &'a [u8],
    // The fault after them.
    pub fault: Option<FeedFault>,
}

// Splits `begun` and then `piece` into frames; the first byte is at offset `place`.
pub(crate) fn split<'a>(
    alloc: Global,
    place: u64,
    begun: &[u8],
    piece: &'a [u8],
) -> Result<SplitResult<'a>, Memory>
    requires partial { IsPartial begun.now }
    requires room { place + length begun.now + length piece.now < 2 ^ 63 }
    ensures { IfOk result (λ found.
        IsSplitOfParts place begun.now piece.now found.frames.items found.end found.left.now found.fault) }
{
    let mut frames = VecDeque::new(alloc);
    let mut ahead = begun;
    let mut end = place;
    let mut left = piece;
    'frames: loop {
        match parse_frame(alloc, end, ahead, left)? {
            ParsedFrame::Whole(frame) => {
                let size = HEADER_LEN + frame.payload.len();
                left = &left[size - ahead.len()..];
                ahead = &begun[..0];
                end += size as u64;
                frames.push_back(frame)?;
            }
            ParsedFrame::Partial => {
                return Ok(SplitResult {
                    frames,
                    end,
                    left,
                    fault: None,
                });
            }
            ParsedFrame::Fault(fault) => {
                return Ok(SplitResult {
                    frames,
                    end,
                    left,
                    fault: Some(fault),
                });
            }
        }
    }
}
