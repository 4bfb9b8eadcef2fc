//! The frame at the start of bytes that come in two parts.

ghost use Rattle.std.specs.Prelude.{◌≡◌, ◌+◌, ◌<◌, ◌≤◌, ◌^◌, ◌++◌, length, take, drop, IfOk};
ghost use Rattle.frame_transport.specs.Frames.{IsPartial};
ghost use Rattle.frame_transport.specs.Parts.{IsParsedFrame};

use crate::fault::FeedFault;
use crate::format::{Frame, HEADER_LEN, MAX_PAYLOAD};
use crate::parsed_header::{ParsedHeader, parse_header};
use mrpc_table::{Bytes, Memory};
use std::alloc::Global;

// What is at the start of a stream: a whole frame, a part of one, or a fault.
#[derive(Drop)]
pub(crate) enum ParsedFrame {
    Whole(Frame),
    Partial,
    Fault(FeedFault),
}

// What is at the start of `begun` and then `piece`; the first byte is at offset `place`.
pub(crate) fn parse_frame(
    alloc: Global,
    place: u64,
    begun: &[u8],
    piece: &[u8],
) -> Result<ParsedFrame, Memory>
    requires partial { IsPartial begun.now }
    requires room { place < 2 ^ 63 }
    ensures { IfOk result (IsParsedFrame place begun.now piece.now) }
{
    let header = match parse_header(place, begun, piece) {
        ParsedHeader::Fault(fault) => return Ok(ParsedFrame::Fault(fault)),
        ParsedHeader::Short => return Ok(ParsedFrame::Partial),
        ParsedHeader::Clear(header) => header,
    };
    if piece.len() < HEADER_LEN + header.length - begun.len() {
        return Ok(ParsedFrame::Partial);
    }
    let payload = payload_of(alloc, begun, piece, header.length)?;
    Ok(ParsedFrame::Whole(Frame {
        kind: header.kind,
        version: header.version,
        method: header.method,
        conn: header.conn,
        number: header.number,
        payload,
        place,
    }))
}

// The payload, of this length, of the frame that starts in `begun` and ends in `piece`.
fn payload_of(alloc: Global, begun: &[u8], piece: &[u8], size: usize) -> Result<Bytes, Memory>
    requires short { size ≤ MAX_PAYLOAD }
    requires begun { length begun.now < HEADER_LEN + size }
    requires within { HEADER_LEN + size ≤ length begun.now + length piece.now }
    ensures { IfOk result (λ payload. payload ≡ take size (drop HEADER_LEN (begun.now ++ piece.now))) }
{
    let begin = begun.len().min(HEADER_LEN);
    let mut payload = Bytes::with_room(alloc, size)?;
    payload.append(&begun[begin..])?;
    payload.append(&piece[HEADER_LEN - begin..HEADER_LEN + size - begun.len()])?;
    Ok(payload)
}
