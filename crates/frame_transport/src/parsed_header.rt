//! The header at the start of bytes that come in two parts.

ghost use Rattle.std.specs.Prelude.{◌<◌, ◌^◌, ◌++◌};
ghost use Rattle.frame_transport.specs.Frames.{IsPartial};
ghost use Rattle.frame_transport.specs.Parts.{HasBeginning};

use crate::fault::FeedFault;
use crate::header::{FrameHeader, HeaderPart, fault_in, read_header};

// The header at the start of a stream.
#[derive(Drop)]
pub(crate) enum ParsedHeader {
    // A field of the header is at fault.
    Fault(FeedFault),
    // The header isn't complete yet, and has no fault so far.
    Short,
    // A header without a fault.
    Clear(FrameHeader),
}

// Reads the header at the start of `begun` and then `piece`; the first byte is at offset `place`.
pub(crate) fn parse_header(place: u64, begun: &[u8], piece: &[u8]) -> ParsedHeader
    requires partial { IsPartial begun.now }
    requires room { place < 2 ^ 63 }
    ensures { HasBeginning place begun.now piece.now result }
{
    let part = HeaderPart::of(begun, piece);
    let bytes = part.bytes();
    if let Some(fault) = fault_in(place, bytes) {
        return ParsedHeader::Fault(fault);
    }
    match read_header(bytes) {
        None => ParsedHeader::Short,
        Some(header) => ParsedHeader::Clear(header),
    }
}
