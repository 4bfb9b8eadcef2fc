//! The header of a frame, as far as it was received.

ghost use Rattle.std.specs.Prelude.{◌≡◌, ◌<◌, ◌^◌, ◌++◌, ◌↔◌, length, take, IsNone, IfSome, IsTrue};
ghost use Rattle.frame_transport.specs.Frames.{IsKind, HasVersion, HasHeaderFault};
ghost use Rattle.frame_transport.specs.Parts.{IsHeaderOf};

use crate::fault::FeedFault;
use crate::format::{
    HEADER_LEN, HELLO, HELLO_VERSION, MAX_PAYLOAD, METHOD_PLACE, REQUEST, VERSION,
};
use byteorder::{BigEndian, ByteOrder};
use std::marker::Model;

// A header, or as much of it as was received, from the first bytes of two consecutive slices.
#[derive(Drop)]
pub(crate) struct HeaderPart {
    bytes: [u8; HEADER_LEN],
    len: usize,
}

// The numbers of a complete header without a fault.
#[derive(Drop)]
pub(crate) struct FrameHeader {
    pub kind: u8,
    pub version: u8,
    pub method: u16,
    pub conn: u32,
    pub number: u32,
    pub length: usize,
}

impl Model for HeaderPart {
    ghost use Rattle.std.specs.Prelude.{ℕ, List, take, ◌≤◌};
    ghost use Rattle.frame_transport.specs.declared.format.TheConstants.{HEADER_LEN};

    ghost Value = { List ℕ };

    ghost view = { λ b. take b.len b.bytes };

    ghost invariant = { λ b. b.len ≤ HEADER_LEN };
}

impl HeaderPart {
    // The first bytes of `begun` and then `piece`, as many as a header has, or all if there are fewer.
    pub(crate) fn of(begun: &[u8], piece: &[u8]) -> HeaderPart
        ensures { result ≡ take HEADER_LEN (begun.now ++ piece.now) }
    {
        let mut bytes = [0; HEADER_LEN];
        let old = begun.len().min(HEADER_LEN);
        bytes[..old].copy_from_slice(&begun[..old]);
        let new = piece.len().min(HEADER_LEN - old);
        bytes[old..old + new].copy_from_slice(&piece[..new]);
        HeaderPart {
            bytes,
            len: old + new,
        }
    }

    // The bytes of the header so far.
    pub(crate) fn bytes(&self) -> &[u8]
        ensures { result.now ≡ self.now }
    {
        &self.bytes[..self.len]
    }
}

// The first fault of bytes at this offset. Each field is checked as soon as it is complete, in the order of the bytes.
#[tactic(auto, unfolding(crate::specs::Frames::length_field))]
pub(crate) fn fault_in(place: u64, bytes: &[u8]) -> Option<FeedFault>
    requires { place < 2 ^ 63 }
    ensures { HasHeaderFault place bytes.now result }
{
    if bytes.len() < 4 {
        return None;
    }
    let value = BigEndian::read_u32(bytes);
    if value as usize > MAX_PAYLOAD {
        return Some(FeedFault::TooLong { place, value });
    }
    if bytes.len() < 5 {
        return None;
    }
    let kind = bytes[4];
    if !is_kind(kind) {
        return Some(FeedFault::Kind {
            place: place + 4,
            value: kind,
        });
    }
    if bytes.len() < 6 || has_version(kind, bytes[5]) {
        return None;
    }
    Some(FeedFault::Version {
        place: place + 5,
        value: bytes[5],
    })
}

// Whether a frame can have this kind.
fn is_kind(kind: u8) -> bool
    ensures { IsTrue result ↔ IsKind kind }
{
    kind >= REQUEST && kind <= HELLO
}

// Whether a frame of this kind can have this version.
fn has_version(kind: u8, version: u8) -> bool
    ensures { IsTrue result ↔ HasVersion kind version }
{
    version == VERSION || kind == HELLO && version == HELLO_VERSION
}

// The numbers in a header.
#[tactic(auto, unfolding(crate::specs::Frames::length_field))]
pub(crate) fn read_header(bytes: &[u8]) -> Option<FrameHeader>
    ensures none { IsNone result ↔ (length bytes.now < HEADER_LEN) }
    ensures some { IfSome result (IsHeaderOf bytes.now) }
{
    if bytes.len() < HEADER_LEN {
        return None;
    }
    Some(FrameHeader {
        kind: bytes[4],
        version: bytes[5],
        method: BigEndian::read_u16(&bytes[METHOD_PLACE as usize..]),
        conn: BigEndian::read_u32(&bytes[8..]),
        number: BigEndian::read_u32(&bytes[12..]),
        length: BigEndian::read_u32(bytes) as usize,
    })
}
