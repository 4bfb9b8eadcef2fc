//! Frames in place in the bytes of a stream.

ghost use Rattle.std.specs.Prelude.{◌≡◌, ◌<◌, ◌^◌, IfOk, IfErr, IfSome, IfNone, Some, None, length};
ghost use Rattle.mrpc_table.specs.Valid.{IsValid};
ghost use Rattle.frame_transport.specs.Messages.{payload_message};
ghost use Rattle.frame_transport.specs.Frames.{HasNoFrame};
ghost use Rattle.frame_transport.specs.CallKinds.{call_kind_of_frame};
ghost use Rattle.frame_transport.specs.FramesInPlace.{IsFrameAt, owned_frame};

use crate::fault::FeedFault;
use crate::format::{HEADER_LEN, call_kind_of_frame};
use crate::header::{fault_in, read_header};
use mrpc_table::{CallKind, Table};

/// A frame whose payload is borrowed from the bytes of its stream.
#[derive(Clone, Copy)]
pub struct FrameRef<'a> {
    /// 1 for a request, 2 for a reply, 3 for a hello.
    pub kind: u8,
    /// 1, or in a hello also 2.
    pub version: u8,
    /// The method's index; it has no meaning in a hello.
    pub method: u16,
    /// The sender's connection.
    pub conn: u32,
    /// The sequence number of a request, or the number of the request that a reply answers; it has no meaning in a
    /// hello.
    pub number: u32,
    /// The payload, at most 262144 bytes.
    pub payload: &'a [u8],
    /// The offset of the frame's first byte in its stream, from 0.
    pub place: u64,
}

impl<'a> FrameRef<'a> {
    /// Whether it is a request or a reply; `None` for a hello.
    pub fn call_kind(&self) -> Option<CallKind>
        ensures { result ≡ call_kind_of_frame self.now.kind }
    {
        call_kind_of_frame(self.kind)
    }

    /// The message that the payload of a request or a reply encodes, by its index in the table: the method's input or
    /// its output.
    pub fn payload_message(&self, table: &Table) -> u32
        requires valid { IsValid table.now }
        requires known { self.now.method < length table.now.methods }
        ensures place { result ≡ payload_message table.now (owned_frame self.now) }
        ensures within { result < length table.now.messages }
    {
        let sort = self.call_kind().unwrap_or(CallKind::Reply);
        table.message_of(self.method, sort)
    }
}

/// Reads the first frame of the bytes of a stream, which are at this offset. `None` if they end inside a frame that has
/// no fault so far. The error is the first fault of its header. It allocates nothing, and never returns `Memory`.
pub fn frame_at<'a>(place: u64, bytes: &'a [u8]) -> Result<Option<FrameRef<'a>>, FeedFault>
    requires room { place < 2 ^ 63 }
    ensures frame { IfOk result (λ front. IfSome front (λ frame. IsFrameAt place bytes.now (owned_frame frame))) }
    ensures partial { IfOk result (λ front. IfNone front (HasNoFrame place bytes.now None)) }
    ensures fault { IfErr result (λ fault. HasNoFrame place bytes.now (Some fault)) }
{
    if let Some(fault) = fault_in(place, bytes) {
        return Err(fault);
    }
    let Some(header) = read_header(bytes) else {
        return Ok(None);
    };
    if bytes.len() - HEADER_LEN < header.length {
        return Ok(None);
    }
    Ok(Some(FrameRef {
        kind: header.kind,
        version: header.version,
        method: header.method,
        conn: header.conn,
        number: header.number,
        payload: &bytes[HEADER_LEN..HEADER_LEN + header.length],
        place,
    }))
}
