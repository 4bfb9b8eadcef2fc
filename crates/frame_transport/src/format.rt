//! The parts of a frame.

ghost use Rattle.std.specs.Prelude.{◌≡◌, ◌≤◌};
ghost use Rattle.frame_transport.specs.CallKinds.{frame_kind_of, call_kind_of_frame};

use mrpc_table::{Bytes, CallKind};

/// The length of a frame's header, in bytes.
pub const HEADER_LEN: usize = 16;

/// The offset of the method in a header.
pub const METHOD_PLACE: u64 = 6;

/// The most bytes of a payload.
pub const MAX_PAYLOAD: usize = 262144;

/// The version of requests and replies. A hello may have it too.
pub const VERSION: u8 = 1;

/// The version that only a hello may have.
pub const HELLO_VERSION: u8 = 2;

/// The kind of a request.
pub const REQUEST: u8 = 1;

/// The kind of a reply.
pub const REPLY: u8 = 2;

/// The kind of a hello, which opens a connection. It is the greatest kind.
pub const HELLO: u8 = 3;

/// The kind of the frames of requests, or of replies.
pub fn frame_kind_of(sort: CallKind) -> u8
    ensures value { result ≡ frame_kind_of sort }
    ensures least { REQUEST ≤ result }
    ensures greatest { result ≤ REPLY }
{
    match sort {
        CallKind::Request => REQUEST,
        CallKind::Reply => REPLY,
    }
}

// Whether the frames of a kind are requests or replies; `None` for a hello.
pub(crate) fn call_kind_of_frame(kind: u8) -> Option<CallKind>
    ensures { result ≡ call_kind_of_frame kind }
{
    if kind == REQUEST {
        Some(CallKind::Request)
    } else if kind == REPLY {
        Some(CallKind::Reply)
    } else {
        None
    }
}

/// A frame that was received from a stream.
#[derive(Drop)]
pub struct Frame {
    /// 1 for a request, 2 for a reply, 3 for a hello.
    pub kind: u8,
    /// 1, or in a hello also 2.
    pub version: u8,
    /// The method's index; it has no meaning in a hello.
    pub method: u16,
    /// The sender's connection.
    pub conn: u32,
    /// The sequence number of a request, or the number of the request that a reply answers; it has no meaning in a
    /// hello.
    pub number: u32,
    /// The payload, at most 262144 bytes.
    pub payload: Bytes,
    /// The offset of the frame's first byte in its stream, from 0.
    pub place: u64,
}

impl Frame {
    /// Whether it is a request or a reply; `None` for a hello.
    pub fn call_kind(&self) -> Option<CallKind>
        ensures { result ≡ call_kind_of_frame self.now.kind }
    {
        call_kind_of_frame(self.kind)
    }
}
