//! Frames: the format of calls and replies on a byte stream, and a reader that finds them however the stream is split
//! into pieces.
//!
//! [`frame`] writes the bytes of a frame, a [`ByteLink`] sends them over a sink, and a [`Feed`] takes a stream in any
//! pieces and gives its frames. [`frame_at`] reads the first frame of a stream that is complete in memory. The format
//! is this project's own: a header of 16 bytes, followed by the payload. The header is the payload's length, the kind,
//! the version, the method, the connection and the number, each number big-endian.
//!
//! This crate depends on `mrpc_base` for links and sinks, on `mrpc_table` for lists of bytes, on `byteorder` for the
//! header's numbers and on `thiserror` for the faults of a stream. The layer above uses two contracts. The frames that
//! a feed gives are those of the stream that it was fed, in order and each once, followed by the stream's first fault.
//! A frame that a link over a sink has sent was written whole; otherwise a write failed, and a proper prefix of the
//! frame was written.
#![tactic(auto)]

mod advance;
mod byte_link;
mod fault;
mod feed;
mod format;
mod frame_ref;
mod handed;
mod header;
mod laws;
mod parsed_frame;
mod parsed_header;
mod split;
mod written;

pub use byte_link::ByteLink;
pub use fault::FeedFault;
pub use feed::Feed;
pub use format::{
    Frame, HEADER_LEN, HELLO, HELLO_VERSION, MAX_PAYLOAD, METHOD_PLACE, REPLY, REQUEST, VERSION,
    frame_kind_of,
};
pub use frame_ref::{FrameRef, frame_at};
pub use laws::{frame_is_unique, frames_join, split_is_unique};
pub use written::{frame, frame_into, hello_frame};
