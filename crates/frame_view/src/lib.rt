//! Frames in words: what `mrpc-view frames` writes for the input that `mrpc decode` reads.
//!
//! Each frame has a line that starts with `#`, which is a comment in the text format. It has the kind, request or
//! reply, the service and the method, the connection and the number. The text of the message follows, as `protoc
//! --decode` prints it (`specs/Views.antt`).
//!
//! [`read_head`] reads the text of the input, [`frame_from_stream`] the frame at an offset of the stream, and
//! [`content_of`] its message. Each fault has a location and a word: `specs/Input.antt` defines those of the text, and
//! `specs/Faults.antt` those of frames; `decode_laws` proves that they are the faults of `decode`.
//!
//! The crate depends on the readers `table_text`, `frame_transport` and `wire_decode`, and on `text_format`. The layers
//! above use two contracts: each read returns what the input has there, or the first fault; and the output is the view
//! of the frames up to the stream's end or to its first fault.
#![tactic(auto)]

mod content;
mod fault;
mod frame;
mod head;
mod heads;
mod laws;
mod views;

pub use content::{FrameContent, content_of};
pub use fault::ReadFault;
pub use frame::frame_from_stream;
pub use head::read_head;
pub use laws::frames_are_consecutive;
pub use views::{ViewError, view_frames};
