//! Replay scripts of frames: what `mrpc-view script` writes for the input that `mrpc decode` reads.
//!
//! A replay of the script sends the same requests and replies, each with its message's encoding, as tests
//! show. `graph_place` lays a message out in words; the script stores them from place 1 on, submits the
//! message, and sends it. A replay numbers the calls of a connection itself. So if a request has a higher
//! number, submissions without a message, which are refused at once, precede it. Hellos aren't replayed.
//! `specs/Playing.antt` defines the lines of each frame, and `specs/Scripts.antt` the whole script. A frame
//! that no replay can send is a fault at an offset of the frame, with one of the reasons `Conn`, `Number`,
//! `Words`, `Loads`, `Work` and `Size` (`specs/Unplayable.antt`). The crate uses `frame_view` and
//! `graph_place`. Its one contract for the layer above: frame by frame, the script stores the words of each
//! message as a reader loads them, submits the message and sends it.
#![tactic(auto)]

mod calls;
mod limits;
mod lines;
mod playing;
mod script;

pub use limits::{MAX_BODY, MAX_REPLAY_WORDS};
pub use script::script_of;
