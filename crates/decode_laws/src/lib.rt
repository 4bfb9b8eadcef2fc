//! Laws: a view of an input ends where `decode` of it ends.
//!
//! `frame_view` reads the input of `decode` for other views of it, and `frame_view` prints its frames in
//! words. The functions here do nothing; their clauses are laws of these crates and of `text_commands`. What
//! is read is what `decode` reads ([`reader_agrees_with_decode`]), and a view of frames ends exactly at
//! the first fault of `decode` ([`view_agrees_with_decode`]). The crate uses these three, `frame_transport`,
//! `wire_base` and `mrpc_table`. No layer uses it.
#![tactic(auto)]

mod laws;

pub use laws::{reader_agrees_with_decode, view_agrees_with_decode};
