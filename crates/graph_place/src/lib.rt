//! The writer of graphs: it stores a message's tree as words in a heap, so that a reader of graphs copies the same
//! tree from there.
//!
//! The node of a message comes first, and the content of its slots after it, each in load order. First all words are
//! laid out, each with its place ([`layout`]). Then they are stored ([`store`]). So all memory is allocated before
//! the first store, and the time is in proportion to the words. Messages are written by recursion, at most 32 calls
//! deep for a normal tree. The crate depends on `mrpc_base`, `mrpc_table` and `graph_form`. The layers above use one
//! contract: what is stored is exactly what a reader loads of a sound graph, and its tree is the given one.
#![tactic(auto)]

mod builder;
mod laws;
mod look_up;
mod placing;
mod size;

pub use laws::{placed_message_is_copied, stored_words_are_found};
pub use placing::{layout, place, store};
pub use size::place_words;
