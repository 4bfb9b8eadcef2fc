//! Graphs in words: how an unmarshalled message lies in a heap of 64-bit words. The crate defines which words are
//! loaded for it and in which order, which of them are invalid, and which tree they form.
//!
//! The layout is this project's own. The crate depends on `mrpc_table`. Its one contract for the layers above: a
//! type, an address and the loads determine the placed tree.
#![tactic(auto)]

mod laws;
mod placed;
mod reason;
mod size;

pub use laws::{
    loads_determine_placed_tree, loads_end_malformed, malformed_graphs_are_within_limit,
    reading_determines_outcome, sound_tree_is_normal, sound_words_are_loaded,
};
pub use placed::{Loads, Placed};
pub use reason::Reason;
pub use size::{element_words, is_member, oneof_count, run_words, size_words, slot_of};
