//! The words of a message in a heap.

use mrpc_table::Sequence;

/// Words in load order, each a place and a value.
pub type Loads = Sequence<(u64, u64)>;

/// A message in a heap: the place of its node, and all words that are loaded for it. Its type, the address and these
/// words determine the placed tree ([`crate::loads_determine_placed_tree`]), so nothing else is kept.
#[derive(Drop)]
pub struct Placed {
    /// The place of the node's first word.
    pub address: u64,
    pub words: Loads,
}
