//! Copies of messages that an application no longer modifies, by the reader of a heap that threads share.
//!
//! The crate depends on `graph_copy`, whose `copy` takes any heap of words, on `shared_heap`, whose reader loads
//! while the writer's thread keeps storing, and on `graph_form`, `mrpc_table` and `mrpc_base`. The layers above use
//! one contract, for a sound graph whose words are in the heap after some of the stores that the reader knows. If no
//! later store goes to a place of theirs, the copy is the tree of that graph, whatever is stored elsewhere meanwhile.
#![tactic(auto)]

mod copying;
mod laws;

pub use copying::copy_message;
pub use laws::unmodified_graph_is_copied;
