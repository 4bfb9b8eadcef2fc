//! The bounded reader of graphs. It copies a message, word by word, into a private tree while an application may
//! still write to it, or rejects the message at its first invalid word.
//!
//! Each word is loaded once for each place that it has in the graph, in layout order, and judged as it comes. The
//! tree is then made from the private words alone. Both steps take time in proportion to the words, except for
//! sorting a map's entries and a message's fields. The expected words are kept on an explicit stack, so nothing in a
//! heap makes the reader recurse deeper than 32 nested messages. The crate depends on `mrpc_base`, `mrpc_table` and
//! `graph_form`, and on `wire_base` for the law that a copy has a short encoding. The layers above use one contract:
//! the result is the tree of a sound graph or the reason why the graph is malformed, over exactly the loads that were
//! made.
#![tactic(auto)]

mod build;
mod copying;
mod follow;
mod forgetting;
mod judge;
mod look_up;
mod order;
mod role;
mod size;
mod stack;
mod take;
mod walk;

pub use copying::{CopyResult, copy};
pub use forgetting::forget;
pub use size::copies_are_short;
