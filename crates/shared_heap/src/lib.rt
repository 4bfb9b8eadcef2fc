//! The words of a heap that one [`Writer`] stores and one [`Reader`] loads, each in a thread of its own. There is no
//! lock: a store, a load, making a [`Note`] and meeting one are single atomic accesses, which never block or
//! allocate. The crate depends on the crate `atomic_table`, whose words change in sequentially consistent accesses,
//! on the traits of `mrpc_base`, and on the limits of `mrpc_table`.
//!
//! What the layer above may use: a reader knows a prefix of the writer's list of stores. It never forgets a store
//! that it knew, or that a note it met knew. A load returns the value that a word has after the stores that the
//! reader then knows, and these are all stores made before the load. So its loads are fresh for what it knows. That
//! is the writer's whole list once the reader has met the writer's last note.
#![tactic(auto)]

mod laws;
mod note;
mod opening;
mod reader;
mod view;
mod writer;

pub use laws::{calls_are_fresh, loads_preserve_reader, since_is_transitive};
pub use note::Note;
pub use opening::open;
pub use reader::Reader;
pub use view::Load;
pub use writer::Writer;
