//! Rings between two threads: of call [`Descriptor`]s, each with a note of the heap that contains its message, and of
//! numbers. A ring is a queue of the crate `crossbeam_queue` under a rule of this crate's own. The crate depends on
//! `crossbeam_queue` and on `shared_heap`. A send, a take and a close may spin while another thread is stalled inside
//! an access, so they take a handle. They allocate nothing.
//!
//! What the layer above may use: descriptors are taken in the order in which they were sent. Each has a note of the
//! ring's heap that knows as many stores as the descriptor states. After the closing sentinel, what was taken is what
//! was sent. An end can share the ring's progress with the other one. If a ring rejected an item, it held as many
//! sent items as its capacity, and those that the sender has observed as taken come before them. If a take finds
//! nothing, the receiver took all items that it has observed as sent.
#![tactic(auto)]

mod calls;
mod descriptor;
mod lesson;
mod limits;
mod numbers;
mod progress;
mod ring;
mod ring_rule;

pub use descriptor::{Descriptor, Full, Taken};
pub use lesson::Lesson;
pub use limits::MAX_CAPACITY;
pub use numbers::{
    NumberFull, NumberReceiver, NumberSender, NumberTaken, NumbersSent, open_numbers,
};
pub use progress::Progress;
pub use ring::{Receiver, Sender, Sent, open};
