//! Links whose frames another thread forwards.
//!
//! [`open`] puts a queue before a link. A [`QueueLink`] accepts frames at once and delivers the bytes that
//! arrived. A [`QueueWriter`], in a thread of its own, forwards the frames to the inner link and returns the
//! bytes that it receives.
//!
//! The crate uses `spsc_queue` for the queues in both directions, `polling` for an idle writer, `mrpc_base` for links,
//! `mrpc_table` for lists of bytes, and `atomic_table` for the identity of the queues. The layer above uses one
//! contract, once the link was closed and the writer has ended. By [`WriterEnd::meet`], the frames that the inner link
//! sent are a prefix of those pushed into the queue, in order. They are all of them unless the inner link failed or the
//! writer was out of memory. The bytes that the link delivered are a prefix of those that the inner link received.
#![tactic(auto)]

mod earlier;
mod inner;
mod limits;
mod opening;
mod orders;
mod queue_link;
mod tracked;
mod writer;
mod writer_end;

pub use limits::MAX_CAPACITY;
pub use opening::open;
pub use orders::Health;
pub use queue_link::{ClosedQueueLink, QueueLink};
pub use writer::QueueWriter;
pub use writer_end::WriterEnd;
