//! The port between an application and the service, and its state after the application ended.

use descriptor_ring::{NumberReceiver, NumberSender, NumbersSent, Receiver, Sender, Sent};
use shared_heap::{Note, Reader, Writer};

/// What an application shares with the service.
#[derive(Drop)]
pub struct AppPort<F> {
    /// Its heap, to which it stores its messages.
    pub writer: Writer,
    /// The ring of its calls, with notes of its heap.
    pub sender: Sender,
    /// The capacity of that ring in calls.
    pub capacity: u64,
    /// The ring of notices, one for each message delivered to it, with notes of the receive heap.
    pub notices: Receiver,
    /// The numbers of the blocks of those messages, in the order of the notices.
    pub blocks: NumberReceiver,
    /// Its receive heap, where its messages are delivered.
    pub reader: Reader,
    /// The ring of the blocks that it reclaims.
    pub reclaims: NumberSender,
    /// The stop flag of the run.
    pub stop: F,
}

/// The state of an application after it ended.
#[derive(Drop)]
pub struct AppEnd {
    /// The last note of its heap, which covers all its stores.
    pub note: Note,
    pub reader: Reader,
    pub notices: Receiver,
    pub blocks: NumberReceiver,
    /// Whether it was out of memory. If so, it has set the stop flag.
    pub memory: bool,
    /// The final state of its senders; `None` if it was out of memory or saw the stop flag set.
    pub sent: Option<AppSent>,
}

/// The final state of an application's senders, after both rings were closed.
#[derive(Drop)]
pub struct AppSent {
    /// The sender of its calls.
    pub calls: Sent,
    /// The sender of its reclaimed blocks.
    pub reclaims: NumbersSent,
}
