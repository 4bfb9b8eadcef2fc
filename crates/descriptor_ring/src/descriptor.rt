//! Descriptors, the items of a ring.

use crate::lesson::Lesson;
use crate::ring_rule::RingItem;
use shared_heap::Note;

/// A call that an application submits, or the notice of a message.
#[derive(Drop)]
pub struct Descriptor {
    /// 1 or 2. Only notices use it.
    pub kind: u8,
    /// The method's index in the table.
    pub method: u16,
    /// 0 for a request; for a reply the number of the request, at least 1.
    pub number: u32,
    /// The place of the message in the heap.
    pub addr: u64,
    /// The number of stores that the note knows.
    pub stores: u64,
    /// The stores made before the descriptor was sent.
    pub note: Note,
}

impl RingItem for Descriptor {
    ghost use Rattle.descriptor_ring.specs.Rings.{IsDescriptorOf};

    ghost fits = { IsDescriptorOf };

    ghost most = { 4294967294 };
}

/// The ring was full.
#[derive(Drop)]
pub struct Full {
    /// The descriptor that wasn't sent.
    pub descriptor: Descriptor,
    pub lesson: Lesson,
}

/// The result of a take.
#[derive(Drop)]
pub enum Taken {
    /// The next descriptor.
    Item(Descriptor),
    /// All descriptors were taken, and no more will be sent.
    Closed,
    /// The ring was empty.
    Empty(Lesson),
}
