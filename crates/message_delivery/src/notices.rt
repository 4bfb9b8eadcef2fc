//! The notices of an application.

ghost use Rattle.std.specs.Prelude.{◌≡◌, ◌≤◌, ◌<◌, ◌+◌, ◌++◌, ◌∷◌, [], List, length, true, false, None, IfOk, OnOk, OnErr};
ghost use Rattle.shared_heap.specs.Fresh.{HeapId};
ghost use Rattle.message_delivery.specs.declared.arrivals.PlacedMessage.{PlacedMessage as Message};
ghost use Rattle.message_delivery.specs.Noticing.{AreSameRings, AreNotices, IsRequestOrReply, AreNoticesOf, AreStillOpen, IsNoticeOf};
ghost use Rattle.descriptor_ring.specs.Rings.{IsDescriptorOf};

use crate::arrivals::PlacedMessage;
use descriptor_ring::{Descriptor, Full, NumberSender, NumbersSent, Sender, Sent};
use mrpc_table::Memory;
use shared_heap::Writer;
use std::collections::VecDeque;
use std::sync::Wait;

/// The rings of an application's notices, and the pending notices.
#[derive(Drop)]
pub struct Notices {
    /// Messages whose notices are pending, in order.
    pub waiting: VecDeque<PlacedMessage>,
    /// The ring of notices; `None` after it was closed.
    pub notices: Option<Sender>,
    /// The ring of block numbers; `None` after it was closed.
    pub blocks: Option<NumberSender>,
    /// A block number that had no room yet; its notice was sent.
    pub owed: Option<u64>,
    /// How many block numbers were sent.
    pub given: u64,
    /// The final state of both rings, after they were closed.
    pub noticed: Option<Sent>,
    pub numbered: Option<NumbersSent>,
}

impl Notices {
    /// Appends a message to the pending ones.
    pub fn add(&mut self, message: PlacedMessage) -> Result<(), Memory>
        ensures telling { (heap : HeapId) (placed : List Message) → AreNoticesOf heap placed self.old
            → IsRequestOrReply message
            → length placed + 1 < 4294967294 → OnOk result (AreNoticesOf heap (placed ++ message ∷ []) self.new) }
        ensures rings { AreSameRings self.old self.new }
        ensures open { AreStillOpen self.old self.new }
        ensures memory { OnErr result (self.new.waiting.items ≡ self.old.waiting.items) }
    {
        self.waiting.push_back(message)?;
        Ok(())
    }

    /// Sends notices, each followed by its block number, while both rings have room. Returns whether one was sent.
    pub fn send_notices<R: Wait>(&mut self, rt: &R, writer: &mut Writer) -> bool
        requires { AreNotices writer.old.heap self.old }
        ensures telling { (placed : List Message) → AreNoticesOf writer.old.heap placed self.old
            → AreNoticesOf writer.old.heap placed self.new }
        ensures rings { AreSameRings self.old self.new }
        ensures open { AreStillOpen self.old self.new }
        ensures writer { writer.new ≡ writer.old }
    {
        let mut gave = false;
        while self.send_number(rt) && self.send_notice(rt, writer) {
            gave = true;
        }
        gave
    }

    // Sends the number that is owed. Returns false if the ring is full.
    fn send_number<R: Wait>(&mut self, rt: &R) -> bool
        requires { (heap : HeapId) × AreNotices heap self.old }
        ensures telling { (heap : HeapId) (placed : List Message) → AreNoticesOf heap placed self.old
            → AreNoticesOf heap placed self.new }
        ensures rings { AreSameRings self.old self.new }
        ensures open { AreStillOpen self.old self.new }
        ensures waiting { self.new.waiting ≡ self.old.waiting }
        ensures given { result ≡ true → self.new.owed ≡ None }
    {
        let Some(number) = self.owed else {
            return true;
        };
        let Some(blocks) = &mut self.blocks else {
            return false;
        };
        if blocks.send(rt, number).is_err() {
            return false;
        }
        self.owed = None;
        self.given += 1;
        true
    }

    // Sends the next notice. Returns false if none is pending or the ring is full.
    fn send_notice<R: Wait>(&mut self, rt: &R, writer: &mut Writer) -> bool
        requires telling { AreNotices writer.old.heap self.old }
        requires none_owed { self.old.owed ≡ None }
        ensures telling { (placed : List Message) → AreNoticesOf writer.old.heap placed self.old
            → AreNoticesOf writer.old.heap placed self.new }
        ensures rings { AreSameRings self.old self.new }
        ensures open { AreStillOpen self.old self.new }
        ensures fewer { result ≡ true → length self.new.waiting.items + 1 ≤ length self.old.waiting.items }
        ensures writer { writer.new ≡ writer.old }
    {
        let Some(message) = self.waiting.front().copied() else {
            return false;
        };
        let Some(notices) = &mut self.notices else {
            return false;
        };
        if notices.send(rt, notice(writer, message)).is_err() {
            return false;
        }
        self.waiting.pop_front();
        self.owed = Some(message.block);
        true
    }

    /// Whether the notice and the block number of each message were sent.
    pub fn is_sent(&self) -> bool
        ensures { result ≡ true → (self.now.waiting.items ≡ []) × (self.now.owed ≡ None) }
    {
        self.waiting.is_empty() && self.owed.is_none()
    }

    /// Once every notice was sent, closes each ring that has room. Returns whether one was closed.
    pub fn close<R: Wait>(&mut self, rt: &R) -> bool
        ensures telling { (heap : HeapId) (placed : List Message) → AreNoticesOf heap placed self.old
            → AreNoticesOf heap placed self.new }
        ensures rings { AreSameRings self.old self.new }
        ensures given { result ≡ true → (self.old.waiting.items ≡ []) × (self.old.owed ≡ None) }
        ensures open { result ≡ false → AreStillOpen self.old self.new }
        ensures waiting { self.new.waiting ≡ self.old.waiting }
        ensures owed { self.new.owed ≡ self.old.owed }
    {
        if !self.is_sent() {
            return false;
        }
        let notices = self.close_notices(rt);
        let blocks = self.close_blocks(rt);
        notices || blocks
    }

    fn close_notices<R: Wait>(&mut self, rt: &R) -> bool
        ensures telling { (heap : HeapId) (placed : List Message) → AreNoticesOf heap placed self.old
            → AreNoticesOf heap placed self.new }
        ensures rings { AreSameRings self.old self.new }
        ensures open { result ≡ false → AreStillOpen self.old self.new }
        ensures waiting { self.new.waiting ≡ self.old.waiting }
        ensures owed { self.new.owed ≡ self.old.owed }
    {
        let Some(notices) = self.notices.take() else {
            return false;
        };
        match notices.close(rt) {
            Ok(sent) => {
                self.noticed = Some(sent);
                true
            }
            Err((back, _)) => {
                self.notices = Some(back);
                false
            }
        }
    }

    fn close_blocks<R: Wait>(&mut self, rt: &R) -> bool
        ensures telling { (heap : HeapId) (placed : List Message) → AreNoticesOf heap placed self.old
            → AreNoticesOf heap placed self.new }
        ensures rings { AreSameRings self.old self.new }
        ensures open { result ≡ false → AreStillOpen self.old self.new }
        ensures waiting { self.new.waiting ≡ self.old.waiting }
        ensures owed { self.new.owed ≡ self.old.owed }
    {
        let Some(blocks) = self.blocks.take() else {
            return false;
        };
        match blocks.close(rt) {
            Ok(sent) => {
                self.numbered = Some(sent);
                true
            }
            Err((back, _)) => {
                self.blocks = Some(back);
                false
            }
        }
    }

    /// Whether both rings were closed.
    pub fn is_closed(&self) -> bool
        ensures { result ≡ true → (self.now.notices ≡ None) × (self.now.blocks ≡ None) }
    {
        self.notices.is_none() && self.blocks.is_none()
    }
}

// The notice of a message, which covers the stores that placed it.
fn notice(writer: &mut Writer, message: PlacedMessage) -> Descriptor
    requires { IsRequestOrReply message }
    ensures of_heap { IsDescriptorOf writer.old.heap result }
    ensures tells { IsNoticeOf message result }
    ensures writer { writer.new ≡ writer.old }
{
    Descriptor {
        kind: message.kind,
        method: message.method,
        number: message.number,
        addr: message.addr,
        stores: writer.stores(),
        note: writer.note(),
    }
}
