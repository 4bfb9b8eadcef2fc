//! An inner link that its writer owns.

ghost use Rattle.std.specs.Prelude.{◌≡◌, ◌≢◌, ◌≤◌, ◌++◌, true};
ghost use Rattle.mrpc_base.specs.Failures.{raised};
ghost use Rattle.link_queue.specs.declared.orders.Health.TheVariants.{Failed};
ghost use Rattle.link_queue.specs.Known.{HasGrownBy, frames_since};

use crate::orders::Health;
use crate::tracked::TrackedLink;
use mrpc_base::{Came, Handed, Link};
use spsc_queue::ByteTrace;

// The link, the bytes received since the writer got it, its health, and whether it returned the end of the
// stream.
#[derive(Drop)]
pub(crate) struct InnerLink<L: Link> {
    pub link: TrackedLink<L>,
    pub came: ByteTrace,
    pub health: Health,
    pub ended: bool,
    ghost handed: { L.handed link.now ≡ L.handed link.start ++ frames_since (L.handed link.start) (L.handed link.now) },
    ghost given: { HasGrownBy (L.given link.start) (L.given link.now) came.bytes },
    ghost failed: { health ≡ Failed → raised (L.failures link.start) ≤ L.failures link.now },
    ghost works: { health ≢ Failed → L.failures link.now ≡ L.failures link.start },
    ghost has_ended: { ended ≡ true → L.ended link.now ≡ true },
}

impl<L: Link> InnerLink<L> {
    ghost use Rattle.std.specs.Prelude.{◌<◌, [], ◌∷◌, false, length, take};
    ghost use Rattle.link_queue.specs.Inners.{forwarded};

    pub(crate) fn new(link: L) -> InnerLink<L>
        ensures link { result.link.now ≡ link }
        ensures start { result.link.start ≡ link }
        ensures passed { forwarded result ≡ [] }
        ensures came { result.came.bytes ≡ [] }
        ensures health { result.health ≡ Health.Working }
        ensures ended { result.ended ≡ false }
    {
        InnerLink {
            link: TrackedLink::new(link),
            came: ByteTrace::new(),
            health: Health::Working,
            ended: false,
        }
    }

    // Forwards a frame.
    pub(crate) fn send(&mut self, frame: &[u8])
        requires { self.old.health ≡ Health.Working }
        ensures passed { self.new.health ≡ Health.Working → forwarded self.new ≡ forwarded self.old ++ frame.now ∷ [] }
        ensures kept { self.new.health ≢ Health.Working → forwarded self.new ≡ forwarded self.old }
        ensures start { self.new.link.start ≡ self.old.link.start }
        ensures came { self.new.came.bytes ≡ self.old.came.bytes }
        ensures ended { self.new.ended ≡ self.old.ended }
    {
        match self.link.send(frame) {
            Handed::Done => {}
            Handed::Failed => self.health = Health::Failed,
            Handed::Memory => self.health = Health::Memory,
        }
    }

    // Shuts the sending side down.
    pub(crate) fn finish(&mut self)
        ensures passed { forwarded self.new ≡ forwarded self.old }
        ensures start { self.new.link.start ≡ self.old.link.start }
        ensures came { self.new.came.bytes ≡ self.old.came.bytes }
        ensures ended { self.new.ended ≡ self.old.ended }
        ensures health { self.new.health ≡ self.old.health }
    {
        self.link.finish();
    }

    // Receives once, and returns how many bytes arrived.
    pub(crate) fn receive(&mut self, buf: &mut [u8]) -> usize
        requires room { 0 < length buf.old }
        requires working { self.old.health ≡ Health.Working }
        ensures count { result ≤ length buf.new }
        ensures came { self.new.came.bytes ≡ self.old.came.bytes ++ take result buf.new }
        ensures ended { 0 < result → self.new.ended ≡ self.old.ended }
        ensures passed { forwarded self.new ≡ forwarded self.old }
        ensures start { self.new.link.start ≡ self.old.link.start }
    {
        match self.link.receive(buf) {
            Came::Bytes(count) => {
                self.came = ByteTrace::with(&self.came, &buf[..count]);
                count
            }
            Came::Idle => 0,
            Came::End => {
                self.ended = true;
                0
            }
            Came::Failed => {
                self.health = Health::Failed;
                0
            }
            Came::Memory => {
                self.health = Health::Memory;
                0
            }
        }
    }
}
