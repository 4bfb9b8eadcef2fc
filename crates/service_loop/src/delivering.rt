//! Deliveries to one connection's application, and blocks that it gives back.

ghost use Rattle.std.specs.Prelude.{◌≡◌, ◌≢◌, ◌<◌, ◌≤◌, ◌^◌, ◌++◌, [], ℕ, List, None, Some, IsTrue, OnOk, length, true, false};
ghost use Rattle.mrpc_base.specs.Failures.{HasCause};
ghost use Rattle.receive_core.specs.ReceiverTraces.{ReceiverTrace as TheLife, Fated, after_fates};
ghost use Rattle.message_delivery.specs.Arriving.{IsArrivalTrace};
ghost use Rattle.message_delivery.specs.Noticing.{number_ring_of, ring_of};
ghost use Rattle.service_loop.specs.Delivering.{AreDelivering, AreSameDeliveries, IsCountedAsEnded, HasDeliveredMore, HaveDelivered, HaveAdvanced, IsClosing};

use descriptor_ring::{NumberReceiver, NumberSender, Sender};
use message_delivery::{Arrivals, DeliveryOutcome, Notices, ReclaimOutcome, Reclaims, StreamState};
use mrpc_base::Link;
use mrpc_table::Memory;
use std::alloc::Global;
use std::collections::VecDeque;
use std::sync::Wait;

/// What one thread needs to deliver messages to a connection's application and to reclaim their blocks.
#[derive(Drop)]
pub struct Deliveries<'t> {
    pub arrivals: Arrivals<'t>,
    pub notices: Notices,
    pub reclaims: Reclaims,
}

/// The service's ends of the rings that carry notices to an application and block numbers back.
#[derive(Drop)]
pub struct NoticeRings {
    pub notices: Sender,
    pub blocks: NumberSender,
    pub reclaims: NumberReceiver,
}

impl<'t> Deliveries<'t> {
    /// Deliveries that haven't sent a notice yet, with arrivals that haven't handled a frame yet. The application's
    /// program gives back this many numbers, whether they name blocks that it holds or not.
    pub fn new(
        alloc: Global,
        arrivals: Arrivals<'t>,
        rings: NoticeRings,
        programmed: u64,
    ) -> Deliveries<'t>
        requires lived { (life : TheLife) × IsArrivalTrace life arrivals × (life.fates ≡ []) }
        requires none_held { arrivals.inbound.heap.held ≡ [] }
        requires one_heap { rings.notices.heap ≡ arrivals.writer.heap }
        requires new_rings { (rings.notices.sent ≡ []) × (rings.blocks.sent ≡ []) × (rings.reclaims.taken ≡ [])
            × (rings.reclaims.closed ≡ false) }
        requires few { programmed < 2 ^ 63 }
        ensures delivered { (life : TheLife) → IsArrivalTrace life arrivals.entry → life.fates ≡ []
            → HaveDelivered life [] [] result }
        ensures arrivals { result.arrivals ≡ arrivals.entry }
        ensures notices { ring_of result.notices.notices result.notices.noticed ≡ Some rings.notices.ring }
        ensures numbers { number_ring_of result.notices.blocks result.notices.numbered ≡ Some rings.blocks.ring }
        ensures reclaims { result.reclaims.numbers ≡ rings.reclaims }
        ensures programmed { result.reclaims.programmed ≡ programmed }
    {
        let NoticeRings {
            notices,
            blocks,
            reclaims,
        } = rings;
        Deliveries {
            arrivals,
            notices: Notices {
                waiting: VecDeque::new(alloc),
                notices: Some(notices),
                blocks: Some(blocks),
                owed: None,
                given: 0,
                noticed: None,
                numbered: None,
            },
            reclaims: Reclaims {
                numbers: reclaims,
                programmed,
                judged: 0,
                kept: None,
                not_held: Vec::new(alloc),
                closed: false,
            },
        }
    }

    /// Makes the part of a round that concerns deliveries. It reclaims the blocks whose numbers came back, receives
    /// from the link once, handles one frame, and sends notices while their rings have room. Returns whether anything
    /// was done. The only error is `Memory`; afterwards the heap and the rings are the same ones, and nothing more is
    /// known of them.
    pub fn round<R: Wait, L: Link>(
        &mut self,
        rt: &R,
        link: &mut L,
        buffer: &mut [u8],
    ) -> Result<bool, Memory>
        requires delivering { AreDelivering self.old }
        requires room { 0 < length buffer.old }
        requires most { length buffer.old ≤ 2 ^ 32 }
        ensures on { OnOk result (HasDeliveredMore (L.given link.old) (L.given link.new) self.old self.new) }
        ensures same { AreSameDeliveries self.old self.new }

        // The link comes to count as failed exactly if its count of failures rises. It counts as ended only if it
        // reported its end. What counts as ended stays so.
        ensures cause { OnOk result (HasCause
            ((self.old.arrivals.stream ≢ StreamState.Failed) × (self.new.arrivals.stream ≡ StreamState.Failed))
            (L.failures link.old) (L.failures link.new)) }
        ensures ends { OnOk result ((self.old.arrivals.stream ≡ StreamState.Ended → IsTrue (L.ended link.old))
            → self.new.arrivals.stream ≡ StreamState.Ended → IsTrue (L.ended link.new)) }
        ensures over { OnOk result (IsCountedAsEnded self.old.arrivals → IsCountedAsEnded self.new.arrivals) }
        ensures stream { OnOk result (IsCountedAsEnded self.old.arrivals
            → self.new.arrivals.stream ≡ self.old.arrivals.stream) }

        ensures handed { L.handed link.new ≡ L.handed link.old }
        ensures same_link { (first : L) → L.since first link.old → L.since first link.new }
        ensures buffer { length buffer.new ≡ length buffer.old }
    {
        let reclaimed = self.reclaim(rt)?;
        let received = self.receive(link, buffer)?;
        let turned = self.turn()?;
        let given = self.send_notices(rt);
        Ok(reclaimed | received | turned | given)
    }

    // Reclaims the blocks whose numbers are on their ring.
    fn reclaim<R: Wait>(&mut self, rt: &R) -> Result<bool, Memory>
        requires { AreDelivering self.old }
        ensures delivered { (life : TheLife) (numbers back : List ℕ) → HaveDelivered life numbers back self.old
            → OnOk result ((more : List ℕ) × (gained : List ℕ)
            × HaveDelivered life (numbers ++ more) (back ++ gained) self.new) }
        ensures same { AreSameDeliveries self.old self.new }
        ensures stream { self.new.arrivals.stream ≡ self.old.arrivals.stream }
        ensures over { IsCountedAsEnded self.old.arrivals → IsCountedAsEnded self.new.arrivals }
    {
        let reclaimed = self
            .reclaims
            .reclaim(rt, &mut self.arrivals.inbound, self.notices.given)?;
        Ok(reclaimed == ReclaimOutcome::Some)
    }

    // Receives once, unless the link counts as ended.
    fn receive<L: Link>(&mut self, link: &mut L, buffer: &mut [u8]) -> Result<bool, Memory>
        requires delivering { AreDelivering self.old }
        requires room { 0 < length buffer.old }
        requires most { length buffer.old ≤ 2 ^ 32 }
        ensures on { (life : TheLife) (numbers back : List ℕ) → HaveDelivered life numbers back self.old
            → OnOk result (HaveAdvanced life numbers back (L.given link.old) (L.given link.new) self.new) }
        ensures same { AreSameDeliveries self.old self.new }
        ensures cause { HasCause ((self.old.arrivals.stream ≢ StreamState.Failed)
            × (self.new.arrivals.stream ≡ StreamState.Failed))
            (L.failures link.old) (L.failures link.new) }
        ensures over { IsCountedAsEnded self.old.arrivals → self.new ≡ self.old }
        ensures ends { (self.old.arrivals.stream ≡ StreamState.Ended → IsTrue (L.ended link.old))
            → self.new.arrivals.stream ≡ StreamState.Ended → IsTrue (L.ended link.new) }
        ensures handed { L.handed link.new ≡ L.handed link.old }
        ensures same_link { (first : L) → L.since first link.old → L.since first link.new }
        ensures buffer { length buffer.new ≡ length buffer.old }
    {
        if self.arrivals.is_over() {
            return Ok(false);
        }
        self.arrivals.receive(link, buffer)
    }

    // Handles one frame, unless no further frame can be handled.
    fn turn(&mut self) -> Result<bool, Memory>
        requires { AreDelivering self.old }
        ensures delivered { (life : TheLife) (numbers back : List ℕ) → HaveDelivered life numbers back self.old
            → OnOk result ((more : List Fated) × HaveDelivered (after_fates life more) numbers back self.new) }
        ensures same { AreSameDeliveries self.old self.new }
        ensures stream { self.new.arrivals.stream ≡ self.old.arrivals.stream }
    {
        if self.is_closing() {
            return Ok(false);
        }
        match self.arrivals.turn()? {
            DeliveryOutcome::Nothing => Ok(false),
            DeliveryOutcome::Dropped => Ok(true),
            DeliveryOutcome::Delivered(message) => {
                self.notices.add(message)?;
                Ok(true)
            }
        }
    }

    // Whether a ring of notices was closed.
    fn is_closing(&self) -> bool
        ensures closing { result ≡ true → IsClosing self.now.notices }
        ensures open { result ≡ false → ¬ IsClosing self.now.notices }
    {
        self.notices.notices.is_none() || self.notices.blocks.is_none()
    }

    // Sends notices, and closes their rings once no more follow.
    fn send_notices<R: Wait>(&mut self, rt: &R) -> bool
        requires { AreDelivering self.old }
        ensures delivered { (life : TheLife) (numbers back : List ℕ) → HaveDelivered life numbers back self.old
            → HaveDelivered life numbers back self.new }
        ensures same { AreSameDeliveries self.old self.new }
        ensures arrivals { self.new.arrivals ≡ self.old.arrivals }
    {
        let given = self.send_pending_notices(rt);
        let closed = self.close(rt);
        given | closed
    }

    // Sends notices while their rings have room.
    fn send_pending_notices<R: Wait>(&mut self, rt: &R) -> bool
        requires { AreDelivering self.old }
        ensures delivered { (life : TheLife) (numbers back : List ℕ) → HaveDelivered life numbers back self.old
            → HaveDelivered life numbers back self.new }
        ensures same { AreSameDeliveries self.old self.new }
        ensures arrivals { self.new.arrivals ≡ self.old.arrivals }
    {
        if self.is_closing() {
            return false;
        }
        self.notices.send_notices(rt, &mut self.arrivals.writer)
    }

    // Closes the rings of notices, as far as they have room, once no further frame can be handled and each message
    // was sent as a notice.
    fn close<R: Wait>(&mut self, rt: &R) -> bool
        ensures delivered { (life : TheLife) (numbers back : List ℕ) → HaveDelivered life numbers back self.old
            → HaveDelivered life numbers back self.new }
        ensures same { AreSameDeliveries self.old self.new }
        ensures arrivals { self.new.arrivals ≡ self.old.arrivals }
    {
        if !self.arrivals.is_complete() {
            return false;
        }
        if !self.notices.is_sent() {
            return false;
        }
        self.notices.close(rt)
    }

    /// Whether the link failed at a receive, or was stopped before its stream had ended.
    pub fn has_failed(&self) -> bool
        ensures failed { result ≡ true → self.now.arrivals.stream ≡ StreamState.Failed }
        ensures works { result ≡ false → self.now.arrivals.stream ≢ StreamState.Failed }
    {
        self.arrivals.stream == StreamState::Failed
    }

    /// Marks the link as ended, because a send on it failed. If the stream had ended by itself, frames that were
    /// already received are still handled.
    pub fn stop(&mut self)
        ensures delivered { (life : TheLife) (numbers back : List ℕ) → HaveDelivered life numbers back self.old
            → HaveDelivered life numbers back self.new }
        ensures over { IsCountedAsEnded self.new.arrivals }
        ensures same { AreSameDeliveries self.old self.new }
        ensures ended { self.new.arrivals.stream ≡ StreamState.Ended → self.old.arrivals.stream ≡ StreamState.Ended }
        ensures only { IsCountedAsEnded self.old.arrivals → self.new ≡ self.old }
    {
        if self.arrivals.is_over() {
            return;
        }
        self.arrivals.stream = StreamState::Failed;
    }
}
