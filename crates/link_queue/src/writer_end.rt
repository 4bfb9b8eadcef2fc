//! The state of a writer after it ended.

ghost use Rattle.std.specs.Prelude.{◌≡◌, true};
ghost use Rattle.spsc_queue.specs.Ends.{pushed_of, popped_of};
ghost use Rattle.link_queue.specs.Inners.{forwarded};
ghost use Rattle.link_queue.specs.Sentinels.{IsForwarding, HasReturned};

use crate::inner::InnerLink;
use crate::orders::{Health, News, Order};
use crate::queue_link::ClosedQueueLink;
use mrpc_base::Link;
use spsc_queue::{Consumer, Piece, Producer};

/// The state of a writer after it ended: the inner link, and whether the writer was out of memory.
pub struct WriterEnd<L: Link> {
    pub(crate) inner: InnerLink<L>,
    pub(crate) orders: Consumer<Piece<Order>>,
    pub(crate) out: Producer<Piece<News>>,
    ghost passes: { IsForwarding (popped_of orders) (forwarded inner) true inner.health },
    ghost brings: { HasReturned (pushed_of out) inner.came.bytes inner.ended inner.health },
}

// By hand, so that each drop is one call, and not a drop of every field.
impl<L: Link + Drop> Drop for WriterEnd<L> {
    fn drop(self) {
        let WriterEnd {
            inner: _inner,
            orders: _orders,
            out: _out,
        } = self;
    }
}

impl<L: Link> WriterEnd<L> {
    ghost use Rattle.std.specs.Prelude.{◌++◌, ◌↔◌, IsTrue, false};
    ghost use mathlib.Core.List.{IsPrefix};
    ghost use Rattle.mrpc_base.specs.Failures.{HasRisen};
    ghost use Rattle.spsc_queue.specs.Ends.{consumer_queue, producer_queue};
    ghost use Rattle.link_queue.specs.Known.{HasGrownBy};
    ghost use Rattle.link_queue.specs.Writers.{inner_start_of, inner_link_of, sent_since, received_since, end_forward, end_backward, HasInnerFailed, WasOutOfMemory};

    pub(crate) fn new(
        inner: InnerLink<L>,
        orders: Consumer<Piece<Order>>,
        out: Producer<Piece<News>>,
    ) -> WriterEnd<L>
        requires passes { IsForwarding (popped_of orders) (forwarded inner) true inner.health }
        requires brings { HasReturned (pushed_of out) inner.came.bytes inner.ended inner.health }
        ensures start { inner_start_of result ≡ inner.link.start }
        ensures forward { end_forward result ≡ consumer_queue orders }
        ensures backward { end_backward result ≡ producer_queue out }
    {
        WriterEnd { inner, orders, out }
    }

    /// The inner link: a later state of the one that the writer was made with.
    pub fn link(&self) -> &L
        ensures link { result.now ≡ inner_link_of self.now }
        ensures same_link { (first : L) → L.since first (inner_start_of self.now) → L.since first result.now }
    {
        self.inner.link.get()
    }

    /// The inner link by value: a later state of the one that the writer was made with.
    pub fn into_link(self) -> L
        ensures link { result ≡ inner_link_of self }
        ensures same_link { (first : L) → L.since first (inner_start_of self) → L.since first result }
    {
        let WriterEnd {
            inner,
            orders: _orders,
            out: _out,
        } = self;
        inner.link.into_link()
    }

    /// Whether the inner link failed. If so, its count of failures rose or is saturated; otherwise the count is
    /// unchanged.
    pub fn failed(&self) -> bool
        ensures failed { IsTrue result ↔ HasInnerFailed self.now }
        ensures rose { IsTrue result → HasRisen (L.failures (inner_start_of self.now))
            (L.failures (inner_link_of self.now)) }
        ensures stays { result ≡ false → L.failures (inner_link_of self.now) ≡ L.failures (inner_start_of self.now) }
    {
        self.inner.health == Health::Failed
    }

    /// Whether the writer was out of memory.
    pub fn is_out_of_memory(&self) -> bool
        ensures { IsTrue result ↔ WasOutOfMemory self.now }
    {
        self.inner.health == Health::Memory
    }

    /// Relates the inner link's frames and bytes to those of the closed [`QueueLink`](crate::QueueLink) of the same
    /// queue.
    pub fn meet(&mut self, passed: ClosedQueueLink)
        requires forward { passed.forward ≡ end_forward self.old }
        requires backward { passed.backward ≡ end_backward self.old }

        // The frames sent since are a prefix of those pushed into the queue, and all of them unless the inner link
        // failed or the writer was out of memory.
        ensures handed { L.handed (inner_link_of self.new) ≡ L.handed (inner_start_of self.new) ++ sent_since self.new }
        ensures in_order { IsPrefix (sent_since self.new) passed.handed }
        ensures all_handed { (HasInnerFailed self.new → ⊥) → (WasOutOfMemory self.new → ⊥)
            → sent_since self.new ≡ passed.handed }

        // The delivered bytes are a prefix of those that the inner link received since. They are all of them after
        // the end of the stream, which the inner link returned first.
        ensures given { HasGrownBy (L.given (inner_start_of self.new)) (L.given (inner_link_of self.new))
            (received_since self.new) }
        ensures came { IsPrefix passed.given (received_since self.new) }
        ensures all_came { passed.ended ≡ true → passed.given ≡ received_since self.new }
        ensures ended { passed.ended ≡ true → L.ended (inner_link_of self.new) ≡ true }

        // The closed link reported a failure only if the inner link failed; the inner link's count rose exactly then.
        ensures failed { passed.failed ≡ true → HasInnerFailed self.new }
        ensures rose { HasInnerFailed self.new
            → HasRisen (L.failures (inner_start_of self.new)) (L.failures (inner_link_of self.new)) }
        ensures stays { (HasInnerFailed self.new → ⊥)
            → L.failures (inner_link_of self.new) ≡ L.failures (inner_start_of self.new) }

        ensures link { inner_link_of self.new ≡ inner_link_of self.old }
        ensures start { inner_start_of self.new ≡ inner_start_of self.old }
    {
        let ClosedQueueLink {
            mut out,
            mut incoming,
            ended: _,
            failed: _,
        } = passed;
        spsc_queue::meet(&mut out, &mut self.orders);
        incoming.meet(&mut self.out);
    }
}
