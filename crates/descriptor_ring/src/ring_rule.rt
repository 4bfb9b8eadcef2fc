//! The items of a ring, the knowledge of each pass, and what accesses reveal. No value of `RingView` or `HeapName` is
//! ever made.

use crossbeam_queue::protocol::{Join, Lesson, Outcome, Protocol, Split};
use crossbeam_queue::{Pass, RuledArrayQueue};
use std::collections::LinkedList;
use std::marker::{Brand, Model, PhantomData};

pub(crate) type RingQueue<T> = RuledArrayQueue<RingEntry<T>, RingView<T>, InOrder>;

pub(crate) type RingPass<T> = Pass<RingEntry<T>, RingView<T>>;

// An item of a ring, or the closing sentinel.
#[derive(Drop)]
pub(crate) enum RingEntry<T> {
    Item(T),
    Closing,
}

// The heap of the notes of a ring.
pub(crate) struct HeapName {
    number: u64,
}

impl Model for HeapName {
    ghost use Rattle.shared_heap.specs.Fresh.{HeapId};
    ghost use Rattle.descriptor_ring.specs.Heaps.{no_heap};

    ghost Value = { HeapId };

    ghost view = { λ _. no_heap };
}

// The role of a pass, the heap of the ring, and the items that the pass knows were sent and taken, with the closing
// sentinel. The sender's pass knows all sent items, the receiver's all taken ones, any other pass a prefix of both.
pub(crate) struct RingView<T> {
    pub heap: HeapName,
    pub sends: bool,
    pub sent: LinkedList<T>,
    pub closed: bool,
    pub takes: bool,
    pub taken: LinkedList<T>,
    pub ended: bool,
}

// The type of a ring's items, with the condition on them for a heap, and the maximum number of them.
pub(crate) trait RingItem: Drop {
    ghost use Rattle.shared_heap.specs.Fresh.{HeapId};
    ghost use Rattle.std.specs.Prelude.{ℕ};

    ghost fits: { HeapId → Self → Type 0 };

    ghost most: { ℕ };
}

pub(crate) struct InOrder;

impl<T: RingItem> Protocol<RingEntry<T>, RingView<T>> for InOrder {
    ghost use Rattle.descriptor_ring.specs.RingRule.{IsFifo, first};

    ghost holds = { IsFifo T.fits T.most };

    ghost first = { first };
}

// A push of an item or of the closing sentinel.
pub(crate) struct PushStep;

impl<T: RingItem> Outcome<RingEntry<T>, RingView<T>> for PushStep {
    ghost use Rattle.descriptor_ring.specs.RingRule.{IsPushStep};

    ghost then = { IsPushStep };
}

// The ring holds the last of the sent items, after all that the pass knows were taken.
impl<T: RingItem> Lesson<RingEntry<T>, RingView<T>> for PushStep {
    ghost use Rattle.std.specs.Prelude.{◌≡◌, ◌≤◌, ℕ, length};
    ghost use Rattle.descriptor_ring.specs.Rings.{HasHeldLast};

    ghost fact = { λ v items. ((n : ℕ) → length items ≡ n → HasHeldLast v.sent v.taken n) × (length items ≤ length v.sent) };
}

// A pop of an item or of the closing sentinel.
pub(crate) struct PopStep;

impl<T: RingItem> Outcome<RingEntry<T>, RingView<T>> for PopStep {
    ghost use Rattle.descriptor_ring.specs.RingRule.{IsPopStep};

    ghost then = { IsPopStep T.fits T.most };
}

// If the ring is empty, all items that the pass knows were sent are taken, and it doesn't know the closing sentinel
// to be sent.
impl<T: RingItem> Lesson<RingEntry<T>, RingView<T>> for PopStep {
    ghost use Rattle.std.specs.Prelude.{◌≡◌, false, length};
    ghost use mathlib.Core.List.{IsPrefix};

    ghost fact = { λ v items. length items ≡ 0 → IsPrefix v.sent v.taken × (v.closed ≡ false) };
}

// If the closing sentinel was taken and the ends are joined, all that was sent was taken.
pub(crate) struct Total;

impl<T: RingItem> Lesson<RingEntry<T>, RingView<T>> for Total {
    ghost use Rattle.std.specs.Prelude.{◌≡◌};

    ghost fact = { λ v items. v.taken ≡ v.sent };
}

// What was taken and what the pass knows was sent are in order.
pub(crate) struct Ordered;

impl<T: RingItem> Lesson<RingEntry<T>, RingView<T>> for Ordered {
    ghost use Rattle.descriptor_ring.specs.RingRule.{IsInOrder};

    ghost fact = { λ v items. IsInOrder v };
}

// What the pass knows was taken is a prefix of what it sent.
pub(crate) struct TakenIsPrefix;

impl<T: RingItem> Lesson<RingEntry<T>, RingView<T>> for TakenIsPrefix {
    ghost use mathlib.Core.List.{IsPrefix};

    ghost fact = { λ v items. IsPrefix v.taken v.sent };
}

// The heap for which a ring is opened. The call that opens it picks the heap.
pub(crate) trait PicksHeap {
    ghost use Rattle.shared_heap.specs.Fresh.{HeapId};

    ghost heap: { HeapId };
}

impl PicksHeap for Brand {
    ghost use Rattle.descriptor_ring.specs.Heaps.{no_heap};

    ghost heap = { no_heap };
}

// The first pass becomes the sender's, and a new one the receiver's.
pub(crate) struct SplitEnds<N> {
    named: PhantomData<N>,
}

impl<T, N: PicksHeap> Split<RingView<T>> for SplitEnds<N> {
    ghost use Rattle.std.specs.Prelude.{false, []};
    ghost use Rattle.descriptor_ring.specs.RingRule.{sender, receiver};

    ghost left = { λ v. sender N.heap [] false };

    ghost right = { λ v. receiver N.heap [] false };
}

// A new pass without a role, with the knowledge of this one.
pub(crate) struct ShareKnowledge;

impl<T> Split<RingView<T>> for ShareKnowledge {
    ghost use Rattle.descriptor_ring.specs.RingRule.{knowing_view};

    ghost left = { λ v. v };

    ghost right = { knowing_view };
}

// A pass observes what another one knows of the sent items.
pub(crate) struct ObserveSent;

impl<T> Join<RingView<T>> for ObserveSent {
    ghost use Rattle.descriptor_ring.specs.RingRule.{with_sent_of, spent_view};

    ghost both = { with_sent_of };

    ghost spent = { spent_view };
}

// A pass observes what another one knows of the taken items.
pub(crate) struct ObserveTaken;

impl<T> Join<RingView<T>> for ObserveTaken {
    ghost use Rattle.descriptor_ring.specs.RingRule.{with_taken_of, spent_view};

    ghost both = { with_taken_of };

    ghost spent = { spent_view };
}

// The receiver's pass joins the sender's.
pub(crate) struct JoinSender;

impl<T> Join<RingView<T>> for JoinSender {
    ghost use Rattle.descriptor_ring.specs.RingRule.{merged_view, spent_view};

    ghost both = { merged_view };

    ghost spent = { spent_view };
}
