//! The operations of a ring's two ends.

ghost use Rattle.std.specs.Prelude.{◌≡◌, ◌<◌, ◌≤◌, true, false, [], length, OnOk, IfErr, IfSome, IfNone};
ghost use Rattle.std.specs.Bool.{OnFalse, OnTrue};
ghost use mathlib.Core.List.{IsPrefix};
ghost use Rattle.crossbeam_queue.specs.Passes.{view as known, IsPassOf, IsSamePass, ruled_capacity};
ghost use Rattle.descriptor_ring.specs.declared.ring_rule.RingEntry.TheVariants.{Item, Closing};
ghost use Rattle.descriptor_ring.specs.RingRule.{first, sender, receiver, knowing_view, with_sent_of, with_taken_of, merged_view, after_push, after_pop};
ghost use Rattle.descriptor_ring.specs.RingRule.{IsItemFor, IsInOrder};
ghost use Rattle.descriptor_ring.specs.Rings.{HasHeldLast};

use crate::ring_rule::{
    JoinSender, ObserveSent, ObserveTaken, Ordered, PicksHeap, PopStep, PushStep, RingEntry,
    RingItem, RingPass, RingQueue, ShareKnowledge, SplitEnds, TakenIsPrefix, Total,
};
use std::sync::Wait;

// Returns the item if the ring was full.
pub(crate) fn send<T: RingItem, R: Wait>(
    rt: &R,
    line: &RingQueue<T>,
    pass: &mut RingPass<T>,
    item: T,
) -> Result<(), T>
    requires line { IsPassOf line.now pass.old }
    requires sends { (known pass.old).sends ≡ true }
    requires not_closed { (known pass.old).closed ≡ false }
    requires fits { T.fits (known pass.old).heap item }
    requires few { length (known pass.old).sent < T.most }

    ensures line { IsSamePass pass.old pass.new }
    ensures sent { OnOk result (known pass.new ≡ after_push (known pass.old) (Item item)) }
    ensures told { OnOk result (IsPrefix (known pass.new).taken (known pass.new).sent) }
    ensures back { IfErr result (λ back. (back ≡ item) × (known pass.new ≡ known pass.old)) }
    ensures full { IfErr result (λ back. HasHeldLast (known pass.old).sent (known pass.old).taken (ruled_capacity line.now)) }
    ensures many { IfErr result (λ back. ruled_capacity line.now ≤ length (known pass.old).sent) }
{
    match line.push_as::<PushStep, R>(rt, pass, RingEntry::Item(item)) {
        Ok(()) => Ok(()),
        Err(RingEntry::Item(item)) => Err(item),
        Err(RingEntry::Closing) => unreachable!(),
    }
}

// Sends the closing sentinel. Returns false if the ring was full.
pub(crate) fn close<T: RingItem, R: Wait>(
    rt: &R,
    line: &RingQueue<T>,
    pass: &mut RingPass<T>,
) -> bool
    requires line { IsPassOf line.now pass.old }
    requires sends { (known pass.old).sends ≡ true }
    requires not_closed { (known pass.old).closed ≡ false }

    ensures line { IsSamePass pass.old pass.new }
    ensures closed { OnTrue result (known pass.new ≡ after_push (known pass.old) Closing) }
    ensures back { OnFalse result (known pass.new ≡ known pass.old) }
    ensures full { OnFalse result (HasHeldLast (known pass.old).sent (known pass.old).taken (ruled_capacity line.now)) }
    ensures many { OnFalse result (ruled_capacity line.now ≤ length (known pass.old).sent) }
{
    match line.push_as::<PushStep, R>(rt, pass, RingEntry::Closing) {
        Ok(()) => true,
        Err(_) => false,
    }
}

// Takes the next item or the closing sentinel. `None` if the ring was empty.
pub(crate) fn take<T: RingItem, R: Wait>(
    rt: &R,
    line: &RingQueue<T>,
    pass: &mut RingPass<T>,
) -> Option<RingEntry<T>>
    requires line { IsPassOf line.now pass.old }
    requires takes { (known pass.old).takes ≡ true }
    requires not_ended { (known pass.old).ended ≡ false }

    ensures line { IsSamePass pass.old pass.new }
    ensures taken { IfSome result (λ slip. known pass.new ≡ after_pop (known pass.old) slip) }
    ensures fits { IfSome result (λ slip. IsItemFor T.fits T.most (known pass.old).heap slip) }
    ensures few { IfSome result (λ slip. length (known pass.new).taken ≤ T.most) }
    ensures in_order { IfSome result (λ slip. IsInOrder (known pass.new)) }
    ensures none { IfNone result (known pass.new ≡ known pass.old) }
    ensures empty { IfNone result (IsPrefix (known pass.old).sent (known pass.old).taken) }
    ensures unclosed { IfNone result ((known pass.old).closed ≡ false) }
{
    line.pop_as::<PopStep, R>(rt, pass)
}

// A new pass with the knowledge of this one.
pub(crate) fn share_knowledge<T: RingItem>(
    line: &RingQueue<T>,
    pass: &mut RingPass<T>,
) -> RingPass<T>
    requires line { IsPassOf line.now pass.old }

    ensures line { IsSamePass pass.old pass.new × IsPassOf line.now result }
    ensures same { known pass.new ≡ known pass.old }
    ensures told { known result ≡ knowing_view (known pass.old) }
{
    line.another::<ShareKnowledge>(pass)
}

// The receiver observes what another pass knows of the sent items.
pub(crate) fn observe_sent<T: RingItem>(
    line: &RingQueue<T>,
    pass: &mut RingPass<T>,
    other: RingPass<T>,
)
    requires line { IsPassOf line.now pass.old }
    requires other { IsPassOf line.now other }
    requires takes { (known pass.old).takes ≡ true }

    ensures line { IsSamePass pass.old pass.new }
    ensures told { known pass.new ≡ with_sent_of (known pass.old) (known other) }
    ensures in_order { IsInOrder (known pass.new) }
{
    line.absorb::<ObserveSent>(pass, other);
    line.learn_as::<Ordered>(pass);
}

// The sender observes what another pass knows of the taken items.
pub(crate) fn observe_taken<T: RingItem>(
    line: &RingQueue<T>,
    pass: &mut RingPass<T>,
    other: RingPass<T>,
)
    requires line { IsPassOf line.now pass.old }
    requires other { IsPassOf line.now other }
    requires sends { (known pass.old).sends ≡ true }

    ensures line { IsSamePass pass.old pass.new }
    ensures told { known pass.new ≡ with_taken_of (known pass.old) (known other) }
    ensures in_order { IsPrefix (known pass.new).taken (known pass.new).sent }
{
    line.absorb::<ObserveTaken>(pass, other);
    line.learn_as::<TakenIsPrefix>(pass);
}

// The receiver joins the sender's pass, and knows all sent items.
pub(crate) fn observe_all<T: RingItem>(
    line: &RingQueue<T>,
    pass: &mut RingPass<T>,
    other: RingPass<T>,
)
    requires line { IsPassOf line.now pass.old }
    requires other { IsPassOf line.now other }
    requires takes { (known pass.old).takes ≡ true }
    requires sends { (known other).sends ≡ true }

    ensures line { IsSamePass pass.old pass.new }
    ensures told { known pass.new ≡ merged_view (known pass.old) (known other) }
    ensures in_order { IsInOrder (known pass.new) }
{
    line.absorb::<JoinSender>(pass, other);
    line.learn_as::<Ordered>(pass);
}

// What was taken is what was sent, once the receiver has the closing sentinel and the sender's pass.
pub(crate) fn meet<T: RingItem>(line: &RingQueue<T>, pass: &mut RingPass<T>, other: RingPass<T>)
    requires line { IsPassOf line.now pass.old }
    requires other { IsPassOf line.now other }
    requires takes { (known pass.old).takes ≡ true }
    requires ended { (known pass.old).ended ≡ true }
    requires sends { (known other).sends ≡ true }

    ensures line { IsSamePass pass.old pass.new }
    ensures told { known pass.new ≡ merged_view (known pass.old) (known other) }
    ensures in_order { IsInOrder (known pass.new) }
    ensures all { (known pass.old).taken ≡ (known other).sent }
{
    observe_all(line, pass, other);
    line.learn_as::<Total>(pass);
}

// The two ends of a new ring, for the heap that the caller picks.
pub(crate) fn ends<T: RingItem, N: PicksHeap>(
    line: &RingQueue<T>,
    mut pass: RingPass<T>,
) -> (RingPass<T>, RingPass<T>)
    requires line { IsPassOf line.now pass }
    requires new { known pass ≡ first }

    ensures line { IsPassOf line.now result.0 × IsPassOf line.now result.1 }
    ensures sender { known result.0 ≡ sender N.heap [] false }
    ensures receiver { known result.1 ≡ receiver N.heap [] false }
{
    let taking = line.another::<SplitEnds<N>>(&mut pass);
    (pass, taking)
}
