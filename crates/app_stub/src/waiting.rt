//! Waiting at a ring: tries until the ring has room, or an item, or the stop flag is set.

ghost use Rattle.std.specs.Prelude.{◌≡◌, ◌<◌, ◌≤◌, ◌^◌, ◌++◌, ◌∷◌, [], false, IfOk, IfSome, IfNone, IsNone, MatchOption, OnOk, OnErr, IsTrue, length};
ghost use Rattle.descriptor_ring.specs.Rings.{IsDescriptorOf};

use descriptor_ring::{
    Descriptor, Full, NumberReceiver, NumberSender, NumberTaken, NumbersSent, Receiver, Sender,
    Sent, Taken,
};
use polling::{Backoff, FIRST_SLEEP, StopFlag};
use std::sync::Wait;

// A ring of at least this capacity is polled with sleeps in between. Meanwhile many slots come free, or many
// items arrive, so threads switch less often.
const LARGE_RING: u64 = 16;

// The sleep for each slot of a full large ring, in microseconds.
const PLACE_SLEEP: u64 = 3;

// How to wait for room in a ring of this capacity.
fn backoff_for_room(capacity: u64) -> Backoff {
    if capacity < LARGE_RING {
        return Backoff::new();
    }
    Backoff::sleeping(capacity.saturating_mul(PLACE_SLEEP))
}

// How to wait for an item of a ring of this capacity.
fn backoff_for_items(capacity: u64) -> Backoff {
    if capacity < LARGE_RING {
        return Backoff::new();
    }
    Backoff::sleeping(FIRST_SLEEP)
}

// The stop flag was seen set.
#[derive(Drop)]
pub(crate) struct Stopped;

// Sends a call on a ring of this capacity.
pub(crate) fn send<R: Wait, F: StopFlag>(
    rt: &R,
    stop: &F,
    sender: &mut Sender,
    capacity: u64,
    mut descriptor: Descriptor,
) -> Result<(), Stopped>
    requires of_heap { IsDescriptorOf sender.old.heap descriptor }
    requires few { length sender.old.sent < 4294967294 }
    ensures sent { OnOk result (sender.new.sent ≡ sender.old.sent ++ descriptor ∷ []) }
    ensures seen { OnErr result (F.may_be_set stop.now) }
    ensures ring { sender.new.ring ≡ sender.old.ring }
    ensures heap { sender.new.heap ≡ sender.old.heap }
{
    let mut pauses = backoff_for_room(capacity);
    for _ in rt.forever() {
        match sender.send(rt, descriptor) {
            Ok(()) => return Ok(()),
            Err(full) => descriptor = sent_back(full),
        }
        if stop.is_set() {
            return Err(Stopped);
        }
        pauses.wait(rt);
    }
    unreachable!()
}

fn sent_back(full: Full) -> Descriptor
    ensures { result ≡ full.descriptor }
{
    let Full {
        descriptor,
        lesson: _,
    } = full;
    descriptor
}

// Closes the ring of calls.
pub(crate) fn close<R: Wait, F: StopFlag>(
    rt: &R,
    stop: &F,
    mut sender: Sender,
) -> Result<Sent, Stopped>
    ensures sent { IfOk result (λ sent. (sent.items ≡ sender.sent) × (sent.ring ≡ sender.ring)) }
    ensures seen { OnErr result (F.may_be_set stop.now) }
{
    let mut pauses = Backoff::new();
    for _ in rt.forever() {
        match sender.close(rt) {
            Ok(sent) => return Ok(sent),
            Err((back, _)) => sender = back,
        }
        if stop.is_set() {
            return Err(Stopped);
        }
        pauses.wait(rt);
    }
    unreachable!()
}

// Sends the number of a block.
pub(crate) fn reclaim<R: Wait, F: StopFlag>(
    rt: &R,
    stop: &F,
    reclaims: &mut NumberSender,
    block: u64,
) -> Result<(), Stopped>
    requires { length reclaims.old.sent < 2 ^ 61 }
    ensures sent { OnOk result (reclaims.new.sent ≡ reclaims.old.sent ++ block ∷ []) }
    ensures seen { OnErr result (F.may_be_set stop.now) }
    ensures ring { reclaims.new.ring ≡ reclaims.old.ring }
{
    let mut pauses = Backoff::new();
    for _ in rt.forever() {
        match reclaims.send(rt, block) {
            Ok(()) => return Ok(()),
            Err(_) => {}
        }
        if stop.is_set() {
            return Err(Stopped);
        }
        pauses.wait(rt);
    }
    unreachable!()
}

// Closes the ring of reclaimed blocks.
pub(crate) fn close_reclaims<R: Wait, F: StopFlag>(
    rt: &R,
    stop: &F,
    mut reclaims: NumberSender,
) -> Result<NumbersSent, Stopped>
    ensures sent { IfOk result (λ sent. (sent.items ≡ reclaims.sent) × (sent.ring ≡ reclaims.ring)) }
    ensures seen { OnErr result (F.may_be_set stop.now) }
{
    let mut pauses = Backoff::new();
    for _ in rt.forever() {
        match reclaims.close(rt) {
            Ok(sent) => return Ok(sent),
            Err((back, _)) => reclaims = back,
        }
        if stop.is_set() {
            return Err(Stopped);
        }
        pauses.wait(rt);
    }
    unreachable!()
}

// The next notice of a ring of this capacity, or `None` if all were taken and the ring is closed.
pub(crate) fn next_notice<R: Wait, F: StopFlag>(
    rt: &R,
    stop: &F,
    notices: &mut Receiver,
    capacity: u64,
) -> Result<Option<Descriptor>, Stopped>
    ensures taken { IfOk result (λ next. MatchOption next (notices.new.taken ≡ notices.old.taken)
        (λ d. notices.new.taken ≡ notices.old.taken ++ d ∷ [])) }
    ensures of_heap { IfOk result (λ next. IfSome next (IsDescriptorOf notices.old.heap)) }
    ensures few { IfOk result (λ _. length notices.new.taken ≤ 4294967294) }
    ensures closed { IfOk result (λ next. IfNone next (IsTrue notices.new.closed)) }
    ensures seen { OnErr result (F.may_be_set stop.now) }
    ensures ring { notices.new.ring ≡ notices.old.ring }
    ensures heap { notices.new.heap ≡ notices.old.heap }
{
    let mut pauses = backoff_for_items(capacity);
    for _ in rt.forever() {
        match notices.take(rt) {
            Taken::Item(notice) => return Ok(Some(notice)),
            Taken::Closed => return Ok(None),
            Taken::Empty(_) => {}
        }
        if stop.is_set() {
            return Err(Stopped);
        }
        pauses.wait(rt);
    }
    unreachable!()
}

// The number of the next block, or `None` if all were taken and the ring is closed.
pub(crate) fn next_block<R: Wait, F: StopFlag>(
    rt: &R,
    stop: &F,
    blocks: &mut NumberReceiver,
) -> Result<Option<u64>, Stopped>
    ensures taken { IfOk result (λ next. MatchOption next (blocks.new.taken ≡ blocks.old.taken)
        (λ n. blocks.new.taken ≡ blocks.old.taken ++ n ∷ [])) }
    ensures closed { IfOk result (λ next. MatchOption next (IsTrue blocks.new.closed) (λ _. blocks.old.closed
        ≡ false)) }
    ensures seen { OnErr result (F.may_be_set stop.now) }
    ensures ring { blocks.new.ring ≡ blocks.old.ring }
{
    let mut pauses = Backoff::new();
    for _ in rt.forever() {
        match blocks.take(rt) {
            NumberTaken::Item(number) => return Ok(Some(number)),
            NumberTaken::Closed => return Ok(None),
            NumberTaken::Empty(_) => {}
        }
        if stop.is_set() {
            return Err(Stopped);
        }
        pauses.wait(rt);
    }
    unreachable!()
}
