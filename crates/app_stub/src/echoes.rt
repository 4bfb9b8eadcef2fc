//! Echoes.

ghost use Rattle.std.specs.Prelude.{◌≡◌, ◌⊎◌, ◌<◌, ◌≤◌, ◌+◌, ◌*◌, ◌^◌, ◌↔◌, ◌++◌, ◌∷◌, List, false, [], IfOk, IfErr, OnOk, IfSome, IfNone, IsTrue, MatchOption, length, map};
ghost use Rattle.mrpc_table.specs.Calls.{message_of};
ghost use Rattle.mrpc_table.specs.Normal.{IsNormal};
ghost use Rattle.mrpc_table.specs.Valid.{IsValid};
ghost use Rattle.mrpc_table.specs.declared.call.CallKind.TheVariants.{Request, Reply};
ghost use Rattle.mrpc_table.specs.declared.limits.TheConstants.{MAX_HEAP, MIN_HEAP};
ghost use Rattle.graph_place.specs.Size.{tree_words};
ghost use Rattle.descriptor_ring.specs.Rings.{IsDescriptorOf};
ghost use Rattle.descriptor_ring.specs.declared.descriptor.Descriptor.{Descriptor};
ghost use Rattle.descriptor_ring.specs.declared.limits.TheConstants.{MAX_CAPACITY};
ghost use Rattle.app_stub.specs.EchoStates.{IsCopyOutcome, IsEchoState, IsNewEchoState, IsReplyPlaced, echo_of};
ghost use Rattle.app_stub.specs.Echoing.{HasEchoed, HasReply, slice_words};
ghost use Rattle.app_stub.specs.Pairing.{IsBlockDue, IsPaired};
ghost use Rattle.app_stub.specs.Ports.{HasSent, IsNew, IsOfPort, HasTakenUpToClose};
ghost use Rattle.app_stub.specs.Serving.{blocks_of, submission_of};

use crate::echo_error::EchoError;
use crate::lines::call;
use crate::port::{AppEnd, AppPort, AppSent};
use crate::receivers::AppReceivers;
use crate::senders::AppSenders;
use crate::slices::{next_slice, words_of};
use crate::waiting;
use descriptor_ring::{Descriptor, Sender};
use graph_copy::CopyResult;
use graph_form::sound_tree_is_normal;
use graph_place::{place, place_words};
use mrpc_base::Stores;
use mrpc_table::{CallKind, MAX_LOADS, Memory, Table, Tree};
use polling::StopFlag;
use shared_heap::{Reader, Writer, calls_are_fresh, since_is_transitive};
use stable_copy::copy_message;
use std::alloc::Global;
use std::sync::Wait;

// The state of an echo.
#[derive(Drop)]
pub(crate) struct EchoState {
    pub(crate) alloc: Global,
    pub(crate) writer: Writer,
    pub(crate) reader: Reader,
    // The capacity of its ring in calls, and how many replies it has sent.
    pub(crate) ring: u64,
    pub(crate) replies: u64,
}

/// Runs an echo. It takes its notices up to their closing, copies each request of a method of the table, and
/// reclaims the block of each notice. It replies to a request with the request's own message, placed in the next
/// slice of the heap; then it closes both its rings.
///
/// A request has no reply if the table lacks its method, its number is 0, the method's input and output differ,
/// its graph is malformed, or its tree doesn't fit into a slice. Waits while a ring is full or empty, and ends
/// once the stop flag is set. When out of memory, it sets the flag and ends.
pub fn echo<R: Wait, F: StopFlag + Drop>(
    rt: &R,
    alloc: Global,
    table: &Table,
    port: AppPort<F>,
) -> AppEnd
    requires valid { IsValid table.now }
    requires port { IsNew port }
    requires heap { (MIN_HEAP ≤ port.writer.heap.words) × (port.writer.heap.words ≤ MAX_HEAP) }
    requires receive { (MIN_HEAP ≤ port.reader.heap.words) × (port.reader.heap.words ≤ MAX_HEAP) }
    requires ring { port.capacity ≤ MAX_CAPACITY }

    ensures port { IsOfPort port result }
    ensures stopped { IfNone result.sent (IsTrue result.memory ⊎ F.may_be_set port.stop) }
    ensures memory { IfSome result.sent (λ _. result.memory ≡ false) }

    // Unless it was out of memory or saw the flag set, it made copies of requests of its notices. Notices and copies
    // determine its stores and replies. It reclaimed the block of each notice.
    ensures echoed { IfSome result.sent (λ sent. HasEchoed
        (record {
          table = table.now;
          heap = port.writer.heap.words;
          receive = port.reader.heap.words;
          ring = port.capacity;
        })
        result.notices.taken result.note.stores (map submission_of sent.calls.items) result.reader) }
    ensures sent { IfSome result.sent (λ sent. HasSent port.sender.ring port.reclaims.ring
        (map submission_of sent.calls.items) (blocks_of result.notices.taken result.blocks.taken) sent) }
    ensures all { IfSome result.sent (λ _. HasTakenUpToClose result) }
{
    let AppPort {
        writer,
        sender,
        capacity,
        notices,
        blocks,
        reader,
        reclaims,
        stop,
    } = port;
    let mut desk = EchoState {
        alloc,
        writer,
        reader,
        ring: capacity,
        replies: 0,
    };
    let mut delivery = AppReceivers { notices, blocks };
    let outgoing = AppSenders {
        sender,
        capacity,
        reclaims,
    };
    let answer = run(rt, &stop, table, &mut desk, &mut delivery, outgoing);
    let memory = matches!(&answer, Err(EchoError::NoMemory));
    if memory {
        stop.set();
    }
    let EchoState { writer, reader, .. } = desk;
    let AppReceivers { notices, blocks } = delivery;
    AppEnd {
        note: writer.finish(),
        reader,
        notices,
        blocks,
        memory,
        sent: answer.ok(),
    }
}

// Runs the echo until both its rings are closed.
fn run<R: Wait, F: StopFlag>(
    rt: &R,
    stop: &F,
    table: &Table,
    desk: &mut EchoState,
    delivery: &mut AppReceivers,
    mut outgoing: AppSenders,
) -> Result<AppSent, EchoError>
    requires valid { IsValid table.now }
    requires new { IsNewEchoState desk.old delivery.old outgoing }
    ensures echoed { IfOk result (λ sent. HasEchoed (echo_of table.now desk.old) delivery.new.notices.taken
        desk.new.writer.stores (map submission_of sent.calls.items) desk.new.reader) }
    ensures sent { IfOk result (λ sent. HasSent outgoing.sender.ring outgoing.reclaims.ring
        (map submission_of sent.calls.items)
        (blocks_of delivery.new.notices.taken delivery.new.blocks.taken) sent) }
    ensures all { IfOk result (λ _. IsTrue delivery.new.notices.closed × IsTrue delivery.new.blocks.closed) }
    ensures ended { IfErr result (λ e. e ≡ EchoError.FlagSet → F.may_be_set stop.now) }
    ensures heaps { (desk.new.writer.heap ≡ desk.old.writer.heap) × (desk.new.reader.heap ≡ desk.old.reader.heap) }
    ensures notices { (delivery.new.notices.ring ≡ delivery.old.notices.ring)
        × (delivery.new.notices.heap ≡ delivery.old.notices.heap) }
    ensures blocks { delivery.new.blocks.ring ≡ delivery.old.blocks.ring }
{
    echo_all(rt, stop, table, desk, delivery, &mut outgoing)?;
    let AppSenders {
        sender,
        capacity: _,
        reclaims,
    } = outgoing;
    let calls = waiting::close(rt, stop, sender)?;
    let reclaims = waiting::close_reclaims(rt, stop, reclaims)?;
    Ok(AppSent { calls, reclaims })
}

// Takes the notices up to their closing and handles each, then takes the block numbers up to their closing.
fn echo_all<R: Wait, F: StopFlag>(
    rt: &R,
    stop: &F,
    table: &Table,
    desk: &mut EchoState,
    delivery: &mut AppReceivers,
    outgoing: &mut AppSenders,
) -> Result<(), EchoError>
    requires valid { IsValid table.now }
    requires new { IsNewEchoState desk.old delivery.old outgoing.old }
    ensures echoed { OnOk result (HasEchoed (echo_of table.now desk.old) delivery.new.notices.taken
        desk.new.writer.stores (map submission_of outgoing.new.sender.sent) desk.new.reader) }
    ensures given { OnOk result (outgoing.new.reclaims.sent
        ≡ blocks_of delivery.new.notices.taken delivery.new.blocks.taken) }
    ensures all { OnOk result (IsTrue delivery.new.notices.closed × IsTrue delivery.new.blocks.closed) }
    ensures ended { IfErr result (λ e. e ≡ EchoError.FlagSet → F.may_be_set stop.now) }
    ensures heaps { (desk.new.writer.heap ≡ desk.old.writer.heap) × (desk.new.reader.heap ≡ desk.old.reader.heap) }
    ensures notices { (delivery.new.notices.ring ≡ delivery.old.notices.ring)
        × (delivery.new.notices.heap ≡ delivery.old.notices.heap) }
    ensures blocks { delivery.new.blocks.ring ≡ delivery.old.blocks.ring }
    ensures rings { (outgoing.new.sender.ring ≡ outgoing.old.sender.ring)
        × (outgoing.new.reclaims.ring ≡ outgoing.old.reclaims.ring) }
{
    calls_are_fresh();
    for _ in rt.forever() {
        match waiting::next_notice(rt, stop, &mut delivery.notices, desk.ring)? {
            Some(notice) => echo_one(rt, stop, table, desk, delivery, outgoing, notice)?,
            None => {
                delivery.finish(rt, stop)?;
                return Ok(());
            }
        }
    }
    unreachable!()
}

// Handles a notice: copies its request, then reclaims its block, then replies.
fn echo_one<R: Wait, F: StopFlag>(
    rt: &R,
    stop: &F,
    table: &Table,
    desk: &mut EchoState,
    delivery: &mut AppReceivers,
    outgoing: &mut AppSenders,
    notice: Descriptor,
) -> Result<(), EchoError>
    requires valid { IsValid table.now }
    requires desk { IsEchoState desk.old outgoing.old.sender }
    requires of_heap { IsDescriptorOf desk.old.reader.heap notice }
    requires due { IsBlockDue delivery.old.notices.taken delivery.old.blocks }
    requires few { length outgoing.old.sender.sent < 4294967294 }
    requires few_reclaims { length outgoing.old.reclaims.sent < 2 ^ 61 }
    ensures echoed { OnOk result ((notices : List Descriptor)
        → HasEchoed (echo_of table.now desk.old) notices desk.old.writer.stores
        (map submission_of outgoing.old.sender.sent)
        desk.old.reader
        → HasEchoed (echo_of table.now desk.old) (notices ++ notice ∷ []) desk.new.writer.stores
        (map submission_of outgoing.new.sender.sent) desk.new.reader) }
    ensures desk { OnOk result (IsEchoState desk.new outgoing.new.sender) }
    ensures sent { OnOk result (length outgoing.new.sender.sent ≤ length outgoing.old.sender.sent + 1) }
    ensures paired { OnOk result (IsPaired delivery.new.notices.taken delivery.new.blocks) }
    ensures given { outgoing.old.reclaims.sent ≡ delivery.old.blocks.taken
        → OnOk result (outgoing.new.reclaims.sent ≡ delivery.new.blocks.taken) }
    ensures ended { IfErr result (λ e. e ≡ EchoError.FlagSet → F.may_be_set stop.now) }
    ensures heaps { (desk.new.writer.heap ≡ desk.old.writer.heap) × (desk.new.reader.heap ≡ desk.old.reader.heap)
        × (desk.new.ring ≡ desk.old.ring) }
    ensures notices { delivery.new.notices ≡ delivery.old.notices }
    ensures blocks { delivery.new.blocks.ring ≡ delivery.old.blocks.ring }
    ensures rings { (outgoing.new.sender.ring ≡ outgoing.old.sender.ring)
        × (outgoing.new.reclaims.ring ≡ outgoing.old.reclaims.ring) }
{
    let asked = (notice.method, notice.number);
    let tree = copied(table, desk, notice)?;
    delivery.reclaim_block(rt, stop, &mut outgoing.reclaims)?;
    match tree {
        Some(tree) => {
            reply(rt, stop, table, desk, asked, &tree, &mut outgoing.sender)?;
            Ok(())
        }
        None => Ok(()),
    }
}

// The tree of the reply to a notice, if it has one. Its request is copied if the table has the method.
fn copied(table: &Table, desk: &mut EchoState, notice: Descriptor) -> Result<Option<Tree>, Memory>
    requires valid { IsValid table.now }
    requires of_heap { IsDescriptorOf desk.old.reader.heap notice }
    requires heap { (MIN_HEAP ≤ desk.old.writer.heap.words) × (desk.old.writer.heap.words ≤ MAX_HEAP) }
    requires receive { (MIN_HEAP ≤ desk.old.reader.heap.words) × (desk.old.reader.heap.words ≤ MAX_HEAP) }
    requires ring { desk.old.ring ≤ MAX_CAPACITY }
    ensures copies { IfOk result (IsCopyOutcome (echo_of table.now desk.old) notice desk.old.reader desk.new.reader) }
    ensures normal { IfOk result (λ tree. IfSome tree (IsNormal table.now (message_of table.now notice.method Reply))) }
    ensures known { IfOk result (λ tree. IfSome tree (λ _. notice.method < length table.now.methods)) }
    ensures reader { desk.new.reader.heap ≡ desk.old.reader.heap }
    ensures same { (desk.new.writer ≡ desk.old.writer) × (desk.new.ring ≡ desk.old.ring)
        × (desk.new.replies ≡ desk.old.replies) }
{
    calls_are_fresh();
    sound_tree_is_normal();
    let Descriptor {
        kind,
        method,
        number,
        addr,
        note,
        ..
    } = notice;
    desk.reader.meet(note);
    if kind != 1 || usize::from(method) >= table.methods.len() {
        return Ok(None);
    }
    let message = table.message_of(method, CallKind::Request);
    let answer = copy_message(
        desk.alloc,
        &mut desk.reader,
        table,
        message,
        addr,
        MAX_LOADS,
    )?;
    match answer {
        CopyResult::Copied { tree, .. } => Ok(replied(table, desk, (method, number), tree)),
        CopyResult::Malformed { .. } => Ok(None),
    }
}

// The tree of a request's copy, if the request has a reply.
fn replied(table: &Table, desk: &EchoState, asked: (u16, u32), tree: Tree) -> Option<Tree>
    requires valid { IsValid table.now }
    requires known { asked.0 < length table.now.methods }
    requires normal { IsNormal table.now (message_of table.now asked.0 Request) tree }
    requires heap { (MIN_HEAP ≤ desk.now.writer.heap.words) × (desk.now.writer.heap.words ≤ MAX_HEAP) }
    requires ring { desk.now.ring ≤ MAX_CAPACITY }
    ensures tree { IfSome result (λ t. t ≡ tree) }
    ensures reply { MatchOption result
        (HasReply (echo_of table.now desk.now) asked.0 asked.1 tree → ⊥)
        (λ t. HasReply (echo_of table.now desk.now) asked.0 asked.1 tree) }
{
    let (method, number) = asked;
    let input = table.message_of(method, CallKind::Request);
    if number == 0 || input != table.message_of(method, CallKind::Reply) {
        return None;
    }
    if place_words(&tree, table, input) > words_of(desk.writer.size(), desk.ring) {
        return None;
    }
    Some(tree)
}

// Places the tree of a request in the next slice, and sends the reply.
fn reply<R: Wait, F: StopFlag>(
    rt: &R,
    stop: &F,
    table: &Table,
    desk: &mut EchoState,
    asked: (u16, u32),
    tree: &Tree,
    sender: &mut Sender,
) -> Result<(), EchoError>
    requires valid { IsValid table.now }
    requires known { asked.0 < length table.now.methods }
    requires normal { IsNormal table.now (message_of table.now asked.0 Reply) tree.now }
    requires fits { tree_words table.now (message_of table.now asked.0 Reply) tree.now
        ≤ slice_words desk.old.writer.heap.words desk.old.ring }
    requires desk { IsEchoState desk.old sender.old }
    requires few { length sender.old.sent < 4294967294 }
    ensures replied { OnOk result (IsReplyPlaced (echo_of table.now desk.old) asked.0 asked.1 tree.now
        (desk.old.writer.stores, map submission_of sender.old.sent)
        (desk.new.writer.stores, map submission_of sender.new.sent)) }
    ensures desk { OnOk result (IsEchoState desk.new sender.new) }
    ensures sent { OnOk result (length sender.new.sent ≡ length sender.old.sent + 1) }
    ensures ended { IfErr result (λ e. e ≡ EchoError.FlagSet → F.may_be_set stop.now) }
    ensures same { (desk.new.writer.heap ≡ desk.old.writer.heap) × (desk.new.reader ≡ desk.old.reader)
        × (desk.new.ring ≡ desk.old.ring) }
    ensures ring { (sender.new.ring ≡ sender.old.ring) × (sender.new.heap ≡ sender.old.heap) }
{
    since_is_transitive();
    let (method, number) = asked;
    let at = next_slice(desk.writer.size(), desk.ring, desk.replies);
    let message = table.message_of(method, CallKind::Reply);
    place(desk.alloc, tree, table, message, at, &mut desk.writer)?;
    let reply = call(&mut desk.writer, 2, method, number, at);
    waiting::send(rt, stop, sender, desk.ring, reply)?;
    desk.replies += 1;
    Ok(())
}
