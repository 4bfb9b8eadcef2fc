//! Servers.

ghost use Rattle.std.specs.Prelude.{◌≡◌, ◌<◌, ◌≤◌, ◌+◌, ◌*◌, ◌^◌, ◌++◌, ℕ, List, false, [], IfOk, OnOk, OnErr, IfSome, IfNone, IsTrue, All, length, map};
ghost use Rattle.app_stub.specs.Ports.{HasSent, IsNew, IsOfPort, HasTakenUpToClose};
ghost use Rattle.app_program.specs.Programs.{HasStoresIn, IsServerProgram, reply_address, program_stores};
ghost use Rattle.app_stub.specs.Serving.{all_served_replies, all_served_stores, blocks_of, served_replies, served_stores, submission_of};

use crate::lines::{call, store_line};
use crate::port::{AppEnd, AppPort, AppSent};
use crate::receivers::AppReceivers;
use crate::senders::AppSenders;
use crate::waiting::{self, Stopped};
use app_program::{MAX_REQUEST_STORES, Program, ProgramLine};
use descriptor_ring::{Descriptor, Sender};
use polling::StopFlag;
use shared_heap::Writer;
use std::sync::Wait;

/// Runs a server. It takes its notices up to their closing. For each request it executes the stores of its
/// program and replies, unless the request's number is 0. It reclaims the block of each notice, then closes both
/// its rings. A notice of a reply has no other effect. Waits while a ring is full or empty, and ends once the
/// stop flag is set. Never allocates.
pub fn server<R: Wait, F: StopFlag + Drop>(rt: &R, program: &Program, port: AppPort<F>) -> AppEnd
    requires port { IsNew port }
    requires program { IsServerProgram port.writer.heap.words program.now }

    ensures port { IsOfPort port result }
    ensures reader { result.reader ≡ port.reader }
    ensures memory { result.memory ≡ false }
    ensures stopped { IfNone result.sent (F.may_be_set port.stop) }

    // Unless it saw the flag set, its stores and replies are those of the program for each request of its notices,
    // in order, each reply after the stores for its request. It reclaimed the block of each notice.
    ensures stores { IfSome result.sent
        (λ _. result.note.stores ≡ all_served_stores program.now result.notices.taken) }
    ensures sent { IfSome result.sent (HasSent port.sender.ring port.reclaims.ring
        (all_served_replies program.now 0 result.notices.taken)
        (blocks_of result.notices.taken result.blocks.taken)) }
    ensures all { IfSome result.sent (λ _. HasTakenUpToClose result) }
{
    let AppPort {
        mut writer,
        sender,
        capacity,
        notices,
        blocks,
        reader,
        reclaims,
        stop,
    } = port;
    let mut delivery = AppReceivers { notices, blocks };
    let outgoing = AppSenders {
        sender,
        capacity,
        reclaims,
    };
    let sent = run(rt, &stop, program, &mut writer, &mut delivery, outgoing);
    let AppReceivers { notices, blocks } = delivery;
    AppEnd {
        note: writer.finish(),
        reader,
        notices,
        blocks,
        memory: false,
        sent: sent.ok(),
    }
}

// Runs the server until both its rings are closed.
fn run<R: Wait, F: StopFlag>(
    rt: &R,
    stop: &F,
    program: &Program,
    writer: &mut Writer,
    delivery: &mut AppReceivers,
    mut outgoing: AppSenders,
) -> Result<AppSent, Stopped>
    requires heap { outgoing.sender.heap ≡ writer.old.heap }
    requires program { IsServerProgram writer.old.heap.words program.now }
    requires new { (writer.old.stores ≡ []) × (outgoing.sender.sent ≡ []) × (outgoing.reclaims.sent ≡ [])
        × (delivery.old.notices.taken ≡ []) × (delivery.old.blocks.taken ≡ []) }
    ensures stores { IfOk result (λ _. writer.new.stores ≡ all_served_stores program.now delivery.new.notices.taken) }
    ensures sent { IfOk result (HasSent outgoing.sender.ring outgoing.reclaims.ring
        (all_served_replies program.now 0 delivery.new.notices.taken)
        (blocks_of delivery.new.notices.taken delivery.new.blocks.taken)) }
    ensures all { IfOk result (λ _. IsTrue delivery.new.notices.closed × IsTrue delivery.new.blocks.closed) }
    ensures seen { OnErr result (F.may_be_set stop.now) }
    ensures heap { writer.new.heap ≡ writer.old.heap }
    ensures notices { (delivery.new.notices.ring ≡ delivery.old.notices.ring)
        × (delivery.new.notices.heap ≡ delivery.old.notices.heap) }
    ensures blocks { delivery.new.blocks.ring ≡ delivery.old.blocks.ring }
{
    serve_all(rt, stop, program, writer, delivery, &mut outgoing)?;
    let AppSenders {
        sender,
        capacity: _,
        reclaims,
    } = outgoing;
    let calls = waiting::close(rt, stop, sender)?;
    let reclaims = waiting::close_reclaims(rt, stop, reclaims)?;
    Ok(AppSent { calls, reclaims })
}

// Takes the notices up to their closing, serves each and reclaims its block, then takes the block numbers up to
// their closing.
fn serve_all<R: Wait, F: StopFlag>(
    rt: &R,
    stop: &F,
    program: &Program,
    writer: &mut Writer,
    delivery: &mut AppReceivers,
    outgoing: &mut AppSenders,
) -> Result<(), Stopped>
    requires heap { outgoing.old.sender.heap ≡ writer.old.heap }
    requires program { IsServerProgram writer.old.heap.words program.now }
    requires new { (writer.old.stores ≡ []) × (outgoing.old.sender.sent ≡ []) × (outgoing.old.reclaims.sent ≡ [])
        × (delivery.old.notices.taken ≡ []) × (delivery.old.blocks.taken ≡ []) }
    ensures stores { OnOk result (writer.new.stores ≡ all_served_stores program.now delivery.new.notices.taken) }
    ensures calls { OnOk result (map submission_of outgoing.new.sender.sent
        ≡ all_served_replies program.now 0 delivery.new.notices.taken) }
    ensures given { OnOk result (outgoing.new.reclaims.sent
        ≡ blocks_of delivery.new.notices.taken delivery.new.blocks.taken) }
    ensures all { OnOk result (IsTrue delivery.new.notices.closed × IsTrue delivery.new.blocks.closed) }
    ensures seen { OnErr result (F.may_be_set stop.now) }
    ensures heap { writer.new.heap ≡ writer.old.heap }
    ensures notices { (delivery.new.notices.ring ≡ delivery.old.notices.ring)
        × (delivery.new.notices.heap ≡ delivery.old.notices.heap) }
    ensures blocks { delivery.new.blocks.ring ≡ delivery.old.blocks.ring }
    ensures rings { (outgoing.new.sender.ring ≡ outgoing.old.sender.ring)
        × (outgoing.new.reclaims.ring ≡ outgoing.old.reclaims.ring) }
{
    let address = address_of(program);
    for _ in rt.forever() {
        match waiting::next_notice(rt, stop, &mut delivery.notices, outgoing.capacity)? {
            Some(notice) => {
                serve(
                    rt,
                    stop,
                    program,
                    address,
                    &notice,
                    writer,
                    &mut outgoing.sender,
                    outgoing.capacity,
                )?;
                delivery.reclaim_block(rt, stop, &mut outgoing.reclaims)?;
            }
            None => return delivery.finish(rt, stop),
        }
    }
    unreachable!()
}

// The address of a program's replies.
fn address_of(program: &Program) -> u64
    ensures { result ≡ reply_address program.now }
{
    for line in program.as_slice() {
        if let ProgramLine::Reply { addr } = line {
            return *addr;
        }
    }
    0
}

// Serves one notice.
fn serve<R: Wait, F: StopFlag>(
    rt: &R,
    stop: &F,
    program: &Program,
    address: u64,
    notice: &Descriptor,
    writer: &mut Writer,
    sender: &mut Sender,
    capacity: u64,
) -> Result<(), Stopped>
    requires heap { sender.old.heap ≡ writer.old.heap }
    requires lines { All (HasStoresIn writer.old.heap.words) program.now }
    requires address { address ≡ reply_address program.now }
    requires few_stores { length writer.old.stores + length (program_stores program.now) ≤ 2 ^ 63 }
    requires few_calls { length sender.old.sent < 4294967294 }
    ensures stores { OnOk result (writer.new.stores ≡ writer.old.stores ++ served_stores program.now notice.now) }
    ensures calls { OnOk result (map submission_of sender.new.sent ≡ map submission_of sender.old.sent
        ++ served_replies program.now (length writer.old.stores + length (served_stores program.now notice.now)) notice.now) }
    ensures seen { OnErr result (F.may_be_set stop.now) }
    ensures heap { (writer.new.heap ≡ writer.old.heap) × (sender.new.heap ≡ sender.old.heap) }
    ensures ring { sender.new.ring ≡ sender.old.ring }
{
    if notice.kind != 1 {
        return Ok(());
    }
    store_lines(writer, program);
    if notice.number == 0 {
        return Ok(());
    }
    let reply = call(writer, 2, notice.method, notice.number, address);
    waiting::send(rt, stop, sender, capacity, reply)
}

// Executes the stores of a program.
fn store_lines(writer: &mut Writer, program: &Program)
    requires places { All (HasStoresIn writer.old.heap.words) program.now }
    requires few { length writer.old.stores + length (program_stores program.now) ≤ 2 ^ 63 }
    ensures stores { writer.new.stores ≡ writer.old.stores ++ program_stores program.now }
    ensures heap { writer.new.heap ≡ writer.old.heap }
{
    for line in program.as_slice() {
        store_line(writer, line);
    }
}
