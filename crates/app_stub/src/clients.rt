//! Clients.

ghost use Rattle.std.specs.Prelude.{◌≡◌, ◌<◌, ◌≤◌, ◌+◌, ◌^◌, ◌++◌, ℕ, List, false, [], IfOk, OnOk, OnErr, IfSome, IfNone, IsTrue, length, map};
ghost use Rattle.app_stub.specs.Ports.{HasSent, IsNew, IsOfPort, HasTakenUpToClose};
ghost use Rattle.app_program.specs.Programs.{IsClientLine, IsClientProgram, line_reclaims, line_stores, line_submits, program_reclaims, program_stores, program_submits};
ghost use Rattle.app_stub.specs.Serving.{blocks_of, submission_of};

use crate::lines::{call, store_line};
use crate::port::{AppEnd, AppPort, AppSent};
use crate::receivers::AppReceivers;
use crate::senders::AppSenders;
use crate::waiting::{self, Stopped};
use app_program::{Program, ProgramLine};
use descriptor_ring::NumberSender;
use polling::StopFlag;
use shared_heap::Writer;
use std::sync::Wait;

/// Runs a client. It executes the lines of its program and closes the ring of its calls. Then it takes its notices up
/// to their closing, reclaims the block of each, and closes the ring of reclaimed blocks. Waits while a ring is full or
/// empty, and ends once the stop flag is set. Never allocates.
pub fn client<R: Wait, F: StopFlag + Drop>(rt: &R, program: &Program, port: AppPort<F>) -> AppEnd
    requires port { IsNew port }
    requires program { IsClientProgram port.writer.heap.words program.now }

    ensures port { IsOfPort port result }
    ensures reader { result.reader ≡ port.reader }
    ensures memory { result.memory ≡ false }
    ensures stopped { IfNone result.sent (F.may_be_set port.stop) }

    // Unless it saw the flag set, its stores and calls are those of the program, each call after the stores before
    // it. It reclaimed the blocks of the program, then the block of each notice.
    ensures stores { IfSome result.sent (λ _. result.note.stores ≡ program_stores program.now) }
    ensures sent { IfSome result.sent (HasSent port.sender.ring port.reclaims.ring (program_submits 0 program.now)
        (program_reclaims program.now ++ blocks_of result.notices.taken result.blocks.taken)) }
    ensures all { IfSome result.sent (λ _. HasTakenUpToClose result) }
{
    let AppPort {
        mut writer,
        sender,
        capacity,
        notices,
        blocks,
        reader,
        reclaims,
        stop,
    } = port;
    let mut delivery = AppReceivers { notices, blocks };
    let outgoing = AppSenders {
        sender,
        capacity,
        reclaims,
    };
    let sent = run(rt, &stop, program, &mut writer, &mut delivery, outgoing);
    let AppReceivers { notices, blocks } = delivery;
    AppEnd {
        note: writer.finish(),
        reader,
        notices,
        blocks,
        memory: false,
        sent: sent.ok(),
    }
}

// Runs the client until both its rings are closed.
fn run<R: Wait, F: StopFlag>(
    rt: &R,
    stop: &F,
    program: &Program,
    writer: &mut Writer,
    delivery: &mut AppReceivers,
    mut outgoing: AppSenders,
) -> Result<AppSent, Stopped>
    requires heap { outgoing.sender.heap ≡ writer.old.heap }
    requires program { IsClientProgram writer.old.heap.words program.now }
    requires new { (writer.old.stores ≡ []) × (outgoing.sender.sent ≡ []) × (outgoing.reclaims.sent ≡ [])
        × (delivery.old.notices.taken ≡ []) × (delivery.old.blocks.taken ≡ []) }
    ensures stores { IfOk result (λ _. writer.new.stores ≡ program_stores program.now) }
    ensures sent { IfOk result (HasSent outgoing.sender.ring outgoing.reclaims.ring (program_submits 0 program.now)
        (program_reclaims program.now ++ blocks_of delivery.new.notices.taken delivery.new.blocks.taken)) }
    ensures all { IfOk result (λ _. IsTrue delivery.new.notices.closed × IsTrue delivery.new.blocks.closed) }
    ensures seen { OnErr result (F.may_be_set stop.now) }
    ensures heap { writer.new.heap ≡ writer.old.heap }
    ensures notices { (delivery.new.notices.ring ≡ delivery.old.notices.ring)
        × (delivery.new.notices.heap ≡ delivery.old.notices.heap) }
    ensures blocks { delivery.new.blocks.ring ≡ delivery.old.blocks.ring }
{
    execute_lines(rt, stop, program, writer, &mut outgoing)?;
    let AppSenders {
        sender,
        capacity,
        mut reclaims,
    } = outgoing;
    let calls = waiting::close(rt, stop, sender)?;
    reclaim_all(rt, stop, delivery, capacity, &mut reclaims)?;
    let reclaims = waiting::close_reclaims(rt, stop, reclaims)?;
    Ok(AppSent { calls, reclaims })
}

fn execute_lines<R: Wait, F: StopFlag>(
    rt: &R,
    stop: &F,
    program: &Program,
    writer: &mut Writer,
    outgoing: &mut AppSenders,
) -> Result<(), Stopped>
    requires heap { outgoing.old.sender.heap ≡ writer.old.heap }
    requires program { IsClientProgram writer.old.heap.words program.now }
    requires new { (writer.old.stores ≡ []) × (outgoing.old.sender.sent ≡ []) × (outgoing.old.reclaims.sent ≡ []) }
    ensures stores { OnOk result (writer.new.stores ≡ program_stores program.now) }
    ensures calls { OnOk result (map submission_of outgoing.new.sender.sent ≡ program_submits 0 program.now) }
    ensures reclaims { OnOk result (outgoing.new.reclaims.sent ≡ program_reclaims program.now) }
    ensures seen { OnErr result (F.may_be_set stop.now) }
    ensures heap { writer.new.heap ≡ writer.old.heap }
    ensures rings { (outgoing.new.sender.ring ≡ outgoing.old.sender.ring)
        × (outgoing.new.reclaims.ring ≡ outgoing.old.reclaims.ring) }
{
    for line in program.as_slice() {
        execute_line(rt, stop, line, writer, outgoing)?;
    }
    Ok(())
}

fn execute_line<R: Wait, F: StopFlag>(
    rt: &R,
    stop: &F,
    line: &ProgramLine,
    writer: &mut Writer,
    outgoing: &mut AppSenders,
) -> Result<(), Stopped>
    requires heap { outgoing.old.sender.heap ≡ writer.old.heap }
    requires line { IsClientLine writer.old.heap.words line.now }
    requires few_stores { length writer.old.stores + length (line_stores line.now) ≤ 2 ^ 63 }
    requires few_calls { length outgoing.old.sender.sent < 4294967294 }
    requires few_reclaims { length outgoing.old.reclaims.sent < 2 ^ 61 }
    ensures stores { OnOk result (writer.new.stores ≡ writer.old.stores ++ line_stores line.now) }
    ensures calls { OnOk result (map submission_of outgoing.new.sender.sent
        ≡ map submission_of outgoing.old.sender.sent ++ line_submits (length writer.old.stores) line.now) }
    ensures reclaims { OnOk result (outgoing.new.reclaims.sent ≡ outgoing.old.reclaims.sent ++ line_reclaims line.now) }
    ensures seen { OnErr result (F.may_be_set stop.now) }
    ensures heap { (writer.new.heap ≡ writer.old.heap) × (outgoing.new.sender.heap ≡ outgoing.old.sender.heap) }
    ensures rings { (outgoing.new.sender.ring ≡ outgoing.old.sender.ring)
        × (outgoing.new.reclaims.ring ≡ outgoing.old.reclaims.ring) }
{
    match line {
        ProgramLine::Submit { method, addr } => {
            let request = call(writer, 1, *method, 0, *addr);
            waiting::send(rt, stop, &mut outgoing.sender, outgoing.capacity, request)
        }
        ProgramLine::Reclaim { block } => {
            waiting::reclaim(rt, stop, &mut outgoing.reclaims, *block)
        }
        _ => {
            store_line(writer, line);
            Ok(())
        }
    }
}

// Takes the notices up to their closing and reclaims the block of each, then takes the block numbers up to their
// closing.
fn reclaim_all<R: Wait, F: StopFlag>(
    rt: &R,
    stop: &F,
    delivery: &mut AppReceivers,
    capacity: u64,
    reclaims: &mut NumberSender,
) -> Result<(), Stopped>
    requires new { (delivery.old.notices.taken ≡ []) × (delivery.old.blocks.taken ≡ []) }
    requires few { length reclaims.old.sent ≤ 2 ^ 60 }
    ensures given { OnOk result (reclaims.new.sent
        ≡ reclaims.old.sent ++ blocks_of delivery.new.notices.taken delivery.new.blocks.taken) }
    ensures all { OnOk result (IsTrue delivery.new.notices.closed × IsTrue delivery.new.blocks.closed) }
    ensures seen { OnErr result (F.may_be_set stop.now) }
    ensures ring { reclaims.new.ring ≡ reclaims.old.ring }
    ensures notices { (delivery.new.notices.ring ≡ delivery.old.notices.ring)
        × (delivery.new.notices.heap ≡ delivery.old.notices.heap) }
    ensures blocks { delivery.new.blocks.ring ≡ delivery.old.blocks.ring }
{
    for _ in rt.forever() {
        match waiting::next_notice(rt, stop, &mut delivery.notices, capacity)? {
            Some(_) => delivery.reclaim_block(rt, stop, reclaims)?,
            None => return delivery.finish(rt, stop),
        }
    }
    unreachable!()
}
