//! A client whose calls are echoed.
ghost use Rattle.std.specs.Prelude.{◌≡◌, ◌≤◌, ◌<◌, ◌+◌, [], All, IfOk, OnOk, length};
ghost use Rattle.std.specs.Thread.{IsSync};
ghost use Rattle.mrpc_table.specs.Valid.{IsValid};
ghost use Rattle.app_stub.specs.Ports.{IsNew};
ghost use Rattle.app_program.specs.Programs.{IsClientLine, IsClientProgram, line_stores, program_stores};
ghost use Rattle.bench_apps.specs.Services.{IsUnused};
ghost use Rattle.bench_apps.specs.declared.calling.TheConstants.{MAX_CALLS};
ghost use Rattle.bench_apps.specs.declared.wiring.TheConstants.{CAPACITY, WORDS};

use crate::plain_service::Service;
use crate::taking::TakenCalls;
use crate::wiring::{BenchPorts, open_ports};
use app_program::{Program, ProgramLine};
use app_stub::{AppEnd, AppPort, client, echo};
use mrpc_table::{Memory, Table};
use polling::RunFlag;
use std::alloc::Global;
use std::sync::Wait;
use std::thread::{Threads, join};

/// The most calls that a client makes here.
pub const MAX_CALLS: u32 = 500_000;

// The number of slots for messages, of two words each, that are used in turn. There are more than two rings
// and three threads hold, so that no word is overwritten before it was copied.
const MESSAGES: u32 = 256;

/// Runs a client whose `count` calls of methods of this table are echoed, and returns the results of the
/// replies; `None` if one of the threads or the setup ran out of memory, which ends all.
pub fn call<R: Threads + Wait + Sync>(
    rt: &R,
    alloc: Global,
    table: &Table,
    count: u32,
) -> Option<TakenCalls>
    requires valid { IsValid table.now }
    requires few { count ≤ MAX_CALLS }
{
    let Ok(program) = client_program(alloc, count) else {
        return None;
    };
    let stop = RunFlag::new(alloc).ok()?;
    let wired = open_ports(rt, alloc, &stop).ok()?;
    in_three_threads(rt, alloc, table, &program, &stop, wired, count)
}

// One more line of a client.
fn add(program: &mut Program, line: ProgramLine) -> Result<(), Memory>
    requires line { IsClientLine WORDS line }
    requires few { length (line_stores line) ≤ 1 }
    requires lines { All (IsClientLine WORDS) program.old }
    ensures lines { OnOk result (All (IsClientLine WORDS) program.new) }
    ensures length { OnOk result (length program.new ≡ length program.old + 1) }
    ensures stores { OnOk result (length (program_stores program.new) ≤ length (program_stores program.old) + 1) }
{
    program.push(line)
}

// A client that stores a message of one word and submits it, this many times.
fn client_program(alloc: Global, count: u32) -> Result<Program, Memory>
    requires few { count ≤ MAX_CALLS }
    ensures { IfOk result (IsClientProgram WORDS) }
{
    let mut program = Program::new(alloc);
    for number in 0..count {
        let place = 2 + 2 * (number % MESSAGES);
        let value = u64::from(number) + 1;
        add(&mut program, ProgramLine::Store { place, value })?;
        let addr = u64::from(place);
        add(&mut program, ProgramLine::Submit { method: 0, addr })?;
    }
    Ok(program)
}

fn in_three_threads<R: Threads + Wait + Sync>(
    rt: &R,
    alloc: Global,
    table: &Table,
    program: &Program,
    stop: &RunFlag,
    wired: BenchPorts,
    count: u32,
) -> Option<TakenCalls>
    requires valid { IsValid table.now }
    requires program { IsClientProgram WORDS program.now }
    requires new { IsNew wired.client × IsNew wired.echo }
    requires words { (wired.client.writer.heap.words ≡ WORDS) × (wired.echo.writer.heap.words ≡ WORDS)
        × (wired.echo.reader.heap.words ≡ WORDS) × (wired.echo.capacity ≡ CAPACITY) }
    requires few { count ≤ MAX_CALLS }
    requires service { IsUnused wired.service }
{
    let BenchPorts {
        client: port,
        echo: echo_port,
        service,
    } = wired;
    let (called, (echoed, served)) = join(
        rt,
        move || -> bool
            requires { IsSync R.row × IsNew port × IsClientProgram port.writer.heap.words program.now }
        { is_whole(client(rt, program, port)) },
        move || -> (bool, Option<TakenCalls>)
            requires { IsSync R.row × IsValid table.now × IsNew echo_port × (echo_port.writer.heap.words ≡ WORDS)
                × (echo_port.reader.heap.words ≡ WORDS) × (echo_port.capacity ≡ CAPACITY)
                × (count ≤ MAX_CALLS) × IsUnused service }
        { echo_and_serve(rt, alloc, table, echo_port, stop, service, count) },
    );
    if called && echoed { served } else { None }
}

// Whether an application finished, and wasn't stopped.
fn is_whole(end: AppEnd) -> bool {
    end.sent.is_some()
}

fn echo_and_serve<R: Threads + Wait + Sync>(
    rt: &R,
    alloc: Global,
    table: &Table,
    port: AppPort<RunFlag>,
    stop: &RunFlag,
    service: Service,
    count: u32,
) -> (bool, Option<TakenCalls>)
    requires valid { IsValid table.now }
    requires new { IsNew port }
    requires words { (port.writer.heap.words ≡ WORDS) × (port.reader.heap.words ≡ WORDS) }
    requires capacity { port.capacity ≡ CAPACITY }
    requires few { count ≤ MAX_CALLS }
    requires service { IsUnused service }
{
    join(
        rt,
        move || -> bool
            requires { IsSync R.row × IsValid table.now × IsNew port × (port.writer.heap.words ≡ WORDS)
                × (port.reader.heap.words ≡ WORDS) × (port.capacity ≡ CAPACITY) }
        { is_whole(echo(rt, alloc, table, port)) },
        move || -> Option<TakenCalls>
            requires { IsSync R.row × (count ≤ MAX_CALLS) × IsUnused service }
        { service.serve(rt, stop, count) },
    )
}
