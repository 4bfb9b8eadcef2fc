//! The applications of the drill.

ghost use Rattle.std.specs.Prelude.{◌≡◌, ◌^◌, ◌<◌, ◌≤◌, IfOk};
ghost use Rattle.drill.specs.Drill.{address, applications, client, echo, program, value};

use crate::plan::MAX_CALLS;
use crate::schema::one;
use app_program::{Program, ProgramLine};
use mrpc_table::{Memory, Sequence};
use run_plan::{Application, Role};
use std::alloc::Global;

// The number of clients, each with an echo.
pub(crate) const CLIENTS: u32 = 4;

// The size of an application's heap, in words.
const HEAP: u64 = 64;

// The size of an application's receive heap, in words.
const RECEIVE: u64 = 1024;

// The capacity of an application's rings, in items.
const RING: u64 = 4;

// The applications, each client before its echo.
pub(crate) fn applications(alloc: Global, calls: u64) -> Result<Sequence<Application>, Memory>
    requires { calls ≤ MAX_CALLS }
    ensures { IfOk result (λ apps. apps ≡ applications calls) }
{
    let mut apps = Sequence::new(alloc);
    for before in 0..CLIENTS {
        apps.push(client(alloc, before + 1, calls)?)?;
        apps.push(echo(alloc, before + 1))?;
    }
    Ok(apps)
}

// The client with a number, from 1.
fn client(alloc: Global, number: u32, calls: u64) -> Result<Application, Memory>
    requires least { 1 ≤ number }
    requires most { number ≤ CLIENTS }
    requires few { calls ≤ MAX_CALLS }
    ensures { IfOk result (λ app. app ≡ client calls number) }
{
    let chain = one(alloc, 0)?;
    Ok(Application {
        conn: 2 * number - 1,
        role: Role::Client(program(alloc, number, calls)?),
        heap: HEAP,
        receive: RECEIVE,
        ring: RING,
        weight: 1,
        chain,
        inbound: None,
        own: None,
    })
}

// The echo at the other end of the link of the client with this number.
fn echo(alloc: Global, number: u32) -> Application
    requires { number ≤ CLIENTS }
    ensures { result ≡ echo number }
{
    Application {
        conn: 2 * number,
        role: Role::Echo,
        heap: HEAP,
        receive: RECEIVE,
        ring: RING,
        weight: 1,
        chain: Sequence::new(alloc),
        inbound: None,
        own: None,
    }
}

// The program of the client with a number.
fn program(alloc: Global, number: u32, calls: u64) -> Result<Program, Memory>
    requires number { number ≤ CLIENTS }
    requires few { calls ≤ MAX_CALLS }
    ensures { IfOk result (λ lines. lines ≡ program calls number) }
{
    let mut lines = Sequence::new(alloc);
    for before in 0..calls {
        let addr = address(before + 1);
        lines.push(ProgramLine::Store {
            place: addr as u32,
            value: value(calls, number, before + 1),
        })?;
        lines.push(ProgramLine::Submit { method: 0, addr })?;
    }
    Ok(lines)
}

// The place of a call's message in the heap.
fn address(call: u64) -> u64
    requires { 1 ≤ call }
    ensures value { result ≡ address call }
    ensures small { result < 2 ^ 32 }
{
    2 + 2 * ((call - 1) % 6)
}

// The value that a call's message carries.
fn value(calls: u64, number: u32, call: u64) -> u64
    requires calls { calls ≤ MAX_CALLS }
    requires number { number ≤ CLIENTS }
    requires call { call ≤ MAX_CALLS }
    ensures { result ≡ value calls number call }
{
    (7 * call * call + 13 * u64::from(number) + 5 * calls) % 100
}
