//! Runs the lines of a script, one after another.

ghost use Rattle.std.specs.Prelude.{◌≡◌, ◌≢◌, ◌<◌, ◌≤◌, ◌⊎◌, ◌∷◌, ◌++◌, ◌^◌, [], ℕ, Err, IfErr, IsTrue, OnErr, OnOk, length, map};
ghost use Rattle.std.specs.Io.KnownBytes.{Appends};
ghost use Rattle.mrpc_base.specs.Failures.{HasCause, HasRisen};
ghost use Rattle.mrpc_base.specs.Quota.{drawn_in};
ghost use Rattle.mrpc_base.specs.declared.tickets.TheConstants.{WINDOWS};
ghost use Rattle.mrpc_table.specs.Valid.{IsValid};
ghost use Rattle.mrpc_table.specs.declared.limits.TheConstants.{MAX_HEAP, MIN_HEAP};
ghost use Rattle.replay_script.specs.Lines.{IsScript, conn_of};
ghost use Rattle.replay_run.specs.Kept.{HasRunSomeLines, IsRunBefore, HasBroken, IsBrokenOn, IsBrokenAndWritten, IsDoneOn, IsDoneAndWritten, HasCounted, HasOpened, HaveCounted, IsBetweenLines, KnowsTenants, MayRun, OnRan, IsStoppedOn, IsStoppedAt, IsPrefixWritten, open_connection_of};
ghost use Rattle.replay_run.specs.Running.{IsBrokenRun, IsFullRun, IsStoppedRun};
ghost use Rattle.replay_run.specs.PendingLines.{all_stands_lines};

use crate::audit_lines::{LineBuffers, write_events};
use crate::connection::{RunConnection, open, open_index, queue_race, store};
use crate::operations::{advance_clock, operate_by};
use crate::pending_lines::write_pending_calls;
use crate::replay_error::ReplayError;
use crate::run_law::run_follows_script;
use crate::submission::submit;
use crate::turns_and_sends::{drain, send, turn};
use mrpc_base::{PlainTickets, Sink, Tickets, WINDOWS};
use replay_script::{Script, ScriptLine};
use std::alloc::Global;

// No script has this many lines, since its text has at most 16 MiB.
const LINE_LIMIT: usize = 1 << 25;

// The state of a run between two lines: the connections, in the order in which they were opened, the quotas of all, and
// buffers for audit lines.
#[derive(Drop)]
struct RunState<'t> {
    connections: Vec<RunConnection<'t>>,
    tickets: PlainTickets,
    room: LineBuffers,
}

/// Runs a script. After each line it writes the audit lines of the resulting events, and the frames of the calls that
/// are sent. At the end it writes the lines of pending calls.
///
/// # Errors
///
/// [`ReplayError::Wire`] means that a frame couldn't be written. The pending calls of its connection are then refused, later
/// lines of the script do nothing, and the lines of all pending calls are written. [`ReplayError::Out`] means that the audit
/// couldn't be written, and [`ReplayError::Memory`] means out of memory; nothing more is written after either.
pub fn run_script<K: Sink, W: Sink>(
    alloc: Global,
    script: &Script,
    out: &mut K,
    wire: &mut W,
) -> Result<(), ReplayError>
    requires script { IsScript script.now }
    ensures done { OnOk result (IsFullRun script.now (K.written out.old) (K.written out.new)
        (W.written wire.old) (W.written wire.new)) }
    ensures wire_failed { result ≡ Err ReplayError.Wire → IsBrokenRun script.now (K.written out.old) (K.written out.new)
        (W.written wire.old) (W.written wire.new) }
    ensures stopped { (result ≡ Err ReplayError.Memory) ⊎ (result ≡ Err ReplayError.Out)
        → IsStoppedRun script.now (K.written out.old) (K.written out.new) (W.written wire.old) (W.written wire.new) }
    ensures out_cause { HasCause (result ≡ Err ReplayError.Out) (K.failures out.old) (K.failures out.new) }
    // After a send that failed, writing the audit can still fail or run out of memory.
    ensures wire_rose { result ≡ Err ReplayError.Wire → HasRisen (W.failures wire.old) (W.failures wire.new) }
    ensures wire_same { OnOk result (W.failures wire.new ≡ W.failures wire.old) }
    ensures wire_never_falls { W.failures wire.old ≤ W.failures wire.new }
{
    run_follows_script();
    if script.lines.as_slice().len() >= LINE_LIMIT {
        return Err(ReplayError::Memory);
    }
    let tenants = script.declared.tenants().len() as u32;
    let Ok(tickets) = PlainTickets::new(alloc, tenants) else {
        return Err(ReplayError::Memory);
    };
    let Ok(room) = LineBuffers::new(alloc) else {
        return Err(ReplayError::Memory);
    };
    let mut run = RunState {
        connections: Vec::new(alloc),
        tickets,
        room,
    };
    match run_lines(alloc, script, &mut run, out, wire) {
        Ok(()) => finish(alloc, tenants, &mut run, out),
        Err(ReplayError::Wire) => {
            finish(alloc, tenants, &mut run, out)?;
            Err(ReplayError::Wire)
        }
        Err(stop) => Err(stop),
    }
}

// Writes the lines of the pending calls, if all quotas know their tickets.
fn finish<K: Sink>(
    alloc: Global,
    tenants: u32,
    run: &mut RunState<'_>,
    out: &mut K,
) -> Result<(), ReplayError>
    requires tenants { run.old.tickets.tenants ≡ tenants }
    ensures lines { OnOk result (Appends (K.written out.old) (K.written out.new)
        (all_stands_lines (map open_connection_of run.old.connections.items))) }
    ensures counted { OnOk result (HaveCounted tenants run.old.tickets) }
    ensures front { OnErr result (IsPrefixWritten (K.written out.old) (K.written out.new)
        (all_stands_lines (map open_connection_of run.old.connections.items))) }
    ensures not_wire { result ≢ Err ReplayError.Wire }
    ensures cause { HasCause (result ≡ Err ReplayError.Out) (K.failures out.old) (K.failures out.new) }
{
    for tenant in 0..tenants {
        if !has_counted(&mut run.tickets, tenant) {
            return Err(ReplayError::Memory);
        }
    }
    write_pending_calls(alloc, &run.connections, out)
}

// Returns true only if the tickets of a tenant were counted in each window. A quota reports how many were drawn when
// it draws one more; no draw follows this.
fn has_counted(tickets: &mut PlainTickets, tenant: u32) -> bool
    requires { tenant < tickets.old.tenants }
    ensures counted { IsTrue result → HasCounted tickets.old tenant }
    ensures others { (other window : ℕ) → other < tickets.old.tenants → window < WINDOWS → other ≢ tenant
        → drawn_in tickets.new other window ≡ drawn_in tickets.old other window }
    ensures tenants { tickets.new.tenants ≡ tickets.old.tenants }
{
    for window in 0..WINDOWS {
        if tickets.draw(tenant, window) == u64::MAX {
            return false;
        }
    }
    true
}

// Runs the lines of a script in order, up to a send that fails.
fn run_lines<'t, K: Sink, W: Sink>(
    alloc: Global,
    script: &'t Script,
    run: &mut RunState<'t>,
    out: &mut K,
    wire: &mut W,
) -> Result<(), ReplayError>
    requires script { IsScript script.now }
    requires few { length script.now.lines < 2 ^ 25 }
    requires none { run.old.connections.items ≡ [] }
    requires tenants { run.old.tickets.tenants ≡ length script.now.declared.tenants }
    requires undrawn { (tenant window : ℕ) → drawn_in run.old.tickets tenant window ≡ 0 }
    ensures ran { OnRan result
        (HasRunSomeLines script.now script.now.lines run.new.connections.items run.new.tickets (K.written out.old)
        (K.written out.new) (W.written wire.old) (W.written wire.new))
        (HasBroken script.now run.new.connections.items run.new.tickets (K.written out.old) (K.written out.new)
        (W.written wire.old) (W.written wire.new))
        (IsStoppedRun script.now (K.written out.old) (K.written out.new) (W.written wire.old) (W.written wire.new))
        (IsStoppedRun script.now (K.written out.old) (K.written out.new) (W.written wire.old) (W.written wire.new)) }
    ensures tenants { run.new.tickets.tenants ≡ run.old.tickets.tenants }
    ensures out_cause { HasCause (result ≡ Err ReplayError.Out) (K.failures out.old) (K.failures out.new) }
    ensures wire_rose { result ≡ Err ReplayError.Wire → HasRisen (W.failures wire.old) (W.failures wire.new) }
    ensures wire_same { OnOk result (W.failures wire.new ≡ W.failures wire.old) }
    ensures wire_never_falls { W.failures wire.old ≤ W.failures wire.new }
{
    run_follows_script();
    for line in script.lines.as_slice() {
        run_line(alloc, script, line, run, out, wire)?;
    }
    Ok(())
}

// Runs a line of a script.
fn run_line<'t, K: Sink, W: Sink>(
    alloc: Global,
    script: &'t Script,
    line: &ScriptLine,
    run: &mut RunState<'t>,
    out: &mut K,
    wire: &mut W,
) -> Result<(), ReplayError>
    requires script { IsScript script.now }
    requires few { length script.now.lines < 2 ^ 25 }
    requires before { IsRunBefore script.now line.now run.old.connections.items run.old.tickets (K.written out.old)
        (W.written wire.old) }
    ensures ran { (b : IsRunBefore script.now line.now run.old.connections.items run.old.tickets (K.written out.old)
        (W.written wire.old)) → OnRan result
        (HasRunSomeLines script.now (b.lines ++ line.now ∷ []) run.new.connections.items run.new.tickets b.out
        (K.written out.new) b.wire (W.written wire.new))
        (HasBroken script.now run.new.connections.items run.new.tickets b.out (K.written out.new) b.wire
        (W.written wire.new))
        (IsStoppedRun script.now b.out (K.written out.new) b.wire (W.written wire.new))
        (IsStoppedRun script.now b.out (K.written out.new) b.wire (W.written wire.new)) }
    ensures tenants { run.new.tickets.tenants ≡ run.old.tickets.tenants }
    ensures out_cause { HasCause (result ≡ Err ReplayError.Out) (K.failures out.old) (K.failures out.new) }
    ensures wire_rose { result ≡ Err ReplayError.Wire → HasRisen (W.failures wire.old) (W.failures wire.new) }
    ensures wire_same { OnOk result (W.failures wire.new ≡ W.failures wire.old) }
    ensures wire_never_falls { W.failures wire.old ≤ W.failures wire.new }
{
    run_follows_script();
    if let ScriptLine::Conn { conn, words } = line {
        return open_one(alloc, script, *conn, *words, &mut run.connections);
    }
    let place = open_index(&run.connections, conn_of(line));
    run_and_write(
        alloc,
        script,
        line,
        &mut run.room,
        &mut run.connections[place],
        &mut run.tickets,
        out,
        wire,
    )
}

// Opens a connection of a script. (A function of its own, since a connection takes many bytes of stack.)
#[inline(never)]
fn open_one<'t>(
    alloc: Global,
    script: &'t Script,
    conn: u32,
    words: u32,
    connections: &mut Vec<RunConnection<'t>>,
) -> Result<(), ReplayError>
    requires script { IsScript script.now }
    requires least_heap { MIN_HEAP ≤ words }
    requires greatest_heap { words ≤ MAX_HEAP }
    ensures opened { OnOk result (HasOpened script.now conn words connections.old.items connections.new.items) }
    ensures memory { IfErr result (λ stop. stop ≡ ReplayError.Memory) }
{
    let connection = open(alloc, &script.table, script.loads, conn, words)?;
    connections.push(connection)?;
    Ok(())
}

// The number of a line's connection.
fn conn_of(line: &ScriptLine) -> u32
    ensures { result ≡ conn_of line.now }
{
    match line {
        ScriptLine::Conn { conn, .. }
        | ScriptLine::Store { conn, .. }
        | ScriptLine::Race { conn, .. }
        | ScriptLine::Submit { conn, .. }
        | ScriptLine::Attach { conn, .. }
        | ScriptLine::Detach { conn, .. }
        | ScriptLine::Upgrade { conn, .. }
        | ScriptLine::Moment { conn, .. }
        | ScriptLine::Turn { conn, .. }
        | ScriptLine::Send { conn }
        | ScriptLine::Drain { conn } => *conn,
    }
}

// Runs a line of an open connection, and writes the audit lines of its events.
fn run_and_write<K: Sink, W: Sink>(
    alloc: Global,
    script: &Script,
    line: &ScriptLine,
    room: &mut LineBuffers,
    connection: &mut RunConnection<'_>,
    tickets: &mut PlainTickets,
    out: &mut K,
    wire: &mut W,
) -> Result<(), ReplayError>
    requires valid { IsValid script.now.table }
    requires on { conn_of line.now ≡ connection.old.calls.conn }
    requires ready { IsBetweenLines script.now connection.old }
    requires may { MayRun script.now line.now connection.old }
    requires known { KnowsTenants tickets.old connection.old.calls }
    ensures ran { OnRan result
        (IsDoneAndWritten script.now line.now connection.old connection.new tickets.old tickets.new (K.written out.old)
        (K.written out.new) (W.written wire.old) (W.written wire.new))
        (IsBrokenAndWritten script.now line.now connection.old connection.new tickets.old tickets.new
        (K.written out.old)
        (K.written out.new) (W.written wire.old) (W.written wire.new))
        (IsStoppedAt script.now line.now connection.old (K.written out.old) (K.written out.new) (W.written wire.old)
        (W.written wire.new))
        (IsStoppedAt script.now line.now connection.old (K.written out.old) (K.written out.new) (W.written wire.old)
        (W.written wire.new)) }
    ensures tenants { tickets.new.tenants ≡ tickets.old.tenants }
    ensures out_cause { HasCause (result ≡ Err ReplayError.Out) (K.failures out.old) (K.failures out.new) }
    ensures wire_rose { result ≡ Err ReplayError.Wire → HasRisen (W.failures wire.old) (W.failures wire.new) }
    ensures wire_same { OnOk result (W.failures wire.new ≡ W.failures wire.old) }
    ensures wire_never_falls { W.failures wire.old ≤ W.failures wire.new }
{
    match run_action(alloc, script, line, connection, tickets, wire) {
        Ok(()) => {
            connection.calls.is_connection();
            write_events(room, &script.table, connection, out)
        }
        Err(ReplayError::Wire) => {
            write_events(room, &script.table, connection, out)?;
            Err(ReplayError::Wire)
        }
        Err(stop) => Err(stop),
    }
}

// Runs a line of an open connection.
fn run_action<W: Sink>(
    alloc: Global,
    script: &Script,
    line: &ScriptLine,
    connection: &mut RunConnection<'_>,
    tickets: &mut PlainTickets,
    wire: &mut W,
) -> Result<(), ReplayError>
    requires on { conn_of line.now ≡ connection.old.calls.conn }
    requires ready { IsBetweenLines script.now connection.old }
    requires may { MayRun script.now line.now connection.old }
    requires known { KnowsTenants tickets.old connection.old.calls }
    ensures ran { OnRan result
        (IsDoneOn script.now line.now connection.old connection.new tickets.old tickets.new (W.written wire.old)
        (W.written wire.new))
        (IsBrokenOn script.now line.now connection.old connection.new tickets.old tickets.new (W.written wire.old)
        (W.written wire.new))
        (IsStoppedOn script.now line.now connection.old (W.written wire.old) (W.written wire.new))
        ⊥ }
    ensures tenants { tickets.new.tenants ≡ tickets.old.tenants }
    ensures cause { HasCause (result ≡ Err ReplayError.Wire) (W.failures wire.old) (W.failures wire.new) }
{
    match line {
        ScriptLine::Conn { .. } => unreachable!(),
        ScriptLine::Store { place, value, .. } => store(&mut connection.heap, *place, *value),
        ScriptLine::Race {
            load,
            place,
            value,
            ..
        } => queue_race(&mut connection.heap, *load, *place, *value),
        ScriptLine::Submit {
            method,
            number,
            addr,
            ..
        } => submit(alloc, connection, *method, *number, *addr),
        ScriptLine::Attach { .. } | ScriptLine::Detach { .. } | ScriptLine::Upgrade { .. } => {
            operate_by(alloc, script, line, connection)
        }
        ScriptLine::Moment { ms, .. } => advance_clock(connection, *ms),
        ScriptLine::Turn { at, .. } => {
            turn(connection, *at, tickets);
            Ok(())
        }
        ScriptLine::Send { .. } => send(connection, wire),
        ScriptLine::Drain { .. } => drain(connection, tickets, wire),
    }
}
