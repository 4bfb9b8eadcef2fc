//! Writes the lines of pending calls at the end.

ghost use Rattle.std.specs.Prelude.{◌≡◌, ◌≢◌, ◌<◌, ℕ, Err, IfOk, OnErr, OnOk, Some, length, map, slice_get};
ghost use Rattle.conn_core.specs.Connections.{conn_state};
ghost use Rattle.std.specs.Io.KnownBytes.{Appends};
ghost use Rattle.mrpc_base.specs.Failures.{HasCause};
ghost use Rattle.replay_run.specs.Kept.{IsPrefixWritten, open_connection_of};
ghost use Rattle.replay_run.specs.PendingLines.{all_stands_lines, stands_lines_on};
ghost use Rattle.connection_audit.specs.Pending.{pending_line};

use crate::audit_lines::write_line;
use crate::connection::{RunConnection, index_of_connection};
use crate::replay_error::ReplayError;
use conn_core::Conn;
use connection_audit::append_pending;
use mrpc_base::Sink;
use mrpc_table::{Bytes, Memory};
use replay_script::MAX_CONNECTIONS;
use std::alloc::Global;

// Writes the lines of all pending calls, by connection and number.
pub(crate) fn write_pending_calls<K: Sink>(
    alloc: Global,
    connections: &[RunConnection<'_>],
    out: &mut K,
) -> Result<(), ReplayError>
    ensures lines { OnOk result (Appends (K.written out.old) (K.written out.new)
        (all_stands_lines (map open_connection_of connections.now))) }
    ensures front { OnErr result (IsPrefixWritten (K.written out.old) (K.written out.new)
        (all_stands_lines (map open_connection_of connections.now))) }
    ensures not_wire { result ≢ Err ReplayError.Wire }
    ensures cause { HasCause (result ≡ Err ReplayError.Out) (K.failures out.old) (K.failures out.new) }
{
    for conn in 1..MAX_CONNECTIONS as u32 + 1 {
        if let Some(place) = index_of_connection(connections, conn) {
            write_pending_calls_of(alloc, &connections[place], out)?;
        }
    }
    Ok(())
}

// Writes the lines of a connection's pending calls.
fn write_pending_calls_of<K: Sink>(
    alloc: Global,
    connection: &RunConnection<'_>,
    out: &mut K,
) -> Result<(), ReplayError>
    ensures lines { OnOk result (Appends (K.written out.old) (K.written out.new)
        (stands_lines_on (open_connection_of connection.now))) }
    ensures front { OnErr result (IsPrefixWritten (K.written out.old) (K.written out.new)
        (stands_lines_on (open_connection_of connection.now))) }
    ensures not_wire { result ≢ Err ReplayError.Wire }
    ensures cause { HasCause (result ≡ Err ReplayError.Out) (K.failures out.old) (K.failures out.new) }
{
    let calls = &connection.calls;
    calls.is_connection();
    for place in 0..calls.chain().calls().len() as u32 {
        let line = line_of(alloc, calls, place)?;
        write_line(out, line.as_slice())?;
    }
    Ok(())
}

// The line of the pending call at an index, counted from 0 by ascending number.
fn line_of(alloc: Global, calls: &Conn<'_>, place: u32) -> Result<Bytes, Memory>
    requires { place < length calls.now.chain.row }
    ensures { (call : ℕ × ℕ) → slice_get calls.now.chain.row place ≡ Some call
        → IfOk result (λ line. line ≡ pending_line calls.now.conn (conn_state calls.now) call) }
{
    let mut line = Bytes::new(alloc);
    append_pending(&mut line, calls, place)?;
    Ok(line)
}
