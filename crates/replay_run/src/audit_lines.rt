//! Writes the audit lines of a connection's events.

ghost use Rattle.std.specs.Prelude.{◌≡◌, ◌≢◌, Err, IfErr, OnErr, OnOk};
ghost use Rattle.std.specs.Io.KnownBytes.{Appends};
ghost use Rattle.mrpc_base.specs.Failures.{HasCause};
ghost use Rattle.mrpc_base.specs.Sinks.{HasAppendedPrefix};
ghost use Rattle.mrpc_table.specs.Valid.{IsValid};
ghost use Rattle.replay_run.specs.Kept.{AreEventsWritten, IsPrefixWritten, unwritten};

use crate::connection::RunConnection;
use crate::replay_error::ReplayError;
use connection_audit::append_event;
use mrpc_base::{Sink, write_all};
use mrpc_table::{Bytes, Memory, Table};
use std::alloc::Global;
use wire_encode::BackwardBuffer;

// Reusable buffers for a line and for the encoding of its copy.
#[derive(Drop)]
pub(crate) struct LineBuffers {
    line: Bytes,
    encoding: BackwardBuffer,
}

impl LineBuffers {
    // Empty buffers, which grow later.
    pub(crate) fn new(alloc: Global) -> Result<LineBuffers, Memory> {
        Ok(LineBuffers {
            line: Bytes::new(alloc),
            encoding: BackwardBuffer::new(alloc)?,
        })
    }
}

// Writes the lines of a connection's events since its last lines were written, one write per line. Returns early if
// there are none, as after most lines of a script, which store a word.
#[inline(always)]
pub(crate) fn write_events<K: Sink>(
    room: &mut LineBuffers,
    table: &Table,
    connection: &mut RunConnection<'_>,
    out: &mut K,
) -> Result<(), ReplayError>
    requires valid { IsValid table.now }
    requires same { connection.old.calls.table ≡ table.now }
    ensures told { OnOk result (AreEventsWritten connection.old connection.new) }
    ensures lines { OnOk result (Appends (K.written out.old) (K.written out.new) (unwritten table.now connection.old)) }
    ensures front { OnErr result (IsPrefixWritten (K.written out.old) (K.written out.new)
        (unwritten table.now connection.old)) }
    ensures not_wire { result ≢ Err ReplayError.Wire }
    ensures cause { HasCause (result ≡ Err ReplayError.Out) (K.failures out.old) (K.failures out.new) }
{
    let count = connection.calls.history().len();
    if connection.told >= count {
        connection.told = count;
        return Ok(());
    }
    write_new_events(room, table, connection, out)
}

// Like `write_events`, if there is an event. A write that fails ends the run, so the count of written events is updated once,
// at the end.
#[inline(never)]
fn write_new_events<K: Sink>(
    room: &mut LineBuffers,
    table: &Table,
    connection: &mut RunConnection<'_>,
    out: &mut K,
) -> Result<(), ReplayError>
    requires valid { IsValid table.now }
    requires same { connection.old.calls.table ≡ table.now }
    ensures told { OnOk result (AreEventsWritten connection.old connection.new) }
    ensures lines { OnOk result (Appends (K.written out.old) (K.written out.new) (unwritten table.now connection.old)) }
    ensures front { OnErr result (IsPrefixWritten (K.written out.old) (K.written out.new)
        (unwritten table.now connection.old)) }
    ensures not_wire { result ≢ Err ReplayError.Wire }
    ensures cause { HasCause (result ≡ Err ReplayError.Out) (K.failures out.old) (K.failures out.new) }
{
    let count = connection.calls.history().len();
    for place in connection.told..count {
        room.line.clear();
        append_event(
            &mut room.line,
            &mut room.encoding,
            &connection.calls,
            place,
            table,
        )?;
        write_line(out, room.line.as_slice())?;
    }
    connection.told = count;
    Ok(())
}

// Writes a line.
pub(crate) fn write_line<K: Sink>(out: &mut K, line: &[u8]) -> Result<(), ReplayError>
    ensures written { OnOk result (Appends (K.written out.old) (K.written out.new) line.now) }
    ensures front { OnErr result (HasAppendedPrefix (K.written out.old) (K.written out.new) line.now) }
    ensures reason { IfErr result (λ stop. stop ≡ ReplayError.Out) }
    ensures cause { HasCause (result ≡ Err ReplayError.Out) (K.failures out.old) (K.failures out.new) }
{
    if write_all(out, line) {
        Ok(())
    } else {
        Err(ReplayError::Out)
    }
}
