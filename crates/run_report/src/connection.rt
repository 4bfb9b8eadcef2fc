//! The lines for events on a connection, and for its pending calls.

ghost use Rattle.std.specs.Prelude.{◌≡◌, ◌++◌, OnOk};
ghost use Rattle.mrpc_table.specs.Valid.{IsValid};
ghost use Rattle.run_report.specs.ConnectionReport.{history_lines, pending_call_lines};

use conn_core::Conn;
use connection_audit::{append_event, append_pending};
use mrpc_table::{Bytes, Memory, Table};
use std::alloc::Global;
use wire_encode::BackwardBuffer;

/// Appends the audit of all events on a connection, by its own table. The only error is `Memory`.
pub fn append_history(
    alloc: Global,
    out: &mut Bytes,
    calls: &Conn<'_>,
    table: &Table,
) -> Result<(), Memory>
    requires valid { IsValid table.now }
    requires same { calls.now.table ≡ table.now }
    ensures { OnOk result (out.new ≡ out.old ++ history_lines calls.now) }
{
    let mut encoding = BackwardBuffer::new(alloc)?;
    for place in 0..calls.history().len() {
        append_event(out, &mut encoding, calls, place, table)?;
    }
    Ok(())
}

/// Appends the lines of the pending calls of a connection, by ascending number. The only error is `Memory`.
pub fn append_pending_calls(out: &mut Bytes, calls: &Conn<'_>) -> Result<(), Memory>
    ensures { OnOk result (out.new ≡ out.old ++ pending_call_lines calls.now) }
{
    calls.is_connection();
    for place in 0..calls.chain().calls().len() as u32 {
        append_pending(out, calls, place)?;
    }
    Ok(())
}
