//! The line of an event of a connection.

ghost use Rattle.std.specs.Prelude.{◌≡◌, ◌<◌, ◌++◌, OnOk, Some, length, slice_get};
ghost use Rattle.mrpc_table.specs.Valid.{IsValid};
ghost use Rattle.audit_text.specs.Lines.{audit_line};
ghost use Rattle.call_history.specs.declared.happening.Happening.{Happening as TheHappening};

use audit_text::append_record;
use conn_core::Conn;
use mrpc_table::{Bytes, Memory, Table};
use wire_encode::BackwardBuffer;

/// Appends the line of the event at an index of a connection's history, under the connection's table. A copy is encoded
/// into `encoding`, whose capacity is reused. The only error is `Memory`.
pub fn append_event(
    out: &mut Bytes,
    encoding: &mut BackwardBuffer,
    calls: &Conn<'_>,
    place: usize,
    table: &Table,
) -> Result<(), Memory>
    requires valid { IsValid table.now }
    requires same { calls.now.table ≡ table.now }
    requires there { place < length calls.now.happenings }
    ensures { (what : TheHappening) → slice_get calls.now.happenings place ≡ Some what
        → OnOk result (out.new ≡ out.old ++ audit_line table.now (record { conn = calls.now.conn; what = what })) }
{
    calls.is_connection();
    append_record(out, encoding, calls.number(), calls.history(), place, table)
}
