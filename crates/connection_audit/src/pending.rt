//! The line of a pending call.

ghost use Rattle.std.specs.Prelude.{◌≡◌, ◌<◌, ◌++◌, ℕ, OnOk, Some, length, slice_get};
ghost use Rattle.conn_core.specs.Connections.{conn_state};
ghost use Rattle.connection_audit.specs.Pending.{holding, pending_line};

use audit_text::{Holding, append_stands_line};
use conn_core::Conn;
use mrpc_table::{Bytes, Memory};

// The name of the transport queue.
const TRANSPORT: &[u8] = b"-";

/// Appends the line of the pending call at an index, counted from 0 by ascending number of the call. The only error is
/// `Memory`.
pub fn append_pending(out: &mut Bytes, calls: &Conn<'_>, place: u32) -> Result<(), Memory>
    requires { place < length calls.now.chain.row }
    ensures { (call : ℕ × ℕ) → slice_get calls.now.chain.row place ≡ Some call
        → OnOk result (out.new ≡ out.old ++ pending_line calls.now.conn (conn_state calls.now) call) }
{
    calls.is_connection();
    let Some((seq, position)) = calls.chain().standing(place) else {
        unreachable!()
    };
    if position < calls.chain().engines() {
        let name = calls.chain().engine(position).name().as_slice();
        let held = holding(calls, place, position);
        return append_stands_line(out, calls.number(), seq, position, name, held);
    }
    append_stands_line(out, calls.number(), seq, position, TRANSPORT, None)
}

// Returns the level and cost at which the engine at this position holds the call at an index; `None` unless the call is
// the first at its position and held.
fn holding(calls: &Conn<'_>, place: u32, position: u32) -> Option<Holding>
    requires position { position < length calls.now.chain.engines }
    ensures { (seq : ℕ) → slice_get calls.now.chain.row place ≡ Some (seq, position)
        → result ≡ holding (conn_state calls.now) (seq, position) }
{
    calls.is_connection();
    let chain = calls.chain();
    // Calls with smaller numbers are at this position or a later one, and all calls at later positions have smaller
    // numbers. So the call is the first here exactly if `place` calls are at later positions.
    if place != chain.cut(position + 1) {
        return None;
    }
    let Some((level, cost)) = chain.held(position) else {
        return None;
    };
    Some(Holding { level, cost })
}
