//! Gives the links of a run back to its fabric.

ghost use Rattle.std.specs.Prelude.{◌≡◌, ◌≤◌, ◌+◌, ◌++◌, IsPermutation, length, map};
ghost use Rattle.run_driver.specs.Running.{numbered_link};

use mrpc_base::Fabric;
use service::ServedConn;
use std::mem;

// Gives the links of connections back, each with its connection. Everything else that the connections own is left to
// the end of the process. A long run has a million objects, and dropping each of them takes a tenth of its time.
// Doesn't allocate.
pub(crate) fn return_links<F: Fabric>(fabric: &mut F, conns: Vec<ServedConn<'_, F::L>>)
    requires { length conns.items ≤ F.away fabric.old }
    ensures back { IsPermutation (F.back fabric.new) (map numbered_link conns.entry.items ++ F.back fabric.old) }
    ensures away { F.away fabric.new + length conns.entry.items ≡ F.away fabric.old }
    ensures failures { F.failures fabric.new ≡ F.failures fabric.old }
{
    let mut left = conns;
    while let Some(one) = left.pop() {
        let ServedConn {
            conn,
            link,
            outcome,
        } = one;
        mem::forget(outcome);
        fabric.keep(conn, link);
    }
}
