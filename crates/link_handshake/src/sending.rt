//! Sending a connection's hello.

ghost use Rattle.std.specs.Prelude.{◌≡◌, ◌≢◌, [], ◌∷◌, ◌++◌, true, false};
ghost use Rattle.mrpc_base.specs.Failures.{HasCause};
ghost use Rattle.mrpc_table.specs.Names.{IsFullName};
ghost use Rattle.mrpc_table.specs.Valid.{IsValid};
ghost use Rattle.link_handshake.specs.Handshake.{hello_of};

use mrpc_base::{Handed, Link};
use mrpc_table::{Memory, Name, Table};
use schema_binding::hello;
use std::alloc::Global;

/// Sends the hello of a connection, with the service and the connection's own table. Returns whether the hello
/// was sent; if not, the link failed. The only error is `Memory`.
pub fn send_hello<L: Link>(
    alloc: Global,
    conn: u32,
    table: &Table,
    service: &Name,
    link: &mut L,
) -> Result<bool, Memory>
    requires service { IsFullName service.now }
    requires valid { IsValid table.now }

    ensures said { result ≡ Ok true
        → L.handed link.new ≡ L.handed link.old ++ hello_of conn service.now table.now ∷ [] }
    ensures kept { result ≢ Ok true → L.handed link.new ≡ L.handed link.old }
    ensures cause { HasCause (result ≡ Ok false) (L.failures link.old) (L.failures link.new) }

    ensures same_given { L.given link.new ≡ L.given link.old }
    ensures same_ended { L.ended link.new ≡ L.ended link.old }
    ensures same_link { (first : L) → L.since first link.old → L.since first link.new }
{
    let frame = hello(alloc, conn, table, service)?;
    match link.send(frame.as_slice()) {
        Handed::Done => Ok(true),
        Handed::Failed => Ok(false),
        Handed::Memory => Err(Memory),
    }
}
