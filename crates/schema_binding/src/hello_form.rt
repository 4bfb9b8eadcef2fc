//! The hello: the first frame of each side of a connection.

ghost use Rattle.std.specs.Prelude.{◌≡◌, ℕ, List, length, IfOk, IfErr, MatchResult};
ghost use Rattle.mrpc_table.specs.Names.{IsFullName};
ghost use Rattle.mrpc_table.specs.Valid.{IsValid};
ghost use Rattle.mrpc_table.specs.declared.table.Table.{Table as TheTable};
ghost use Rattle.frame_transport.specs.Bytes.{frame_bytes};
ghost use Rattle.schema_binding.specs.Hello.{hello_payload, IsHello, IsHelloFaultOf, IsTextOf, IsTableTextFaultOf};
ghost use Rattle.schema_binding.specs.declared.fault.HelloFault.TheVariants.{Memory as NoMemory};

use crate::fault::HelloFault;
use frame_transport::hello_frame;
use mrpc_table::{Bytes, Memory, Name, Table, is_full_name, split_once};
use std::alloc::Global;
use table_text::{TableFault, read_table, table_fault_is_unique, table_text};

/// The frame of a hello (this project's own), of kind 3 and version 2, from the sender's connection. Its payload is the
/// service's full name, a line feed and the canonical text of the table. It has at most 255 + 1 + 65536 bytes, less
/// than the 262144 of the largest payload.
pub fn hello(alloc: Global, conn: u32, table: &Table, service: &Name) -> Result<Bytes, Memory>
    requires service { IsFullName service.now }
    requires valid { IsValid table.now }
    ensures { IfOk result (λ bytes. bytes ≡ frame_bytes 3 2 0 conn 0 (hello_payload service.now table.now)) }
{
    let payload = payload(alloc, table, service)?;
    hello_frame(alloc, conn, payload.as_slice())
}

fn payload(alloc: Global, table: &Table, service: &Name) -> Result<Bytes, Memory>
    requires service { IsFullName service.now }
    requires valid { IsValid table.now }
    ensures { IfOk result (λ bytes. bytes ≡ hello_payload service.now table.now) }
{
    let text = table_text(alloc, table)?;
    let mut payload = Bytes::with_room(alloc, service.len() + 1 + text.len())?;
    payload.append(service.as_slice())?;
    payload.append(b"\n")?;
    payload.append(text.as_slice())?;
    Ok(payload)
}

/// Reads the service and the table from the payload of a hello, of version 1 or 2. A payload that isn't a full name, a
/// line feed and the canonical text of a table is rejected with its first line at fault; the service is line 1.
pub fn on_hello(alloc: Global, payload: &[u8]) -> Result<(Name, Table), HelloFault>
    // The service and the table are those of the payload.
    ensures read { IfOk result (λ said. IsHello payload.now said.0 said.1) }
    // The payload of a hello gives its service and its table, unless it is out of memory.
    ensures only { (service : List ℕ) (table : TheTable) → IsHello payload.now service table
        → MatchResult result (λ said. said ≡ (service, table)) (λ fault. fault ≡ NoMemory) }
    // The fault is the first line at fault.
    ensures fault { IfErr result (IsHelloFaultOf payload.now) }
{
    let Some((service, text)) = split_once(payload, b'\n') else {
        return Err(HelloFault::Bad { line: 1 });
    };
    if !is_full_name(service) {
        return Err(HelloFault::Bad { line: 1 });
    }
    let table = table_after_service(alloc, text)?;
    Ok((Name::from_slice(alloc, service)?, table))
}

// The table of the text after the service.
fn table_after_service(alloc: Global, text: &[u8]) -> Result<Table, HelloFault>
    ensures read { IfOk result (IsTextOf text.now) }
    ensures only { (table : TheTable) → IsTextOf text.now table
        → MatchResult result (λ read. read ≡ table) (λ fault. fault ≡ NoMemory) }
    ensures fault { IfErr result (IsTableTextFaultOf text.now) }
{
    table_fault_is_unique();
    match read_table(alloc, text) {
        Ok(table) => Ok(table),
        Err(TableFault::At { line, .. }) => Err(HelloFault::Bad { line: line + 1 }),
        Err(TableFault::Memory) => Err(HelloFault::Memory),
    }
}
