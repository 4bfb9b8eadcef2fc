//! Schemas.

ghost use Rattle.std.specs.Prelude.{IfOk, IfSome};
ghost use Rattle.mrpc_table.specs.Valid.{IsValid};
ghost use Rattle.scenario.specs.Applications.{IsTableIn};

use mrpc_table::{Memory, Table};
use proto_grammar::ProtoFault;
use proto_schema::{alone_is_ordered, read_proto};
use schema_resolve::{ResolveFault, resolve};
use std::alloc::Global;

// One byte more than the longest text that is read. Such a text fits no machine.
const TOO_LONG: usize = 1 << 62;

/// The table of a proto text; `None` if the text has a fault.
pub fn table_in(alloc: Global, text: &[u8]) -> Result<Option<Table>, Memory>
    // A table is the one that the text defines; `None` if it defines none.
    ensures table { IfOk result (λ t. IsTableIn text.now t) }
    // It is valid.
    ensures valid { IfOk result (λ t. IfSome t IsValid) }
{
    alone_is_ordered();
    if text.len() >= TOO_LONG {
        return Err(Memory);
    }
    let file = match read_proto(alloc, text) {
        Ok(file) => file,
        Err(ProtoFault::At { .. }) => return Ok(None),
        Err(ProtoFault::Memory) => return Err(Memory),
    };
    match resolve(alloc, &file) {
        Ok(table) => Ok(Some(table)),
        Err(ResolveFault::At { .. }) => Ok(None),
        Err(ResolveFault::Memory) => Err(Memory),
    }
}
