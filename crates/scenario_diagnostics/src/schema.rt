//! Schemas that have no table.

use crate::Phrase;
use crate::site::{DiagnosedPart, say_at};
use mrpc_table::{Bytes, Memory};
use proto_grammar::ProtoFault;
use proto_schema::{alone_is_ordered, read_proto};
use scenario_toml::text_or_empty;
use schema_resolve::{ResolveFault, resolve};
use std::alloc::Global;
use toml::Table;

// One byte more than the longest schema that is read again. No scenario has a text this long.
const TOO_LONG: usize = 0x1000_0000;

// The first fault of a schema: its line, and the word of its reason.
#[derive(Clone, Copy)]
struct SchemaFault {
    line: u64,
    word: &'static str,
}

const MORE: &str = ", of which \"mrpc check\" says more where the schema is a file";

// Appends on which line the schema of an entry is at fault.
pub(crate) fn say_schema(alloc: Global, out: &mut Bytes, entry: &Table) -> DiagnosedPart<'static> {
    match fault_of(alloc, text_or_empty(entry, "schema"))? {
        None => Ok(None),
        Some(fault) => say_at(
            out,
            "schema",
            &[
                Phrase::Text(": line "),
                Phrase::Number(fault.line),
                Phrase::Text(" of its schema has the fault "),
                Phrase::Text(fault.word),
                Phrase::Text(MORE),
            ],
        ),
    }
}

// The first fault of a schema, if it has one.
fn fault_of(alloc: Global, text: &[u8]) -> Result<Option<SchemaFault>, Memory> {
    alone_is_ordered();
    if text.len() >= TOO_LONG {
        return Ok(None);
    }
    match read_proto(alloc, text) {
        Ok(file) => {
            let fault = resolve(alloc, &file).err();
            unresolved(fault)
        }
        Err(ProtoFault::At { reason, line, .. }) => Ok(Some(SchemaFault {
            line,
            word: reason.word(),
        })),
        Err(ProtoFault::Memory) => Err(Memory),
    }
}

fn unresolved(fault: Option<ResolveFault>) -> Result<Option<SchemaFault>, Memory> {
    match fault {
        None => Ok(None),
        Some(ResolveFault::At { reason, line, .. }) => Ok(Some(SchemaFault {
            line,
            word: reason.word(),
        })),
        Some(ResolveFault::Memory) => Err(Memory),
    }
}
