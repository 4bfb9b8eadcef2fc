//! The encoding of a message: a tree as Protocol Buffers bytes.
//!
//! The format is that of the Protocol Buffers encoding guide: fields by ascending number, map entries by ascending key,
//! varints in their shortest form. `encoding` of `wire_base` defines the bytes. The buffer is filled from its end, so
//! that a message's length is known before its length prefix is written. It doubles when it is full, so that the time
//! is linear in the output. This crate depends on `mrpc_table` and `wire_base`. The layers above use one contract: the
//! output is the encoding of the tree.
#![tactic(auto)]

ghost use Rattle.std.specs.Prelude.{◌≡◌, ◌<◌, [], length, IfOk, OnOk, OnErr};
ghost use Rattle.mrpc_table.specs.Valid.{IsValid};
ghost use Rattle.mrpc_table.specs.Normal.{IsNormal};
ghost use Rattle.wire_base.specs.Encoding.{encoding, fields_bytes};
ghost use Rattle.mrpc_table.specs.Ascending.{AreAllFieldsAscending, AreFieldsAscending};
ghost use Rattle.mrpc_table.specs.Capped.{capped};

mod backward_buffer;
mod look_up;
mod size;
mod write;

use crate::size::message_len;
use crate::write::write_message;
pub use backward_buffer::BackwardBuffer;
use mrpc_table::{Bytes, Field, Memory, Table, Tree};
use std::alloc::Global;

/// The encoding of a normal tree of the message at index `msg` of the table.
///
/// The only error is `Memory`, when it is out of memory. Messages are written by recursion, which a normal tree keeps
/// to a depth of 32 calls.
pub fn encode(alloc: Global, tree: &Tree, table: &Table, msg: u32) -> Result<Bytes, Memory>
    requires valid { IsValid table.now }
    requires known { msg < length table.now.messages }
    requires normal { IsNormal table.now msg tree.now }
    ensures { IfOk result (λ bytes. bytes ≡ encoding table.now msg tree.now) }
{
    encoded(alloc, tree, table, table.fields(msg))
}

/// Like `encode`, but overwrites `out` and reuses its capacity. A caller with many trees allocates only for a tree that
/// is longer than all before. If it is out of memory, `out` is empty.
pub fn encode_into(
    out: &mut BackwardBuffer,
    tree: &Tree,
    table: &Table,
    msg: u32,
) -> Result<(), Memory>
    requires valid { IsValid table.now }
    requires known { msg < length table.now.messages }
    requires normal { IsNormal table.now msg tree.now }
    ensures written { OnOk result (out.new ≡ encoding table.now msg tree.now) }
    ensures memory { OnErr result (out.new ≡ []) }
{
    encoded_into(out, tree, table, table.fields(msg))
}

/// The length in bytes of the encoding of a normal tree of the message at index `msg` of the table, or 2^64 - 1 if it
/// is larger. It allocates nothing.
pub fn encoded_len(tree: &Tree, table: &Table, msg: u32) -> u64
    requires valid { IsValid table.now }
    requires known { msg < length table.now.messages }
    requires normal { IsNormal table.now msg tree.now }
    ensures { result ≡ capped (length (encoding table.now msg tree.now)) }
{
    message_len(tree, table, table.fields(msg))
}

// The encoding of any tree as a message with these fields.
fn encoded(alloc: Global, tree: &Tree, table: &Table, fields: &[Field]) -> Result<Bytes, Memory>
    requires all { AreAllFieldsAscending table.now }
    requires ascend { AreFieldsAscending fields.now }
    ensures { IfOk result (λ bytes. bytes ≡ fields_bytes table.now fields.now tree.now) }
{
    let mut out = BackwardBuffer::new(alloc)?;
    write_message(&mut out, tree, table, fields)?;
    Ok(out.into_bytes())
}

// Like `encoded`, but overwrites `out`.
fn encoded_into(
    out: &mut BackwardBuffer,
    tree: &Tree,
    table: &Table,
    fields: &[Field],
) -> Result<(), Memory>
    requires all { AreAllFieldsAscending table.now }
    requires ascend { AreFieldsAscending fields.now }
    ensures written { OnOk result (out.new ≡ fields_bytes table.now fields.now tree.now) }
    ensures memory { OnErr result (out.new ≡ []) }
{
    out.clear();
    let written = write_message(out, tree, table, fields);
    if written.is_err() {
        out.clear();
    }
    written
}
