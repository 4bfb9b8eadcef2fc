//! The decoder: the message that Protocol Buffers bytes mean, or their first fault.
//!
//! The format is that of the Protocol Buffers encoding guide. If the records come in the order of the fields, as
//! encoders write them, they are read straight into the tree. Otherwise they are read in one pass into the contents of
//! their records, in order. Then each field gets its value from its own records, and the tree its fields by ascending
//! number. Both ways take time linear in the bytes, except for sorting records and the entries of maps.
//! `specs/Meaning.antt` defines what bytes mean, rule by rule, and `specs/Faults.antt` the first fault.
//!
//! A [`TreePool`] is a pool of vectors from trees that are no longer needed. It takes trees back, and gives their emptied
//! vectors to code that builds other trees. [`decode_with`] uses it for records that come in order.
//!
//! This crate depends on `mrpc_table`, whose trees these are, and on `wire_base`. The layers above use two contracts.
//! The result of decoding is the meaning, or the first fault exactly if there is no meaning. A vector from the pool is
//! empty, a run has the requested bytes, and no more is ever kept than `specs/TreePool.antt` allows, whatever was taken
//! back.
#![tactic(auto)]

mod fault;
mod gather;
mod laws;
mod merge;
mod number;
mod oneof;
mod ordered;
mod read;
mod tree_pool;

ghost use Rattle.std.specs.Prelude.{◌≡◌, ◌-◌, ◌<◌, ◌≤◌, length, IfOk, IfErr, MatchResult};
ghost use Rattle.mrpc_table.specs.Valid.{IsValid};
ghost use Rattle.mrpc_table.specs.Normal.{IsNormal};
ghost use Rattle.mrpc_table.specs.Node.{Node};
ghost use Rattle.mrpc_table.specs.Ascending.{AreAllFieldsAscending};
ghost use Rattle.mrpc_table.specs.declared.limits.TheConstants.{MAX_DEPTH};
ghost use Rattle.wire_decode.specs.Means.{Means};
ghost use Rattle.wire_decode.specs.MergedMessage.{IsMergedMessage};
ghost use Rattle.wire_decode.specs.Faults.{IsFirstDecodeFault, OnDecodeFault};
ghost use Rattle.wire_decode.specs.FaultWalk.{IsFaultReached};
ghost use Rattle.mrpc_table.specs.Normal.{fields_of as fields_in};

use crate::laws::merging_is_unique;
use crate::merge::merged;
use crate::ordered::ordered_message;
use crate::read::read_message;
pub use fault::{DecodeFault, DecodeReason};
pub use laws::{
    decode_fault_is_unique, meaning_is_normal, meaning_is_unique, meaning_of_encoding,
    meaning_of_joined_strings, meaning_or_fault, rules_and_reader_agree,
};
use mrpc_table::{MAX_DEPTH, Table, Tree};
use std::alloc::Global;
pub use tree_pool::TreePool;

/// Decodes a message: the one at index `msg` of the table that the bytes mean, as a tree in normal form.
///
/// `At` is returned exactly if the bytes mean no message, with their first fault. Records are checked in order, and the
/// payload of a known field is checked with its record. `Memory` is returned only when it is out of memory.
pub fn decode(alloc: Global, bytes: &[u8], table: &Table, msg: u32) -> Result<Tree, DecodeFault>
    requires valid { IsValid table.now }
    requires known { msg < length table.now.messages }
    ensures means { IfOk result (λ t. Means table.now msg bytes.now t) }
    ensures normal { IfOk result (λ t. IsNormal table.now msg t) }
    ensures fault { IfErr result (OnDecodeFault (IsFirstDecodeFault table.now msg bytes.now)) }
    ensures within { IfErr result (OnDecodeFault (λ reason place. place ≤ length bytes.now)) }

    // Bytes with a meaning are decoded, unless it is out of memory.
    ensures only { (t : Node) → Means table.now msg bytes.now t
        → MatchResult result (λ u. u ≡ t) (λ f. f ≡ DecodeFault.Memory) }
{
    decode_with(alloc, &mut TreePool::new(alloc), bytes, table, msg)
}

/// Like [`decode`], but reuses vectors of the trees that `spare` took back.
pub fn decode_with(
    alloc: Global,
    spare: &mut TreePool,
    bytes: &[u8],
    table: &Table,
    msg: u32,
) -> Result<Tree, DecodeFault>
    requires valid { IsValid table.now }
    requires known { msg < length table.now.messages }
    ensures means { IfOk result (λ t. Means table.now msg bytes.now t) }
    ensures normal { IfOk result (λ t. IsNormal table.now msg t) }
    ensures fault { IfErr result (OnDecodeFault (IsFirstDecodeFault table.now msg bytes.now)) }
    ensures within { IfErr result (OnDecodeFault (λ reason place. place ≤ length bytes.now)) }

    // Bytes with a meaning are decoded, unless it is out of memory.
    ensures only { (t : Node) → Means table.now msg bytes.now t
        → MatchResult result (λ u. u ≡ t) (λ f. f ≡ DecodeFault.Memory) }
{
    meaning_is_normal();
    rules_and_reader_agree();
    decoded(alloc, spare, bytes, table, msg)
}

// Like `decode_with`, for any table whose fields are in order.
fn decoded(
    alloc: Global,
    spare: &mut TreePool,
    bytes: &[u8],
    table: &Table,
    msg: u32,
) -> Result<Tree, DecodeFault>
    requires { AreAllFieldsAscending table.now }
    ensures means { IfOk result (λ t. IsMergedMessage table.now msg bytes.now t) }
    ensures fault { IfErr result
        (OnDecodeFault (IsFaultReached table.now (MAX_DEPTH - 1) (fields_in table.now msg) bytes.now 0)) }
    ensures only { (t : Node) → IsMergedMessage table.now msg bytes.now t
        → MatchResult result (λ u. u ≡ t) (λ f. f ≡ DecodeFault.Memory) }
{
    merging_is_unique();
    let fields = table.fields(msg);
    match ordered_message(alloc, spare, bytes, 0, table, fields, MAX_DEPTH - 1) {
        Some(fields) => Ok(Tree { fields }),
        None => merged_records(alloc, bytes, table, msg),
    }
}

// Like `decoded`, for records in any order.
fn merged_records(alloc: Global, bytes: &[u8], table: &Table, msg: u32) -> Result<Tree, DecodeFault>
    requires { AreAllFieldsAscending table.now }
    ensures means { IfOk result (λ t. IsMergedMessage table.now msg bytes.now t) }
    ensures fault { IfErr result
        (OnDecodeFault (IsFaultReached table.now (MAX_DEPTH - 1) (fields_in table.now msg) bytes.now 0)) }
    ensures only { (t : Node) → IsMergedMessage table.now msg bytes.now t
        → MatchResult result (λ u. u ≡ t) (λ f. f ≡ DecodeFault.Memory) }
{
    merging_is_unique();
    let fields = table.fields(msg);
    let raw = read_message(alloc, bytes, 0, table, fields, MAX_DEPTH - 1)?;
    Ok(merged(alloc, raw, table, msg, MAX_DEPTH)?)
}
