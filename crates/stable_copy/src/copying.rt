//! Copies a message that a reader loads.

ghost use Rattle.std.specs.Prelude.{◌≡◌, ◌<◌, ◌≤◌, [], ◌∷◌, ◌++◌, ℕ, List, IfOk, length, map};
ghost use Rattle.mrpc_base.specs.Heap.{AreLoads};
ghost use Rattle.mrpc_table.specs.Valid.{IsValid};
ghost use Rattle.mrpc_table.specs.declared.limits.TheConstants.{MAX_HEAP, MAX_LOADS, MIN_HEAP};
ghost use Rattle.graph_form.specs.Forgotten.{tree_of};
ghost use Rattle.graph_form.specs.Malformed.{IsMalformed};
ghost use Rattle.graph_form.specs.Placed.{Placed, loads, IsSound};
ghost use Rattle.graph_copy.specs.Answers.{IfCopied, IfMalformed, load_count};
ghost use Rattle.graph_copy.specs.Copies.{loads_since, IsCopied};
ghost use Rattle.shared_heap.specs.Fresh.{AfterLoad, IsPrefix, CallLoads, AreFresh, word_of_load};
ghost use Rattle.stable_copy.specs.Unmodified.{IsUnmodifiedSince};

use crate::laws::unmodified_graph_is_copied;
use graph_copy::{CopyResult, copy};
use mrpc_table::{Memory, Table};
use shared_heap::{Reader, calls_are_fresh, loads_preserve_reader};
use std::alloc::Global;

/// Copies the message of type `msg` (its index in the table) at the address `addr` of a heap, with at most `limit`
/// loads, while others may store. Never blocks. After `Memory`, the reader's list holds the loads that were made.
pub fn copy_message(
    alloc: Global,
    reader: &mut Reader,
    table: &Table,
    msg: u32,
    addr: u64,
    limit: u64,
) -> Result<CopyResult, Memory>
    requires valid { IsValid table.now }
    requires known { msg < length table.now.messages }
    requires least_heap { MIN_HEAP ≤ reader.old.heap.words }
    requires greatest_heap { reader.old.heap.words ≤ MAX_HEAP }
    requires least_limit { 1 ≤ limit }
    requires greatest_limit { limit ≤ MAX_LOADS }

    // A sound graph is copied, with one load of each word, under these conditions. It is within the limit, and lies
    // in the heap after `after` stores, all of which the reader knew before. No later store goes to it, for any list
    // of stores that extends what the reader now knows.
    ensures untouched { (P : Placed) (all : List (ℕ × ℕ)) (after : ℕ)
        → IsSound table.now reader.old.heap.words msg addr P → length (loads P) ≤ limit
        → IsPrefix all reader.new.known → after ≤ length reader.old.known → IsUnmodifiedSince all after P
        → IfOk result (λ answer. answer ≡ CopyResult.Copied (tree_of table.now msg P) (length (loads P))) }

    // For each result, the reader made these loads, and nothing else changed.
    ensures adds { map word_of_load reader.new.loads
        ≡ map word_of_load reader.old.loads ++ loads_since (map word_of_load reader.old.loads) (map word_of_load reader.new.loads) }
    ensures only_loads { AreLoads AfterLoad reader.old
        (loads_since (map word_of_load reader.old.loads) (map word_of_load reader.new.loads)) reader.new }
    ensures few { length (loads_since (map word_of_load reader.old.loads) (map word_of_load reader.new.loads)) ≤ limit }
    ensures heap { reader.new.heap ≡ reader.old.heap }
    ensures grows { IsPrefix reader.new.known reader.old.known }

    // Fresh loads stay fresh: these join those of earlier calls as the loads of one more call, after at most as many
    // stores as the reader knew.
    ensures fresh { (calls : List CallLoads) (after : ℕ) → AreFresh calls reader.old.known
        → after ≤ length reader.old.known → AreFresh (calls ++ (record {
          after = after;
          loads = loads_since (map word_of_load reader.old.loads) (map word_of_load reader.new.loads);
        }) ∷ []) reader.new.known }

    // It is the copy that `graph_copy` makes with exactly these loads.
    ensures copied { IfOk result (IfCopied (IsCopied table.now reader.old.heap.words msg addr
        (loads_since (map word_of_load reader.old.loads) (map word_of_load reader.new.loads)))) }
    ensures malformed { IfOk result (IfMalformed (IsMalformed table.now reader.old.heap.words msg addr limit
        (loads_since (map word_of_load reader.old.loads) (map word_of_load reader.new.loads)))) }
    ensures counted { IfOk result (λ answer.
        load_count answer ≡ length (loads_since (map word_of_load reader.old.loads) (map word_of_load reader.new.loads))) }
{
    unmodified_graph_is_copied();
    loads_preserve_reader();
    calls_are_fresh();
    copy(alloc, reader, table, msg, addr, limit)
}
