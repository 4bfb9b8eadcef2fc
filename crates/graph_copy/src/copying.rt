//! Copies a message out of a heap.

ghost use Rattle.std.specs.Prelude.{◌≡◌, ◌≤◌, ◌<◌, ◌+◌, List, [], ◌∷◌, ◌++◌, ℕ, length, IfOk};
ghost use Rattle.mrpc_base.specs.Heap.{AreLoads};
ghost use Rattle.mrpc_table.specs.Valid.{IsValid};
ghost use Rattle.mrpc_table.specs.declared.limits.TheConstants.{MAX_HEAP, MAX_LOADS, MIN_HEAP};
ghost use Rattle.graph_form.specs.Malformed.{IsMalformed};
ghost use Rattle.graph_copy.specs.Copies.{loads_since, HasOnlyLoaded, IsCopied};
ghost use Rattle.graph_copy.specs.Answers.{IfCopied, IfMalformed, load_count};

use crate::build::make_tree;
use crate::judge::lies_in;
use crate::take::{Loads, take_words};
use crate::walk::Walk;
use graph_form::{Reason, loads_end_malformed, size_words};
use mrpc_base::{Room, Words};
use mrpc_table::{Memory, Table, Tree};
use std::alloc::Global;

/// The result of a copy.
#[derive(Drop)]
pub enum CopyResult {
    /// The tree of a sound graph, and the number of loads.
    Copied {
        tree: Tree,
        loads: u64,
    },
    /// The graph is malformed: the reason, the place and value of the last load, and the number of loads. If the root
    /// isn't inside the heap, there is no load, `place` is 0 and `value` is the address.
    Malformed {
        reason: Reason,
        place: u64,
        value: u64,
        loads: u64,
    },
}

/// Copies the message of type `msg` (its index in the table) at the address `addr` of a heap into a tree of its own.
/// It makes at most `limit` loads. Each word is loaded once for each place that it has in the graph.
/// `Reason::NoMethod` is never the reason.
///
/// Room for `limit` loads is made before the first load. After `Memory`, the heap's list of loads holds those that
/// were made. If making that room was what ran out of memory, the heap's reader is unchanged.
pub fn copy<W: Words>(
    alloc: Global,
    words: &mut W,
    table: &Table,
    msg: u32,
    addr: u64,
    limit: u64,
) -> Result<CopyResult, Memory>
    requires valid { IsValid table.now }
    requires known { msg < length table.now.messages }
    requires least_heap { MIN_HEAP ≤ W.size words.old }
    requires greatest_heap { W.size words.old ≤ MAX_HEAP }
    requires least_limit { 1 ≤ limit }
    requires greatest_limit { limit ≤ MAX_LOADS }

    // For each result: the heap made room and has these additional loads, and nothing else changed.
    ensures size { W.size words.new ≡ W.size words.old }
    ensures adds { W.loads words.new ≡ W.loads words.old ++ loads_since (W.loads words.old) (W.loads words.new) }
    ensures only_loads { HasOnlyLoaded W.after_room W.after_load words.old
        (loads_since (W.loads words.old) (W.loads words.new)) words.new }
    ensures few { length (loads_since (W.loads words.old) (W.loads words.new)) ≤ limit }

    // If no room for `limit` loads was made, nothing changed.
    ensures unroomed { W.room words.new + length (loads_since (W.loads words.old) (W.loads words.new)) < limit
        → words.new ≡ words.old }

    ensures copied { IfOk result (IfCopied (IsCopied table.now (W.size words.old) msg addr
        (loads_since (W.loads words.old) (W.loads words.new)))) }
    ensures malformed { IfOk result (IfMalformed (IsMalformed table.now (W.size words.old) msg addr limit
        (loads_since (W.loads words.old) (W.loads words.new)))) }
    ensures counted { IfOk result (λ answer. load_count answer ≡ length (loads_since (W.loads words.old) (W.loads words.new))) }
{
    match words.room_loads(limit) {
        Room::Memory => Err(Memory),
        Room::Made => {
            let mut loads = Vec::new(alloc);
            let answer = copy_graph(alloc, words, table, msg, addr, limit, &mut loads)?;
            Ok(answer)
        }
    }
}

// The copy, once there is room for the loads. It notes them in `loads`.
fn copy_graph<W: Words>(
    alloc: Global,
    words: &mut W,
    table: &Table,
    msg: u32,
    addr: u64,
    limit: u64,
    loads: &mut Loads,
) -> Result<CopyResult, Memory>
    requires valid { IsValid table.now }
    requires least_heap { 1 ≤ W.size words.old }
    requires greatest_heap { W.size words.old ≤ MAX_HEAP }
    requires least_limit { 1 ≤ limit }
    requires room { limit ≤ W.room words.old }
    requires none { loads.old.items ≡ [] }

    ensures size { W.size words.new ≡ W.size words.old }
    ensures adds { W.loads words.new ≡ W.loads words.old ++ loads.new.items }
    ensures changes { AreLoads W.after_load words.old loads.new.items words.new }
    ensures few { length loads.new.items ≤ limit }
    ensures room { limit ≤ W.room words.new + length loads.new.items }

    ensures copied { IfOk result (IfCopied (IsCopied table.now (W.size words.old) msg addr loads.new.items)) }
    ensures malformed { IfOk result
        (IfMalformed (IsMalformed table.now (W.size words.old) msg addr limit loads.new.items)) }
    ensures counted { IfOk result (λ answer. load_count answer ≡ length loads.new.items) }
{
    loads_end_malformed();
    let size = words.words();
    let root = size_words(table, msg);
    if !lies_in(size, addr, root) {
        return Ok(CopyResult::Malformed {
            reason: Reason::Address,
            place: 0,
            value: addr,
            loads: 0,
        });
    }
    let mut walk = Walk::new(alloc, size);
    walk.expect_node(table, msg, 1, addr, root)?;
    match take_words(words, table, &mut walk, limit, loads)? {
        Some(reason) => Ok(malformed(reason, loads)),
        None => {
            let tree = make_tree(alloc, table, msg, loads)?;
            let loads = loads.len() as u64;
            Ok(CopyResult::Copied { tree, loads })
        }
    }
}

// The last load is where the graph is malformed.
fn malformed(reason: Reason, loads: &[(u64, u64)]) -> CopyResult
    ensures { (front : List (ℕ × ℕ)) (last : ℕ × ℕ) → loads.now ≡ front ++ last ∷ []
        → result ≡ CopyResult.Malformed reason last.0 last.1 (length loads.now) }
{
    match loads.last() {
        Some(last) => CopyResult::Malformed {
            reason,
            place: last.0,
            value: last.1,
            loads: loads.len() as u64,
        },
        None => CopyResult::Malformed {
            reason,
            place: 0,
            value: 0,
            loads: 0,
        },
    }
}
