//! Loads each expected word once and in order, up to the first invalid word or the limit.

ghost use Rattle.std.specs.Prelude.{◌≡◌, ◌≤◌, ◌+◌, [], ◌++◌, length, IfOk, MatchOption};
ghost use Rattle.mrpc_base.specs.Heap.{AreLoads};
ghost use Rattle.mrpc_table.specs.Valid.{IsValid};
ghost use Rattle.mrpc_table.specs.declared.limits.TheConstants.{MAX_HEAP};
ghost use Rattle.graph_form.specs.Loading.{AreExpectedAfter};
ghost use Rattle.graph_copy.specs.Expected.{expected, AreInHeap};
ghost use Rattle.graph_copy.specs.Stops.{HasStopped};

use crate::walk::Walk;
use graph_form::Reason;
use mrpc_base::Words;
use mrpc_table::{Memory, Table};

// The loads that were made, each a place and a value.
pub(crate) type Loads = Vec<(u64, u64)>;

// Loads the expected words, and the words that they lead to. Returns the reason if it stops early.
pub(crate) fn take_words<W: Words>(
    words: &mut W,
    table: &Table,
    walk: &mut Walk,
    limit: u64,
    loads: &mut Loads,
) -> Result<Option<Reason>, Memory>
    requires valid { IsValid table.now }
    requires size { walk.old.size ≡ W.size words.old }
    requires small { walk.old.size ≤ MAX_HEAP }
    requires room { limit ≤ W.room words.old }
    requires fits { AreInHeap walk.old.size (expected table.now walk.old) }
    requires none { loads.old.items ≡ [] }

    ensures size { W.size words.new ≡ W.size words.old }
    ensures adds { W.loads words.new ≡ W.loads words.old ++ loads.new.items }
    ensures changes { AreLoads W.after_load words.old loads.new.items words.new }
    ensures few { length loads.new.items ≤ limit }
    ensures room { limit ≤ W.room words.new + length loads.new.items }
    ensures outcome { IfOk result (λ found. MatchOption found
        (AreExpectedAfter table.now walk.old.size (expected table.now walk.old) loads.new.items [])
        (HasStopped table.now walk.old.size limit (expected table.now walk.old) loads.new.items)) }
{
    while let Some(next) = walk.next(table)? {
        if loads.len() as u64 >= limit {
            return Ok(Some(Reason::Loads));
        }
        loads.reserve(1)?;
        let place = next.place();
        let value = words.load(place);
        loads.push_reserved((place, value));
        if let Some(reason) = walk.follow(table, next, value)? {
            return Ok(Some(reason));
        }
    }
    Ok(None)
}
