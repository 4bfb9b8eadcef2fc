//! Opens heaps.

ghost use Rattle.std.specs.Prelude.{◌≡◌, ◌≤◌, false, [], IfOk};
ghost use Rattle.mrpc_table.specs.declared.limits.TheConstants.{MAX_HEAP, MIN_HEAP};

use crate::reader::Reader;
use crate::view::{Knowing, Table};
use crate::writer::Writer;
use std::alloc::{AllocError, Global};
use std::sync::Arc;

/// Opens a heap of `words` words, which are all 0.
pub fn open(alloc: Global, words: u64) -> Result<(Writer, Reader), AllocError>
    requires at_least { MIN_HEAP ≤ words }
    requires at_most { words ≤ MAX_HEAP }

    ensures size { IfOk result (λ ends. ends.0.heap.words ≡ words) }
    ensures one_heap { IfOk result (λ ends. ends.1.heap ≡ ends.0.heap) }
    ensures stores { IfOk result (λ ends. ends.0.stores ≡ []) }
    ensures known { IfOk result (λ ends. (ends.1.known ≡ []) × (ends.1.whole ≡ false)) }
    ensures loads { IfOk result (λ ends. ends.1.loads ≡ []) }
{
    let zeros = vec![in alloc; 0u64; words as usize]?;
    let (table, mut seat) = Table::of_words(alloc, zeros.as_slice(), &words)?;
    let table = Arc::new(alloc, table)?;
    let theirs = Arc::try_clone(&table)?;
    let reading = table.shared.split_seat::<Knowing>(&mut seat);
    let writer = Writer {
        words: table,
        seat,
        made: 0,
    };
    let reader = Reader {
        words: theirs,
        seat: reading,
    };
    Ok((writer, reader))
}
