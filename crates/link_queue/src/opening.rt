//! How a queue is opened.

ghost use Rattle.std.specs.Prelude.{◌≡◌, ◌≤◌, [], false, IfOk};
ghost use Rattle.link_queue.specs.declared.limits.TheConstants.{MAX_CAPACITY};
ghost use Rattle.link_queue.specs.Writers.{writer_start, writer_forward, writer_backward};

use crate::orders::Health;
use crate::queue_link::SENTINEL_SLOTS;
use crate::{QueueLink, QueueWriter};
use mrpc_base::Link;
use mrpc_table::Memory;
use std::alloc::Global;
use std::sync::Wait;

/// A link over a queue of at most `cap` frames, and the writer that forwards them to `link`. When out of memory,
/// `link` is dropped.
pub fn open<'r, R: Wait, L: Link + Drop>(
    rt: &'r R,
    alloc: Global,
    cap: u64,
    link: L,
) -> Result<(QueueLink<'r, R>, QueueWriter<'r, R, L>), Memory>
    requires some { 1 ≤ cap }
    requires most { cap ≤ MAX_CAPACITY }
    ensures handed { IfOk result (λ ends. ends.0.handed ≡ []) }
    ensures finished { IfOk result (λ ends. ends.0.finished ≡ false) }
    ensures given { IfOk result (λ ends. ends.0.given ≡ []) }
    ensures ended { IfOk result (λ ends. ends.0.ended ≡ false) }
    ensures told { IfOk result (λ ends. ends.0.told ≡ []) }
    ensures most { IfOk result (λ ends. ends.0.most ≡ cap) }
    ensures health { IfOk result (λ ends. ends.0.health ≡ Health.Working) }
    ensures failures { IfOk result (λ ends. ends.0.failures ≡ 0) }
    ensures start { IfOk result (λ ends. writer_start ends.1 ≡ link) }
    ensures forward { IfOk result (λ ends. ends.0.forward ≡ writer_forward ends.1) }
    ensures backward { IfOk result (λ ends. ends.0.backward ≡ writer_backward ends.1) }
{
    let most = cap as usize;
    let (out, orders) = spsc_queue::open(alloc, most + SENTINEL_SLOTS)?;
    let (back, incoming) = spsc_queue::open(alloc, most)?;
    let queue_link = QueueLink::new(rt, alloc, most, out, incoming);
    Ok((queue_link, QueueWriter::new(rt, alloc, link, orders, back)))
}
