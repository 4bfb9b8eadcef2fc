//! The bound connections of a run, from their wiring to what is left of them.

ghost use Rattle.std.specs.Prelude.{◌≤◌, IfOk, List, length};
ghost use Rattle.std.specs.List.{AllZip};
ghost use Rattle.service_threads.specs.Closings.{AreWired, Opening};
ghost use Rattle.service_threads.specs.Served.{HasServed};
ghost use Rattle.worker_pool.specs.declared.limits.TheConstants.{MAX_POOL_ITEMS, MAX_POOL_WORKERS};

use crate::reconciling::{ReconciledConnection, reconcile_each};
use crate::threads::run_threads;
use link_queue::{QueueLink, QueueWriter};
use mrpc_base::{Clock, Gate, Link, ReadyOrder};
use mrpc_table::Memory;
use service_wiring::{AppTask, PooledConnection, RunContext};
use std::sync::Wait;
use std::thread::Threads;
use tenant_quota::Seats;

/// Runs the threads of wired connections with `workers` workers, to the end of each, and reconciles what they leave,
/// in the order of the connections. `Memory` if one of the threads ran out of memory, or the stop flag was set.
pub fn run_wired<
    't,
    R: Threads + Wait + Sync + 't,
    L: Link + Send + Drop,
    C: Clock,
    G: Gate,
    O: ReadyOrder,
>(
    common: &RunContext<'t, R, C, G, O>,
    workers: usize,
    items: Vec<PooledConnection<'t, R, C, Seats, QueueLink<'t, R>, G, O>>,
    jobs: Vec<AppTask<'t>>,
    writers: Vec<QueueWriter<'t, R, L>>,
) -> Result<Vec<ReconciledConnection<'t, L>>, Memory>
    requires wired { (openings : List (Opening C L)) × AreWired openings items.items jobs.items writers.items }
    requires few_items { length items.items ≤ MAX_POOL_ITEMS }
    requires some_worker { 1 ≤ workers }
    requires few_workers { workers ≤ MAX_POOL_WORKERS }
    ensures { (openings : List (Opening C L))
        → AreWired openings items.entry.items jobs.entry.items writers.entry.items
        → IfOk result (λ all. AllZip (λ o met. HasServed C.Clock L.Link o met.bound met.seats met.link) openings
        all.items) }
{
    let left = run_threads(common, workers, items, jobs, writers)?;
    reconcile_each(
        common.rt,
        common.alloc,
        common.clock,
        left.closed,
        left.ends,
        left.writers,
    )
}
