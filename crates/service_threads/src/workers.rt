//! The workers of a run.

ghost use Rattle.std.specs.Prelude.{◌≡◌, ◌≤◌, All, IfOk, List, length};
ghost use Rattle.std.specs.List.{AllZip};
ghost use Rattle.service_threads.specs.Closings.{IsClosedOf, ServedEndpoint};
ghost use Rattle.service_wiring.specs.Pooling.{IsLaterEndpoint, IsRetired};
ghost use Rattle.worker_pool.specs.Visits.{IsItemAfterVisit};
ghost use Rattle.worker_pool.specs.declared.limits.TheConstants.{MAX_POOL_ITEMS, MAX_POOL_WORKERS};

use link_queue::QueueLink;
use mrpc_base::{Clock, Gate, Link, ReadyOrder, Tickets};
use mrpc_table::Memory;
use polling::StopFlag;
use service_wiring::{ClosedConnection, PooledConnection, since_is_transitive};
use std::alloc::Global;
use std::sync::Wait;
use std::thread::Threads;
use tenant_quota::Seats;
use worker_pool::VisitResult;

// The connections that workers visit, as one value: a closure that captures it keeps what it borrows for one
// lifetime.
pub(crate) struct VisitedConnections<'t, R: Wait, C: Clock, G, O: ReadyOrder> {
    pub items: Vec<PooledConnection<'t, R, C, Seats, QueueLink<'t, R>, G, O>>,
}

// Written by hand, since shared references needn't be dropped.
impl<'t, R: Wait, C: Clock, G, O: ReadyOrder> Drop for VisitedConnections<'t, R, C, G, O> {
    fn drop(self) {
        let VisitedConnections { items: _items } = self;
    }
}

impl<'t, R: Wait, C: Clock, G, O: ReadyOrder> VisitedConnections<'t, R, C, G, O> {
    fn into_items(self) -> Vec<PooledConnection<'t, R, C, Seats, QueueLink<'t, R>, G, O>>
        ensures { result ≡ self.entry.items }
    {
        let VisitedConnections { items } = self;
        items
    }
}

// Visits connections by `workers` workers until each is finished, then closes each, and returns what they leave, in
// their order. If the stop flag was seen, or memory runs out, it drops the connections, which closes their links, and
// sets the flag for the other threads.
pub(crate) fn run_workers<
    't,
    R: Threads + Wait + Sync,
    C: Clock,
    G: Gate,
    O: ReadyOrder,
    S: StopFlag,
>(
    rt: &R,
    alloc: Global,
    stop: &S,
    workers: usize,
    connections: VisitedConnections<'t, R, C, G, O>,
) -> Result<Vec<ClosedConnection<'t>>, Memory>
    requires few_items { length connections.items.items ≤ MAX_POOL_ITEMS }
    requires some_worker { 1 ≤ workers }
    requires few_workers { workers ≤ MAX_POOL_WORKERS }
    ensures { IfOk result (λ all. AllZip
        (IsClosedOf C.Clock ⟦<Seats as Tickets>⟧ ⟦<QueueLink<'t, R> as Link>⟧) connections.entry.items.items
        all.items) }
{
    match visit_and_close(rt, alloc, stop, workers, connections.into_items()) {
        Ok(all) => Ok(all),
        Err(Memory) => {
            stop.set();
            Err(Memory)
        }
    }
}

// Visits connections until each is finished, then closes each.
fn visit_and_close<'t, R: Threads + Wait + Sync, C: Clock, G: Gate, O: ReadyOrder, S: StopFlag>(
    rt: &R,
    alloc: Global,
    stop: &S,
    workers: usize,
    items: Vec<PooledConnection<'t, R, C, Seats, QueueLink<'t, R>, G, O>>,
) -> Result<Vec<ClosedConnection<'t>>, Memory>
    requires few_items { length items.items ≤ MAX_POOL_ITEMS }
    requires some_worker { 1 ≤ workers }
    requires few_workers { workers ≤ MAX_POOL_WORKERS }
    ensures { IfOk result (λ all. AllZip
        (IsClosedOf C.Clock ⟦<Seats as Tickets>⟧ ⟦<QueueLink<'t, R> as Link>⟧) items.entry.items all.items) }
{
    let over = visit_all(rt, alloc, stop, workers, items)?;
    close_all(alloc, over)
}

// Visits connections until each is finished.
fn visit_all<
    't,
    R: Threads + Wait + Sync,
    C: Clock,
    Q: Tickets + Send + Drop,
    L: Link + Send + Drop,
    G: Gate,
    O: ReadyOrder,
    S: StopFlag,
>(
    rt: &R,
    alloc: Global,
    stop: &S,
    workers: usize,
    items: Vec<PooledConnection<'t, R, C, Q, L, G, O>>,
) -> Result<Vec<PooledConnection<'t, R, C, Q, L, G, O>>, Memory>
    requires few_items { length items.items ≤ MAX_POOL_ITEMS }
    requires some_worker { 1 ≤ workers }
    requires few_workers { workers ≤ MAX_POOL_WORKERS }
    ensures turned { IfOk result (λ over. AllZip (IsLaterEndpoint C.Clock Q.Tickets L.Link) items.entry.items
        over.items) }
    ensures done { IfOk result (λ over. All (IsRetired C.Clock Q.Tickets L.Link) over.items) }
{
    since_is_transitive::<C, Q, L>();
    let ran = worker_pool::run(
        rt,
        alloc,
        items,
        workers,
        stop,
        &|item: &mut PooledConnection<R, C, Q, L, G, O>| -> VisitResult
            ensures { IsItemAfterVisit (IsLaterEndpoint C.Clock Q.Tickets L.Link) (IsRetired C.Clock Q.Tickets L.Link)
                item.old result item.new }
        { item.visit() },
    )?;
    if ran.stopped {
        return Err(Memory);
    }
    Ok(ran.items)
}

/// Closes connections that get no further visit, and returns what they leave, in their order. Each result belongs to
/// a later state of the connection at its index.
pub fn close_all<'t, R: Wait, C: Clock, G, O: ReadyOrder>(
    alloc: Global,
    over: Vec<PooledConnection<'t, R, C, Seats, QueueLink<'t, R>, G, O>>,
) -> Result<Vec<ClosedConnection<'t>>, Memory>
    requires { All (IsRetired C.Clock ⟦<Seats as Tickets>⟧ ⟦<QueueLink<'t, R> as Link>⟧) over.items }
    ensures { (firsts : List (ServedEndpoint C))
        → AllZip (IsLaterEndpoint C.Clock ⟦<Seats as Tickets>⟧ ⟦<QueueLink<'t, R> as Link>⟧) firsts over.entry.items
        → IfOk result (λ all. AllZip
        (IsClosedOf C.Clock ⟦<Seats as Tickets>⟧ ⟦<QueueLink<'t, R> as Link>⟧) firsts all.items) }
{
    let mut all = Vec::with_capacity(alloc, over.len())?;
    let mut rest = over.into_iter();
    while let Some(item) = rest.next() {
        all.push(item.close())?;
    }
    Ok(all)
}
