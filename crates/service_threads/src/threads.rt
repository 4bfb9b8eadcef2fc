//! The threads of a run.

ghost use Rattle.std.specs.Prelude.{◌≤◌, All, IfOk, length};
ghost use Rattle.std.specs.List.{AllZip};
ghost use Rattle.service_threads.specs.Closings.{IsClosedOf, IsWrittenBy};
ghost use Rattle.service_wiring.specs.Applications.{IsEndOf, IsAppTask};
ghost use Rattle.worker_pool.specs.declared.limits.TheConstants.{MAX_POOL_ITEMS, MAX_POOL_WORKERS};

use crate::workers::{VisitedConnections, run_workers};
use app_stub::AppEnd;
use link_queue::{QueueLink, QueueWriter, WriterEnd};
use mrpc_base::{Clock, Gate, Link, ReadyOrder, Tickets};
use mrpc_table::Memory;
use polling::StopFlag;
use service_wiring::{AppTask, ClosedConnection, PooledConnection, RunContext, run_application};
use std::alloc::Global;
use std::sync::Wait;
use std::thread;
use std::thread::Threads;
use tenant_quota::Seats;

/// Runs applications in parallel, each to its end, and returns what they leave, in their order. If starting a thread
/// runs out of memory, the flag is set.
pub fn run_applications<R: Threads + Wait + Sync, S: StopFlag>(
    rt: &R,
    alloc: Global,
    stop: &S,
    jobs: Vec<AppTask>,
) -> Result<Vec<AppEnd>, Memory>
    requires { All IsAppTask jobs.items }
    ensures each { IfOk result (λ ends. AllZip IsEndOf jobs.entry.items ends.items) }
{
    let ends = thread::map_vec(
        rt,
        jobs,
        &|job: AppTask| -> AppEnd
            requires { IsAppTask job }
            ensures { IsEndOf job.entry result }
        { run_application(rt, alloc, job) },
    );
    match ends {
        Ok(ends) => Ok(ends),
        Err(_) => {
            stop.set();
            Err(Memory)
        }
    }
}

/// Runs the writers of links in parallel, each to its end, and returns what they leave, in their order. If starting a
/// thread runs out of memory, the flag is set.
pub fn run_writers<'t, R: Threads + Wait + Sync, L: Link + Send + Drop, S: StopFlag>(
    rt: &'t R,
    stop: &S,
    writers: Vec<QueueWriter<'t, R, L>>,
) -> Result<Vec<WriterEnd<L>>, Memory>
    ensures each { IfOk result (λ ends. AllZip IsWrittenBy writers.entry.items ends.items) }
{
    let ends = thread::map_vec(
        rt,
        writers,
        &|writer: QueueWriter<R, L>| -> WriterEnd<L>
            ensures { IsWrittenBy writer.entry result }
        { writer.run() },
    );
    match ends {
        Ok(ends) => Ok(ends),
        Err(_) => {
            stop.set();
            Err(Memory)
        }
    }
}

/// What the threads of a run left, each in the order of its inputs.
#[derive(Drop)]
pub struct ThreadResults<'t, L: Link> {
    pub ends: Vec<AppEnd>,
    pub closed: Vec<ClosedConnection<'t>>,
    pub writers: Vec<WriterEnd<L>>,
}

/// Runs applications, the writers of links and `workers` workers in parallel, each to its end, and returns what they
/// leave. A thread that runs out of memory sets the stop flag, so that all end. `Memory` if the workers saw the flag,
/// or if starting a thread or storing a result ran out of memory. An application's own result records whether it ran
/// out of memory.
pub fn run_threads<
    't,
    R: Threads + Wait + Sync + 't,
    L: Link + Send + Drop,
    C: Clock,
    G: Gate,
    O: ReadyOrder,
>(
    common: &RunContext<'t, R, C, G, O>,
    workers: usize,
    items: Vec<PooledConnection<'t, R, C, Seats, QueueLink<'t, R>, G, O>>,
    jobs: Vec<AppTask<'t>>,
    writers: Vec<QueueWriter<'t, R, L>>,
) -> Result<ThreadResults<'t, L>, Memory>
    requires jobs { All IsAppTask jobs.items }
    requires few_items { length items.items ≤ MAX_POOL_ITEMS }
    requires some_worker { 1 ≤ workers }
    requires few_workers { workers ≤ MAX_POOL_WORKERS }
    ensures ends { IfOk result (λ left. AllZip IsEndOf jobs.entry.items left.ends.items) }
    ensures closed { IfOk result (λ left. AllZip
        (IsClosedOf C.Clock ⟦<Seats as Tickets>⟧ ⟦<QueueLink<'t, R> as Link>⟧) items.entry.items left.closed.items) }
    ensures writers { IfOk result (λ left. AllZip IsWrittenBy writers.entry.items left.writers.items) }
{
    let rt = common.rt;
    let alloc = common.alloc;
    let stop = common.stop;
    let connections = VisitedConnections { items };
    let (ends, (writers, closed)) = run_in_parallel(
        rt,
        move ||
            requires { All IsAppTask jobs.items }
        { run_applications(rt, alloc, stop, jobs) },
        move || run_writers(rt, stop, writers),
        move ||
            requires few_items { length connections.items.items ≤ MAX_POOL_ITEMS }
            requires some_worker { 1 ≤ workers }
            requires few_workers { workers ≤ MAX_POOL_WORKERS }
        { run_workers(rt, alloc, stop, workers, connections) },
    );
    Ok(ThreadResults {
        ends: ends?,
        closed: closed?,
        writers: writers?,
    })
}

// Runs three functions in parallel.
fn run_in_parallel<
    R: Threads,
    F: FnOnce() -> A + Send,
    G: FnOnce() -> B + Send,
    H: FnOnce() -> D,
    A: Send,
    B: Send,
    D,
>(rt: &R, f: F, g: G, h: H) -> (A, (B, D))
    requires { F.pre f × G.pre g × H.pre h }
    ensures first { F.post f result.0 }
    ensures second { G.post g result.1.0 }
    ensures third { H.post h result.1.1 }
{
    thread::join(
        rt,
        f,
        move ||
            requires { G.pre g × H.pre h }
        { thread::join(rt, g, h) },
    )
}
