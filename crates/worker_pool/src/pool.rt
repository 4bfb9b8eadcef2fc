//! A run of a pool.

ghost use Rattle.std.specs.Prelude.{◌≡◌, ◌<◌, ◌≤◌, ◌+◌, List, [], ◌∷◌, ◌++◌, true, false, All, IfOk, OnOk, length};
ghost use Rattle.std.specs.List.{AllZip};
ghost use Rattle.std.specs.Vec.{vec_capacity};
ghost use Rattle.crossbeam_queue.specs.Passes.{view, IsSamePass};
ghost use Rattle.worker_pool.specs.Rule.{all_parts, hand};
ghost use Rattle.worker_pool.specs.Visits.{EachVisitPreserves};
ghost use Rattle.worker_pool.specs.Workers.{HasEnded, IsFresh, IsPoolPass, IsOfRun, Knows};
ghost use Rattle.worker_pool.specs.Later.{IsLater};
ghost use Rattle.worker_pool.specs.declared.limits.TheConstants.{MAX_POOL_ITEMS, MAX_POOL_WORKERS};

use crate::limits::{MAX_POOL_ITEMS, MAX_POOL_WORKERS};
use crate::pass_view::{EnterStep, NumberedItem, PoolPass, PoolQueue, ShareStep};
use crate::pool_item::{PoolItem, VisitResult};
use crate::worker::Worker;
use polling::StopFlag;
use std::alloc::{AllocError, Global};
use std::sync::Wait;
use std::sync::atomic::AtomicU64;
use std::thread;
use std::thread::Threads;

/// The result of a run.
#[derive(Drop)]
pub struct PoolResult<T> {
    /// The items, each at its original index.
    pub items: Vec<T>,
    /// Whether a worker saw the stop flag set. If not, each item is finished.
    pub stopped: bool,
}

/// Visits items with `workers` workers, until all are finished or the stop flag is set, and returns them. A
/// visit does what can be done now, and may block only if the item's own handle allows it. Items are numbered by
/// their indices in the list. If no thread can be started, the workers run one after another.
///
/// The only error is out of memory; then all items are dropped. All memory is allocated before the first visit,
/// except for what starting threads takes.
pub fn run<
    R: Threads + Wait + Sync,
    T: PoolItem + Send + Drop,
    S: StopFlag,
    V: Fn(&mut T) -> VisitResult + Sync,
>(
    rt: &R,
    alloc: Global,
    items: Vec<T>,
    workers: usize,
    stop: &S,
    visit: &V,
) -> Result<PoolResult<T>, AllocError>
    requires callable { V.IsAlwaysCallable visit.now }
    requires leaves { EachVisitPreserves T.since T.over (V.post visit.now) }
    requires few_items { length items.items ≤ MAX_POOL_ITEMS }
    requires some_worker { 1 ≤ workers }
    requires few_workers { workers ≤ MAX_POOL_WORKERS }
    ensures each { IfOk result (λ ran. AllZip (IsLater T.since) items.items ran.items.items) }
    ensures over { IfOk result (λ ran. ran.stopped ≡ false → All T.over ran.items.items) }
    ensures stopped { IfOk result (λ ran. ran.stopped ≡ true → S.may_be_set stop.now) }
{
    let count = items.len();
    let back = Vec::with_capacity(alloc, count)?;
    let (line, mut pass) = PoolQueue::<T>::ruled(alloc, MAX_POOL_ITEMS)?;
    enter_all(rt, alloc, &line, &mut pass, items)?;
    let jobs = start(alloc, &line, &mut pass, workers, count)?;
    let mut all = Worker {
        pass,
        kept: Vec::with_capacity(alloc, count)?,
        stopped: false,
    };
    let left = AtomicU64::new(count as u64);
    let ended = run_concurrently(rt, &line, &left, stop, visit, jobs)?;
    absorb_all(&line, &mut all, ended, stop);
    all.finish(rt, &line, stop, visit);
    Ok(all.into_items(back))
}

// Pushes the items into the queue, each with its index as its number.
fn enter_all<R: Wait, T: PoolItem + Drop>(
    rt: &R,
    alloc: Global,
    line: &PoolQueue<T>,
    pass: &mut PoolPass<T>,
    items: Vec<T>,
) -> Result<(), AllocError>
    requires pass { IsPoolPass line.now pass.old }
    requires view { view pass.old ≡ hand all_parts [] [] }
    requires few { length items.items ≤ MAX_POOL_ITEMS }
    ensures pass { IsSamePass pass.old pass.new }
    ensures view { OnOk result (view pass.new ≡ hand all_parts [] items.items) }
{
    let mut rest = items.into_iter();
    let mut number = 0;
    while let Some(item) = rest.next() {
        let item = Box::new(alloc, item)?;
        enter(rt, line, pass, NumberedItem { number, item });
        number += 1;
    }
    Ok(())
}

// Pushes an item into the queue, with the next number.
fn enter<R: Wait, T: PoolItem>(
    rt: &R,
    line: &PoolQueue<T>,
    pass: &mut PoolPass<T>,
    numbered: NumberedItem<T>,
)
    requires pass { IsPoolPass line.now pass.old }
    requires all { (view pass.old).parts ≡ all_parts }
    requires next { numbered.number ≡ length (view pass.old).firsts }
    requires few { length (view pass.old).firsts < MAX_POOL_ITEMS }
    ensures pass { IsSamePass pass.old pass.new }
    ensures view { view pass.new
        ≡ hand (view pass.old).parts (view pass.old).held ((view pass.old).firsts ++ numbered.item.value ∷ []) }
{
    match line.push_as::<EnterStep, R>(rt, pass, numbered) {
        Ok(()) => (),
        Err(_) => unreachable!(),
    }
}

// `workers` workers, each with one part and with room for every item.
fn start<T: PoolItem + Drop>(
    alloc: Global,
    line: &PoolQueue<T>,
    pass: &mut PoolPass<T>,
    workers: usize,
    count: usize,
) -> Result<Vec<Worker<T>>, AllocError>
    requires pass { IsPoolPass line.now pass.old }
    requires parts { workers < (view pass.old).parts }
    requires room { length (view pass.old).firsts ≤ count }
    ensures pass { IsSamePass pass.old pass.new }
    ensures len { IfOk result (λ jobs. length jobs.items ≡ workers) }
    ensures parts { OnOk result ((view pass.new).parts + workers ≡ (view pass.old).parts) }
    ensures held { (view pass.new).held ≡ (view pass.old).held }
    ensures firsts { (view pass.new).firsts ≡ (view pass.old).firsts }
    ensures fresh { IfOk result (λ jobs. All (IsFresh T.since T.over line.now) jobs.items) }
    ensures know { IfOk result (λ jobs. All (Knows (view pass.old).firsts) jobs.items) }
{
    let mut jobs = Vec::with_capacity(alloc, workers)?;
    while jobs.len() < workers {
        let kept = Vec::with_capacity(alloc, count)?;
        jobs.push_reserved(share(line, pass, kept));
    }
    Ok(jobs)
}

// A worker with one of the pass's parts, and with an empty list that has room for every item.
fn share<T: PoolItem>(
    line: &PoolQueue<T>,
    pass: &mut PoolPass<T>,
    kept: Vec<NumberedItem<T>>,
) -> Worker<T>
    requires pass { IsPoolPass line.now pass.old }
    requires parts { 1 < (view pass.old).parts }
    requires none { kept.items ≡ [] }
    requires room { length (view pass.old).firsts ≤ vec_capacity kept }
    ensures pass { IsSamePass pass.old pass.new }
    ensures parts { (view pass.new).parts + 1 ≡ (view pass.old).parts }
    ensures held { (view pass.new).held ≡ (view pass.old).held }
    ensures firsts { (view pass.new).firsts ≡ (view pass.old).firsts }
    ensures fresh { IsFresh T.since T.over line.now result }
    ensures knows { Knows (view pass.old).firsts result }
{
    Worker {
        pass: line.another::<ShareStep>(pass),
        kept,
        stopped: false,
    }
}

// Runs the workers concurrently, until each has ended.
fn run_concurrently<
    R: Threads + Wait + Sync,
    T: PoolItem + Send + Drop,
    S: StopFlag,
    V: Fn(&mut T) -> VisitResult + Sync,
>(
    rt: &R,
    line: &PoolQueue<T>,
    left: &AtomicU64,
    stop: &S,
    visit: &V,
    jobs: Vec<Worker<T>>,
) -> Result<Vec<Worker<T>>, AllocError>
    requires callable { V.IsAlwaysCallable visit.now }
    requires leaves { EachVisitPreserves T.since T.over (V.post visit.now) }
    requires fresh { All (IsFresh T.since T.over line.now) jobs.items }
    ensures len { IfOk result (λ ended. length ended.items ≡ length jobs.items) }
    ensures of_run { (firsts : List T) → All (Knows firsts) jobs.items
        → IfOk result (λ ended. All (IsOfRun line.now firsts) ended.items) }
    ensures ended { IfOk result (λ ended. All (HasEnded T.since T.over (S.may_be_set stop.now)) ended.items) }
{
    thread::map_vec(
        rt,
        jobs,
        &|worker: Worker<T>| -> Worker<T>
            requires fresh { IsFresh T.since T.over line.now worker }
            requires callable { V.IsAlwaysCallable visit.now }
            requires leaves { EachVisitPreserves T.since T.over (V.post visit.now) }
            ensures ended { HasEnded T.since T.over (S.may_be_set stop.entry.now) result }
            ensures of_run { IsOfRun line.entry.now (view worker.pass).firsts result }
        { worker.work(rt, line, left, stop, visit) },
    )
}

// Absorbs all workers.
fn absorb_all<T: PoolItem + Drop, S: StopFlag>(
    line: &PoolQueue<T>,
    all: &mut Worker<T>,
    mut ended: Vec<Worker<T>>,
    _stop: &S,
)
    requires pass { IsPoolPass line.now all.old.pass }
    requires part { 0 < (view all.old.pass).parts }
    requires all { HasEnded T.since T.over (S.may_be_set _stop.now) all.old }
    requires of_run { All (IsOfRun line.now (view all.old.pass).firsts) ended.items }
    requires ended { All (HasEnded T.since T.over (S.may_be_set _stop.now)) ended.items }
    ensures pass { IsSamePass all.old.pass all.new.pass }
    ensures parts { (view all.new.pass).parts ≡ (view all.old.pass).parts + length ended.items }
    ensures firsts { (view all.new.pass).firsts ≡ (view all.old.pass).firsts }
    ensures all { HasEnded T.since T.over (S.may_be_set _stop.now) all.new }
{
    while let Some(worker) = ended.pop() {
        all.absorb(line, worker);
    }
}
