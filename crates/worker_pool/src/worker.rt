//! A worker: its pass, and the items that it keeps.

ghost use Rattle.std.specs.Prelude.{◌≡◌, ◌<◌, ◌≤◌, ◌+◌, ◌⊎◌, [], ◌∷◌, ◌++◌, true, false, All, IfNone, IfSome, IsPermutation, length, map};
ghost use Rattle.std.specs.List.{AllZip};
ghost use Rattle.std.specs.List.Sorted.{IsNonDecreasingBy};
ghost use Rattle.std.specs.Vec.{vec_capacity};
ghost use Rattle.crossbeam_queue.specs.Passes.{view, IsSamePass};
ghost use Rattle.worker_pool.specs.Later.{IsLater};
ghost use Rattle.worker_pool.specs.Visits.{EachVisitPreserves};
ghost use Rattle.worker_pool.specs.Rule.{IsLaterItem, AreAllOnce, IsTakeStep, all_parts, hand, numbers_of, without_last};
ghost use Rattle.worker_pool.specs.Workers.{IsLaterWorker, HasEnded, IsPoolPass, IsWorker};

use crate::idle::Idle;
use crate::limits::MAX_POOL_ITEMS;
use crate::pass_view::{NumberedItem, PoolPass, PoolQueue, ReturnStep, ShareStep, TakeStep};
use crate::pool::PoolResult;
use crate::pool_item::{PoolItem, VisitResult};
use polling::StopFlag;
use std::sync::Wait;
use std::sync::atomic::{AtomicU64, Ordering};

// The result of a turn at the queue.
#[derive(Clone, Copy, PartialEq, Eq)]
pub(crate) enum TurnResult {
    // The queue was empty.
    Empty,
    // An item was visited, and there was nothing to do.
    Idle,
    // Something was done.
    Worked,
    // The worker keeps the item.
    Kept,
}

// A worker is both the job of a thread and its result. The items that it keeps are finished, unless it was stopped.
#[derive(Drop)]
pub(crate) struct Worker<T> {
    pub pass: PoolPass<T>,
    pub kept: Vec<NumberedItem<T>>,
    pub stopped: bool,
}

// Takes the oldest item into the hand. If there is none, a pass with all parts holds every item.
fn take<R: Wait, T: PoolItem>(
    rt: &R,
    line: &PoolQueue<T>,
    pass: &mut PoolPass<T>,
) -> Option<NumberedItem<T>>
    requires pass { IsPoolPass line.now pass.old }
    requires part { 0 < (view pass.old).parts }
    ensures pass { IsSamePass pass.old pass.new }
    ensures none { IfNone result (view pass.new ≡ view pass.old) }
    ensures once { IfNone result ((view pass.old).parts ≡ all_parts
        → AreAllOnce (view pass.old).firsts (view pass.old).held) }
    ensures took { IfSome result (λ x. IsTakeStep T.since (view pass.old) x (view pass.new)) }
{
    line.pop_as::<TakeStep, R>(rt, pass)
}

// Puts the item in the hand back. There is a slot for it, since the item came out of the queue.
fn put_back<R: Wait, T: PoolItem>(
    rt: &R,
    line: &PoolQueue<T>,
    pass: &mut PoolPass<T>,
    numbered: NumberedItem<T>,
)
    requires pass { IsPoolPass line.now pass.old }
    requires part { 0 < (view pass.old).parts }
    requires one { IsLaterItem T.since (view pass.old).firsts numbered }
    requires in_hand { (view pass.old).held ≡ without_last (view pass.old).held ++ numbered.number ∷ [] }
    ensures pass { IsSamePass pass.old pass.new }
    ensures view { view pass.new
        ≡ hand (view pass.old).parts (without_last (view pass.old).held) (view pass.old).firsts }
{
    match line.push_as::<ReturnStep, R>(rt, pass, numbered) {
        Ok(()) => (),
        Err(_) => unreachable!(),
    }
}

impl<T: PoolItem + Drop> Worker<T> {
    // Takes an item, makes one visit, and puts it back or keeps it.
    pub(crate) fn turn<R: Wait, V: Fn(&mut T) -> VisitResult>(
        &mut self,
        rt: &R,
        line: &PoolQueue<T>,
        visit: &V,
    ) -> TurnResult
        requires callable { V.IsAlwaysCallable visit.now }
        requires leaves { EachVisitPreserves T.since T.over (V.post visit.now) }
        requires pass { IsPoolPass line.now self.old.pass }
        requires part { 0 < (view self.old.pass).parts }
        requires worker { IsWorker T.since T.over self.old }
        ensures worker { IsWorker T.since T.over self.new }
        ensures goes_on { IsLaterWorker self.old self.new }
        ensures stopped { self.new.stopped ≡ self.old.stopped }
        ensures empty { result ≡ TurnResult.Empty → (view self.old.pass).parts ≡ all_parts
            → AreAllOnce (view self.new.pass).firsts (numbers_of self.new.kept.items) }
    {
        let Some(mut numbered) = take(rt, line, &mut self.pass) else {
            return TurnResult::Empty;
        };
        match visit(&mut *numbered.item) {
            VisitResult::Over => {
                self.kept.push_reserved(numbered);
                TurnResult::Kept
            }
            VisitResult::Worked => {
                put_back(rt, line, &mut self.pass, numbered);
                TurnResult::Worked
            }
            VisitResult::Idle => {
                put_back(rt, line, &mut self.pass, numbered);
                TurnResult::Idle
            }
        }
    }

    // Takes an item and keeps it unchanged.
    fn take_unvisited<R: Wait>(&mut self, rt: &R, line: &PoolQueue<T>) -> TurnResult
        requires pass { IsPoolPass line.now self.old.pass }
        requires part { 0 < (view self.old.pass).parts }
        requires worker { IsWorker T.since T.over self.old }
        requires stopped { self.old.stopped ≡ true }
        ensures worker { IsWorker T.since T.over self.new }
        ensures goes_on { IsLaterWorker self.old self.new }
        ensures stopped { self.new.stopped ≡ self.old.stopped }
        ensures empty { result ≡ TurnResult.Empty → (view self.old.pass).parts ≡ all_parts
            → AreAllOnce (view self.new.pass).firsts (numbers_of self.new.kept.items) }
    {
        let Some(numbered) = take(rt, line, &mut self.pass) else {
            return TurnResult::Empty;
        };
        self.kept.push_reserved(numbered);
        TurnResult::Kept
    }

    // Takes turns alongside other workers, until all items are finished or the flag is set.
    pub(crate) fn work<R: Wait, S: StopFlag, V: Fn(&mut T) -> VisitResult>(
        mut self,
        rt: &R,
        line: &PoolQueue<T>,
        left: &AtomicU64,
        stop: &S,
        visit: &V,
    ) -> Worker<T>
        requires callable { V.IsAlwaysCallable visit.now }
        requires leaves { EachVisitPreserves T.since T.over (V.post visit.now) }
        requires pass { IsPoolPass line.now self.pass }
        requires part { 0 < (view self.pass).parts }
        requires worker { IsWorker T.since T.over self }
        requires fresh { self.stopped ≡ false }
        ensures ended { HasEnded T.since T.over (S.may_be_set stop.now) result }
        ensures goes_on { IsLaterWorker self result }
    {
        let mut idle = Idle::new();
        for _ in rt.forever() {
            if stop.is_set() {
                self.stopped = true;
                break;
            }
            match self.turn(rt, line, visit) {
                TurnResult::Kept => {
                    left.fetch_sub(1, Ordering::SeqCst);
                    idle.reset();
                }
                TurnResult::Worked => idle.reset(),
                TurnResult::Idle => idle.after_visit(rt, left.load(Ordering::SeqCst)),
                TurnResult::Empty if left.load(Ordering::SeqCst) == 0 => break,
                TurnResult::Empty => idle.wait(rt),
            }
        }
        self
    }

    // Takes turns alone, until the queue is empty. Once the flag is set it visits no more items, and keeps those in
    // the queue.
    pub(crate) fn finish<R: Wait, S: StopFlag, V: Fn(&mut T) -> VisitResult>(
        &mut self,
        rt: &R,
        line: &PoolQueue<T>,
        stop: &S,
        visit: &V,
    )
        requires callable { V.IsAlwaysCallable visit.now }
        requires leaves { EachVisitPreserves T.since T.over (V.post visit.now) }
        requires pass { IsPoolPass line.now self.old.pass }
        requires all { (view self.old.pass).parts ≡ all_parts }
        requires ended { HasEnded T.since T.over (S.may_be_set stop.now) self.old }
        ensures ended { HasEnded T.since T.over (S.may_be_set stop.now) self.new }
        ensures firsts { (view self.new.pass).firsts ≡ (view self.old.pass).firsts }
        ensures once { AreAllOnce (view self.new.pass).firsts (numbers_of self.new.kept.items) }
    {
        let mut idle = Idle::new();
        for _ in rt.forever() {
            if stop.is_set() {
                self.stopped = true;
            }
            match self.turn_unless_stopped(rt, line, visit) {
                TurnResult::Empty => return,
                TurnResult::Idle => idle.after_visit(rt, MAX_POOL_ITEMS as u64),
                TurnResult::Worked | TurnResult::Kept => idle.reset(),
            }
        }
        unreachable!()
    }

    // Takes an item, and visits it unless the worker was stopped.
    fn turn_unless_stopped<R: Wait, V: Fn(&mut T) -> VisitResult>(
        &mut self,
        rt: &R,
        line: &PoolQueue<T>,
        visit: &V,
    ) -> TurnResult
        requires callable { V.IsAlwaysCallable visit.now }
        requires leaves { EachVisitPreserves T.since T.over (V.post visit.now) }
        requires pass { IsPoolPass line.now self.old.pass }
        requires part { 0 < (view self.old.pass).parts }
        requires worker { IsWorker T.since T.over self.old }
        ensures worker { IsWorker T.since T.over self.new }
        ensures goes_on { IsLaterWorker self.old self.new }
        ensures stopped { self.new.stopped ≡ self.old.stopped }
        ensures empty { result ≡ TurnResult.Empty → (view self.old.pass).parts ≡ all_parts
            → AreAllOnce (view self.new.pass).firsts (numbers_of self.new.kept.items) }
    {
        if self.stopped {
            self.take_unvisited(rt, line)
        } else {
            self.turn(rt, line, visit)
        }
    }

    // Absorbs another worker, with the items that it keeps. There is room for them: both hold at most as many items
    // as there are.
    pub(crate) fn absorb(&mut self, line: &PoolQueue<T>, other: Worker<T>)
        requires pass { IsPoolPass line.now self.old.pass }
        requires other_pass { IsPoolPass line.now other.pass }
        requires part { 0 < (view self.old.pass).parts }
        requires other_part { 0 < (view other.pass).parts }
        requires one_run { (view other.pass).firsts ≡ (view self.old.pass).firsts }
        requires worker { IsWorker T.since T.over self.old }
        requires other_worker { IsWorker T.since T.over other }
        ensures worker { IsWorker T.since T.over self.new }
        ensures pass { IsSamePass self.old.pass self.new.pass }
        ensures parts { (view self.new.pass).parts ≡ (view self.old.pass).parts + (view other.pass).parts }
        ensures firsts { (view self.new.pass).firsts ≡ (view self.old.pass).firsts }
        ensures stopped { self.new.stopped ≡ true → (self.old.stopped ≡ true) ⊎ (other.stopped ≡ true) }
    {
        let Worker {
            pass,
            mut kept,
            stopped,
        } = other;
        line.absorb::<ShareStep>(&mut self.pass, pass);
        line.learn_as::<ReturnStep>(&mut self.pass);
        match self.kept.append(&mut kept) {
            Ok(()) => self.stopped |= stopped,
            Err(_) => unreachable!(),
        }
    }

    // The items, by number, in a list that has room for them.
    pub(crate) fn into_items(self, items: Vec<T>) -> PoolResult<T>
        requires worker { IsWorker T.since T.over self }
        requires once { AreAllOnce (view self.pass).firsts (numbers_of self.kept.items) }
        requires none { items.items ≡ [] }
        requires room { length (view self.pass).firsts ≤ vec_capacity items }
        ensures each { AllZip (IsLater T.since) (view self.pass).firsts result.items.items }
        ensures over { result.stopped ≡ false → All T.over result.items.items }
        ensures stopped { result.stopped ≡ self.stopped }
    {
        let Worker {
            pass: _pass,
            kept,
            stopped,
        } = self;
        PoolResult {
            items: put_items(by_number(kept), items),
            stopped,
        }
    }
}

// Sorts the items by number.
fn by_number<T>(mut kept: Vec<NumberedItem<T>>) -> Vec<NumberedItem<T>>
    ensures same { IsPermutation kept.items result.items }
    ensures order { IsNonDecreasingBy (λ x. x.number) result.items }
{
    kept.sort_unstable_by_key(|numbered| numbered.number);
    kept
}

// Moves items, without their numbers, into an empty list that has room for them.
fn put_items<T: Drop>(kept: Vec<NumberedItem<T>>, mut items: Vec<T>) -> Vec<T>
    requires none { items.items ≡ [] }
    requires room { length kept.items ≤ vec_capacity items }
    ensures { result.items ≡ map (λ x. x.item.value) kept.items }
{
    let mut rest = kept.into_iter();
    while let Some(numbered) = rest.next() {
        items.push_reserved(Box::into_inner(numbered.item));
    }
    items
}
