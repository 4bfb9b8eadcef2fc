//! The producer of a queue.

ghost use Rattle.std.specs.Prelude.{◌≡◌, ◌≤◌, ◌+◌, length, true, false};
ghost use Rattle.std.specs.Arc.{arc_value};
ghost use Rattle.crossbeam_queue.specs.Passes.{view, ruled_capacity, IsPassOf};
ghost use Rattle.spsc_queue.specs.Credits.{desk_of};

use crate::credit::{Credit, CreditQueue, CreditQueuePass, Credits};
use crate::side::{KnownWithinPushed, PushOutcome, SharedQueue, SharedQueuePass, SplitPopped};
use polling::Backoff;
use std::alloc::Global;
use std::sync::{Arc, Wait};

/// The end of a queue that pushes items. It may be sent to another thread.
pub struct Producer<T> {
    pub(crate) queue: Arc<SharedQueue<T>, Global>,
    pub(crate) pass: SharedQueuePass<T>,
    // Carries back what was popped.
    pub(crate) back: Arc<CreditQueue<T>, Global>,
    pub(crate) hearing: CreditQueuePass<T>,
    // A lower bound on the number of free slots, and how many popped items it knows of.
    pub(crate) free: usize,
    pub(crate) heard: usize,
    ghost of_queue: { IsPassOf (arc_value queue) pass },
    ghost puts: { (view pass).puts ≡ true },
    ghost of_back: { IsPassOf (arc_value back) hearing },
    ghost hears: { view hearing ≡ desk_of pass.table_id },
    ghost places: { free + length (view pass).put ≡ ruled_capacity (arc_value queue) + heard },
    ghost known: { heard ≤ length (view pass).known },
}

// By hand, so that each drop is one call, and not a drop of every field.
impl<T: Drop> Drop for Producer<T> {
    fn drop(self) {
        let Producer {
            queue: _queue,
            pass: _pass,
            back: _back,
            hearing: _hearing,
            free: _,
            heard: _,
        } = self;
    }
}

impl<T> Producer<T> {
    ghost use Rattle.std.specs.Prelude.{◌<◌, [], ◌∷◌, ◌++◌, Err, IsOk, MatchResult, OnErr, OnOk};
    ghost use Rattle.spsc_queue.specs.Ends.{pushed_of, free_of, capacity_of, producer_queue};

    /// Pushes an item. Returns it if no slot is known to be free; then at least `capacity` items were pushed so far.
    pub fn try_push<R: Wait>(&mut self, rt: &R, item: T) -> Result<(), T>
        ensures done { OnOk result (pushed_of self.new ≡ pushed_of self.old ++ item ∷ []) }
        ensures back { OnErr result ((result ≡ Err item) × (pushed_of self.new ≡ pushed_of self.old)) }
        ensures full { OnErr result (capacity_of self.old ≤ length (pushed_of self.old)) }
        ensures free { 0 < free_of self.old → IsOk result }
        ensures queue { producer_queue self.new ≡ producer_queue self.old }
        ensures capacity { capacity_of self.new ≡ capacity_of self.old }
    {
        if self.free == 0 {
            self.read_credit(rt);
        }
        if self.free == 0 {
            return Err(item);
        }
        self.push_reserved(rt, item);
        Ok(())
    }

    /// Pushes an item into a slot that is known to be free. It never fails and tries once. It may spin while a
    /// stalled `take` is inside its own atomic access, but never for room.
    pub fn push_reserved<R: Wait>(&mut self, rt: &R, item: T)
        requires { 0 < free_of self.old }
        ensures done { pushed_of self.new ≡ pushed_of self.old ++ item ∷ [] }
        ensures free { free_of self.old ≡ free_of self.new + 1 }
        ensures queue { producer_queue self.new ≡ producer_queue self.old }
        ensures capacity { capacity_of self.new ≡ capacity_of self.old }
    {
        match self
            .queue
            .push_as::<PushOutcome, R>(rt, &mut self.pass, item)
        {
            Ok(()) => self.free -= 1,
            Err(_) => unreachable!(),
        }
    }

    /// Pushes an item; waits while no slot is free.
    pub fn push_blocking<R: Wait>(&mut self, rt: &R, item: T)
        ensures done { pushed_of self.new ≡ pushed_of self.old ++ item ∷ [] }
        ensures queue { producer_queue self.new ≡ producer_queue self.old }
        ensures capacity { capacity_of self.new ≡ capacity_of self.old }
    {
        self.push_leaving(rt, 0, item);
    }

    /// Pushes an item; waits while at most `places` slots are free. So `places` slots stay free.
    pub fn push_leaving<R: Wait>(&mut self, rt: &R, places: usize, item: T)
        ensures done { pushed_of self.new ≡ pushed_of self.old ++ item ∷ [] }
        ensures free { places ≤ free_of self.new }
        ensures queue { producer_queue self.new ≡ producer_queue self.old }
        ensures capacity { capacity_of self.new ≡ capacity_of self.old }
    {
        self.wait_for_more(rt, places);
        self.push_reserved(rt, item);
    }

    /// Whether at least `places` slots are known to be free. If fewer are, it reads the consumer's announcement first.
    /// Doesn't wait for room. Free slots stay free until the next push.
    pub fn has_free<R: Wait>(&mut self, rt: &R, places: usize) -> bool
        ensures free { result ≡ true → places ≤ free_of self.new }
        ensures waiting { result ≡ false → capacity_of self.old < length (pushed_of self.old) + places }
        ensures kept { free_of self.old ≤ free_of self.new }
        ensures same { pushed_of self.new ≡ pushed_of self.old }
        ensures queue { producer_queue self.new ≡ producer_queue self.old }
        ensures capacity { capacity_of self.new ≡ capacity_of self.old }
    {
        if self.free < places {
            self.read_credit(rt);
        }
        places <= self.free
    }

    // Waits until more than `places` slots are known to be free.
    fn wait_for_more<R: Wait>(&mut self, rt: &R, places: usize)
        ensures free { places < free_of self.new }
        ensures same { pushed_of self.new ≡ pushed_of self.old }
        ensures queue { producer_queue self.new ≡ producer_queue self.old }
        ensures capacity { capacity_of self.new ≡ capacity_of self.old }
    {
        let mut pauses = Backoff::new();
        for _ in rt.forever() {
            if places < self.free {
                return;
            }
            if !self.read_credit(rt) {
                pauses.wait(rt);
            }
        }
        unreachable!()
    }

    // Reads the consumer's announcement, and returns whether there was one.
    fn read_credit<R: Wait>(&mut self, rt: &R) -> bool
        ensures free { free_of self.old ≤ free_of self.new }
        ensures same { pushed_of self.new ≡ pushed_of self.old }
        ensures queue { producer_queue self.new ≡ producer_queue self.old }
        ensures capacity { capacity_of self.new ≡ capacity_of self.old }
    {
        let Some(credit) = self.back.pop_as::<Credits, R>(rt, &mut self.hearing) else {
            return false;
        };
        let Credit { pass, taken } = credit;
        self.queue.absorb::<SplitPopped>(&mut self.pass, pass);
        self.queue.learn_as::<KnownWithinPushed>(&mut self.pass);
        if taken > self.heard {
            let most = self.queue.capacity();
            self.free = most.min(self.free + (taken - self.heard));
            self.heard = taken;
        }
        true
    }

    /// The number of items that were in the queue at some point during the call. Until the next push there are at
    /// most as many.
    pub fn len<R: Wait>(&mut self, rt: &R) -> usize
        ensures capacity { result ≤ capacity_of self.old }
        ensures put { result ≤ length (pushed_of self.old) }
        ensures same { pushed_of self.new ≡ pushed_of self.old }
        ensures free { free_of self.new ≡ free_of self.old }
        ensures queue { producer_queue self.new ≡ producer_queue self.old }
        ensures same_capacity { capacity_of self.new ≡ capacity_of self.old }
    {
        self.queue.len_as::<PushOutcome, R>(rt, &mut self.pass)
    }
}
