//! The consumer of a queue.

ghost use Rattle.std.specs.Prelude.{◌≡◌, ◌≤◌, length, true};
ghost use Rattle.std.specs.Arc.{arc_value};
ghost use Rattle.crossbeam_queue.specs.Passes.{view, IsPassOf};
ghost use Rattle.spsc_queue.specs.Credits.{desk_of};

use crate::credit::{Credit, CreditQueue, CreditQueuePass, Credits};
use crate::side::{PopOutcome, SharedQueue, SharedQueuePass, SplitPopped};
use std::alloc::Global;
use std::sync::{Arc, Wait};

/// The end of a queue that pops items. It may be sent to another thread.
pub struct Consumer<T> {
    pub(crate) queue: Arc<SharedQueue<T>, Global>,
    pub(crate) pass: SharedQueuePass<T>,
    // Carries back how many items were popped at least.
    pub(crate) back: Arc<CreditQueue<T>, Global>,
    pub(crate) telling: CreditQueuePass<T>,
    pub(crate) count: usize,
    ghost of_queue: { IsPassOf (arc_value queue) pass },
    ghost takes: { (view pass).takes ≡ true },
    ghost of_back: { IsPassOf (arc_value back) telling },
    ghost tells: { view telling ≡ desk_of pass.table_id },
    ghost counted: { count ≤ length (view pass).taken },
}

// By hand, so that each drop is one call, and not a drop of every field.
impl<T: Drop> Drop for Consumer<T> {
    fn drop(self) {
        let Consumer {
            queue: _queue,
            pass: _pass,
            back: _back,
            telling: _telling,
            count: _,
        } = self;
    }
}

impl<T> Consumer<T> {
    ghost use Rattle.std.specs.Prelude.{◌≡◌, [], ◌∷◌, ◌++◌, IfSome, IfNone};
    ghost use mathlib.Core.List.{IsPrefix};
    ghost use Rattle.spsc_queue.specs.Ends.{popped_of, known_pushed_of, consumer_queue};
    ghost use Rattle.spsc_queue.specs.Sides.{ArePrefixComparable};

    /// Pops the oldest item and announces it to the producer. Returns `None` only if the queue was empty at some
    /// point during the call and every item that this end knows to be pushed was popped.
    pub fn pop<R: Wait>(&mut self, rt: &R) -> Option<T>
        ensures taken { IfSome result (λ item. popped_of self.new ≡ popped_of self.old ++ item ∷ []) }
        ensures agree { IfSome result (λ item. ArePrefixComparable (known_pushed_of self.old) (popped_of self.new)) }
        ensures none { IfNone result (popped_of self.new ≡ popped_of self.old) }
        ensures empty { IfNone result (IsPrefix (known_pushed_of self.old) (popped_of self.old)) }
        ensures told { known_pushed_of self.new ≡ known_pushed_of self.old }
        ensures queue { consumer_queue self.new ≡ consumer_queue self.old }
    {
        let item = self.queue.pop_as::<PopOutcome, R>(rt, &mut self.pass)?;
        self.count = self.count.saturating_add(1);
        self.announce(rt);
        Some(item)
    }

    // Announces to the producer what was popped. Overwrites an announcement that it hasn't read yet.
    fn announce<R: Wait>(&mut self, rt: &R)
        ensures taken { popped_of self.new ≡ popped_of self.old }
        ensures told { known_pushed_of self.new ≡ known_pushed_of self.old }
        ensures queue { consumer_queue self.new ≡ consumer_queue self.old }
    {
        let credit = Credit {
            pass: self.queue.another::<SplitPopped>(&mut self.pass),
            taken: self.count,
        };
        self.back
            .force_push_as::<Credits, Credits, R>(rt, &mut self.telling, credit);
    }
}
