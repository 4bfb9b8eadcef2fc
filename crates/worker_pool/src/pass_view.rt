//! The knowledge of each pass of a pool's queue, and what its accesses reveal. No value of `PassView` is ever made.

use crate::pool_item::PoolItem;
use crossbeam_queue::protocol::{Join, Lesson, Outcome, Protocol, Split};
use crossbeam_queue::{Pass, RuledArrayQueue};
use std::collections::LinkedList;

// An item with its number: its index among the items of the run. It is boxed, since each visit moves it out of the
// queue and back.
#[derive(Drop)]
pub(crate) struct NumberedItem<T> {
    pub number: usize,
    pub item: Box<T>,
}

// The view of one pass. It has the pass's parts: a pass with all parts knows where every item is. It has the numbers
// of the items that the pass holds, finished ones first and one in hand last. And it has all items as they were when
// the run started, by number.
pub(crate) struct PassView<T> {
    pub parts: u64,
    pub held: LinkedList<usize>,
    pub firsts: LinkedList<T>,
}

// The queue of a pool, and its passes.
pub(crate) type PoolQueue<T> = RuledArrayQueue<NumberedItem<T>, PassView<T>, PoolRule>;

pub(crate) type PoolPass<T> = Pass<NumberedItem<T>, PassView<T>>;

// Each number occurs once.
pub(crate) struct PoolRule;

impl<T: PoolItem> Protocol<NumberedItem<T>, PassView<T>> for PoolRule {
    ghost use Rattle.std.specs.Prelude.{[]};
    ghost use Rattle.worker_pool.specs.Rule.{IsPooled, all_parts, hand};

    ghost holds = { IsPooled T.since };

    ghost first = { hand all_parts [] [] };
}

// A new item enters, with the next number. Only a pass that has all parts may bring one.
pub(crate) struct EnterStep;

impl<T> Outcome<NumberedItem<T>, PassView<T>> for EnterStep {
    ghost use Rattle.std.specs.Prelude.{◌≡◌, [], ◌∷◌, ◌++◌};
    ghost use Rattle.worker_pool.specs.Rule.{hand};

    ghost then = { λ v x w. w ≡ hand v.parts v.held (v.firsts ++ x.item.value ∷ []) };
}

impl<T> Lesson<NumberedItem<T>, PassView<T>> for EnterStep {
    ghost use Rattle.worker_pool.specs.Rule.{KnowsRoom};

    ghost fact = { KnowsRoom };
}

// The pass takes the oldest item into its hand.
pub(crate) struct TakeStep;

impl<T: PoolItem> Outcome<NumberedItem<T>, PassView<T>> for TakeStep {
    ghost use Rattle.worker_pool.specs.Rule.{IsTakeStep};

    ghost then = { IsTakeStep T.since };
}

// If the queue is empty, a pass that has all parts holds every item.
impl<T> Lesson<NumberedItem<T>, PassView<T>> for TakeStep {
    ghost use Rattle.worker_pool.specs.Rule.{KnowsAllItems};

    ghost fact = { KnowsAllItems };
}

// The item in the hand goes to the end of the queue.
pub(crate) struct ReturnStep;

impl<T> Outcome<NumberedItem<T>, PassView<T>> for ReturnStep {
    ghost use Rattle.std.specs.Prelude.{◌≡◌};
    ghost use Rattle.worker_pool.specs.Rule.{hand, without_last};

    ghost then = { λ v x w. w ≡ hand v.parts (without_last v.held) v.firsts };
}

impl<T> Lesson<NumberedItem<T>, PassView<T>> for ReturnStep {
    ghost use Rattle.worker_pool.specs.Rule.{KnowsRoom};

    ghost fact = { KnowsRoom };
}

// One part goes to a worker's pass, and returns with the items that it holds.
pub(crate) struct ShareStep;

impl<T> Split<PassView<T>> for ShareStep {
    ghost use Rattle.std.specs.Prelude.{[], ◌-◌};
    ghost use Rattle.worker_pool.specs.Rule.{hand};

    ghost left = { λ v. hand (v.parts - 1) v.held v.firsts };

    ghost right = { λ v. hand 1 [] v.firsts };
}

impl<T> Join<PassView<T>> for ShareStep {
    ghost use Rattle.std.specs.Prelude.{[], ◌++◌, ◌+◌};
    ghost use Rattle.worker_pool.specs.Rule.{hand};

    ghost both = { λ v w. hand (v.parts + w.parts) (v.held ++ w.held) v.firsts };

    ghost spent = { hand 0 [] [] };
}
