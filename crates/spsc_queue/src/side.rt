//! What each end of a queue knows of it, and the rule between the two.

use crossbeam_queue::protocol::{Join, Lesson, Outcome, Protocol, Split};
use crossbeam_queue::{Pass, RuledArrayQueue};
use std::collections::LinkedList;

// A queue under the rule, and its passes.
pub(crate) type SharedQueue<T> = RuledArrayQueue<T, Side<T>, FifoRule>;

pub(crate) type SharedQueuePass<T> = Pass<T, Side<T>>;

// What an end may do, what it pushed and popped, a prefix of what was pushed, and a prefix of what was popped.
// Never constructed.
pub(crate) struct Side<T> {
    pub puts: bool,
    pub takes: bool,
    pub put: LinkedList<T>,
    pub taken: LinkedList<T>,
    pub told: LinkedList<T>,
    pub known: LinkedList<T>,
}

// Items are popped in the order in which they were pushed.
pub(crate) struct FifoRule;

impl<T> Protocol<T, Side<T>> for FifoRule {
    ghost use Rattle.spsc_queue.specs.Sides.{both, IsFifo};
    ghost use Rattle.std.specs.Prelude.{[]};

    ghost holds = { IsFifo };

    ghost first = { both [] [] [] [] };
}

// The two ends, apart and together. Together, the consumer knows of every item that was pushed.
pub(crate) struct SplitQueueEnds;

impl<T> Split<Side<T>> for SplitQueueEnds {
    ghost use Rattle.spsc_queue.specs.Sides.{putting, taking};

    ghost left = { λ v. putting v.put v.known };

    ghost right = { λ v. taking v.taken v.told };
}

impl<T> Join<Side<T>> for SplitQueueEnds {
    ghost use Rattle.spsc_queue.specs.Sides.{both, neither};

    ghost both = { λ v w. both v.put w.taken v.put v.known };

    ghost spent = { neither };
}

// A pass that may do nothing.
pub(crate) struct Nobody;

impl<T> Split<Side<T>> for Nobody {
    ghost use Rattle.spsc_queue.specs.Sides.{neither};

    ghost left = { λ v. v };

    ghost right = { λ v. neither };
}

// A pass that knows what the consumer popped; the producer learns it from this pass.
pub(crate) struct SplitPopped;

impl<T> Split<Side<T>> for SplitPopped {
    ghost use Rattle.spsc_queue.specs.Sides.{knowing};

    ghost left = { λ v. v };

    ghost right = { λ v. knowing v.taken };
}

impl<T> Join<Side<T>> for SplitPopped {
    ghost use Rattle.spsc_queue.specs.Sides.{putting, neither, longer};

    ghost both = { λ v w. putting v.put (longer v.known w.known) };

    ghost spent = { neither };
}

pub(crate) struct PushOutcome;

impl<T> Outcome<T, Side<T>> for PushOutcome {
    ghost use Rattle.std.specs.Prelude.{◌≡◌, [], ◌∷◌, ◌++◌};
    ghost use Rattle.spsc_queue.specs.Sides.{putting};

    ghost then = { λ v x w. w ≡ putting (v.put ++ x ∷ []) v.known };
}

// The queued items are a suffix of those pushed, after all that are known to be popped.
impl<T> Lesson<T, Side<T>> for PushOutcome {
    ghost use Rattle.spsc_queue.specs.Sides.{IsQueued};

    ghost fact = { λ v items. IsQueued v.put v.known items };
}

// At most as many items are known to be popped as were pushed.
pub(crate) struct KnownWithinPushed;

impl<T> Lesson<T, Side<T>> for KnownWithinPushed {
    ghost use Rattle.std.specs.Prelude.{◌≤◌, length};

    ghost fact = { λ v items. length v.known ≤ length v.put };
}

pub(crate) struct PopOutcome;

impl<T> Outcome<T, Side<T>> for PopOutcome {
    ghost use Rattle.std.specs.Prelude.{◌≡◌, [], ◌∷◌, ◌++◌};
    ghost use Rattle.spsc_queue.specs.Sides.{taking, ArePrefixComparable};

    ghost then = { λ v x w. (w ≡ taking (v.taken ++ x ∷ []) v.told) × ArePrefixComparable w.told w.taken };
}

// Each item that it knows to be pushed was popped or is queued.
impl<T> Lesson<T, Side<T>> for PopOutcome {
    ghost use Rattle.std.specs.Prelude.{◌++◌};
    ghost use mathlib.Core.List.{IsPrefix};

    ghost fact = { λ v items. IsPrefix v.told (v.taken ++ items) };
}

// Of both ends together: what was pushed is what was popped, followed by the queued items.
pub(crate) struct Compares;

impl<T> Lesson<T, Side<T>> for Compares {
    ghost use Rattle.std.specs.Prelude.{◌≡◌, ◌++◌};

    ghost fact = { λ v items. v.taken ++ items ≡ v.put };
}
