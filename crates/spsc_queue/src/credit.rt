//! The credits that the consumer sends back, and the rule of the queue that carries them.

ghost use Rattle.std.specs.Prelude.{◌≡◌, ◌≤◌, [], length};
ghost use Rattle.crossbeam_queue.specs.Passes.{view};

use crate::side::SharedQueuePass;
use crossbeam_queue::protocol::{Lesson, Outcome, Protocol, Split};
use crossbeam_queue::{Pass, RuledArrayQueue};
use std::marker::{Brand, Model, PhantomData};

// A lower bound on the number of popped items, and a pass that knows them.
#[derive(Drop)]
pub(crate) struct Credit<T> {
    pub(crate) pass: SharedQueuePass<T>,
    pub(crate) taken: usize,
    ghost counted: { taken ≤ length (view pass).known },
    ghost at_rest: { pass.me.1 ≡ [] },
}

// A queue of capacity 1 that carries credits back, and its passes.
pub(crate) type CreditQueue<T> = RuledArrayQueue<Credit<T>, CreditDesk, OfOne>;

pub(crate) type CreditQueuePass<T> = Pass<Credit<T>, CreditDesk>;

// The queue that the credits belong to. Never constructed.
pub(crate) struct QueueName {
    number: u64,
}

impl Model for QueueName {
    ghost use Rattle.atomic_table.specs.Seated.{TableId};
    ghost use Rattle.spsc_queue.specs.Names.{no_queue};

    ghost Value = { TableId };

    ghost view = { λ _. no_queue };
}

// What a pass of the queue of credits knows: whether the credits' queue is known, and which it is. Never
// constructed.
pub(crate) struct CreditDesk {
    pub named: bool,
    pub queue: QueueName,
}

// All credits belong to one queue.
pub(crate) struct OfOne;

impl<T> Protocol<Credit<T>, CreditDesk> for OfOne {
    ghost use Rattle.spsc_queue.specs.Credits.{AreOfOne, unnamed};

    ghost holds = { AreOfOne };

    ghost first = { unnamed };
}

// The queue that credits belong to. Each call of `open` picks its own.
pub(crate) trait QueueBrand {
    ghost use Rattle.atomic_table.specs.Seated.{TableId};

    ghost queue: { TableId };
}

impl QueueBrand for Brand {
    ghost use Rattle.spsc_queue.specs.Names.{no_queue};

    ghost queue = { no_queue };
}

// Splits the first pass into two that know the queue.
pub(crate) struct SplitNamed<N> {
    of: PhantomData<N>,
}

impl<N: QueueBrand> Split<CreditDesk> for SplitNamed<N> {
    ghost use Rattle.spsc_queue.specs.Credits.{desk_of};

    ghost left = { λ v. desk_of N.queue };

    ghost right = { λ v. desk_of N.queue };
}

// A credit of the queue is pushed or popped.
pub(crate) struct Credits;

impl<T> Outcome<Credit<T>, CreditDesk> for Credits {
    ghost use Rattle.std.specs.Prelude.{◌≡◌};

    ghost then = { λ v x w. (w ≡ v) × (x.pass.table_id ≡ v.queue) };
}

impl<T> Lesson<Credit<T>, CreditDesk> for Credits {
    ghost use Rattle.std.specs.Prelude.{⊤};

    ghost fact = { λ v items. ⊤ };
}
