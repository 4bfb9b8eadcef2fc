//! How a queue is opened, and how its ends are reconciled.

ghost use Rattle.std.specs.Prelude.{◌≡◌, ◌<◌, ◌≤◌, [], IfOk};
ghost use mathlib.Core.List.{IsPrefix};
ghost use Rattle.crossbeam_queue.specs.Passes.{view, IsPassOf};
ghost use Rattle.spsc_queue.specs.Credits.{desk_of, unnamed};
ghost use Rattle.spsc_queue.specs.Ends.{pushed_of, popped_of, known_pushed_of, free_of, capacity_of, producer_queue, consumer_queue, AreEnds};

use crate::credit::{CreditQueue, CreditQueuePass, QueueBrand, SplitNamed};
use crate::side::{Compares, Nobody, SharedQueue, SplitQueueEnds};
use crate::{Consumer, Producer};
use std::alloc::{AllocError, Global};
use std::marker::Brand;
use std::mem;
use std::sync::Arc;

/// Opens a queue for at most `capacity` items, and returns its two ends.
pub fn open<T: Drop>(
    alloc: Global,
    capacity: usize,
) -> Result<(Producer<T>, Consumer<T>), AllocError>
    requires { 0 < capacity }
    ensures ends { IfOk result (λ ends. AreEnds ends.0 ends.1) }
    ensures capacity { IfOk result (λ ends. capacity_of ends.0 ≡ capacity) }
    ensures free { IfOk result (λ ends. free_of ends.0 ≡ capacity) }
    ensures put { IfOk result (λ ends. pushed_of ends.0 ≡ []) }
    ensures taken { IfOk result (λ ends. popped_of ends.1 ≡ []) }
    ensures told { IfOk result (λ ends. known_pushed_of ends.1 ≡ []) }
{
    let (queue, mut pass) = SharedQueue::<T>::ruled(alloc, capacity)?;
    let (back, first) = CreditQueue::<T>::ruled(alloc, 1)?;
    let taking = queue.another::<SplitQueueEnds>(&mut pass);
    let (hearing, telling) = ends_back::<T, Brand>(&back, first, &queue);
    let queue = Arc::new(alloc, queue)?;
    let back = Arc::new(alloc, back)?;
    let other = Arc::try_clone(&queue)?;
    let other_back = Arc::try_clone(&back)?;
    Ok((
        Producer {
            queue,
            pass,
            back,
            hearing,
            free: capacity,
            heard: 0,
        },
        Consumer {
            queue: other,
            pass: taking,
            back: other_back,
            telling,
            count: 0,
        },
    ))
}

// The two ends of a queue of credits for the given queue.
fn ends_back<T, N: QueueBrand>(
    back: &CreditQueue<T>,
    mut first: CreditQueuePass<T>,
    _queue: &SharedQueue<T>,
) -> (CreditQueuePass<T>, CreditQueuePass<T>)
    requires back { IsPassOf back.now first }
    requires new { view first ≡ unnamed }
    ensures back { IsPassOf back.now result.0 × IsPassOf back.now result.1 }
    ensures named { (view result.0 ≡ desk_of N.queue) × (view result.1 ≡ desk_of N.queue) }
{
    let other = back.another::<SplitNamed<N>>(&mut first);
    (first, other)
}

/// Reconciles the two ends of one queue. What was popped is a prefix of what was pushed, and from now on the
/// consumer knows of every item that was pushed.
pub fn meet<T>(producer: &mut Producer<T>, consumer: &mut Consumer<T>)
    requires { AreEnds producer.old consumer.old }
    ensures in_order { IsPrefix (popped_of consumer.new) (pushed_of producer.new) }
    ensures told { known_pushed_of consumer.new ≡ pushed_of producer.new }
    ensures put { pushed_of producer.new ≡ pushed_of producer.old }
    ensures free { free_of producer.new ≡ free_of producer.old }
    ensures taken { popped_of consumer.new ≡ popped_of consumer.old }
    ensures producer_queue { producer_queue producer.new ≡ producer_queue producer.old }
    ensures consumer_queue { consumer_queue consumer.new ≡ consumer_queue consumer.old }
    ensures capacity { capacity_of producer.new ≡ capacity_of producer.old }
{
    let queue = &producer.queue;
    let spare = queue.another::<Nobody>(&mut producer.pass);
    let taking = mem::replace(&mut consumer.pass, spare);
    queue.absorb::<SplitQueueEnds>(&mut producer.pass, taking);
    queue.learn_as::<Compares>(&mut producer.pass);
    consumer.pass = queue.another::<SplitQueueEnds>(&mut producer.pass);
}
