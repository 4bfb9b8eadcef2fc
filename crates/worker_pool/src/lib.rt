//! A pool of workers over a queue of whole connections.
//!
//! [`run`] takes some items, each a connection with everything that belongs to it, and starts workers. A worker takes
//! an item from the one queue, by value, and makes one visit, by a closure that the run is given. It puts the item
//! back unless it is finished. No lock holds an item. An idle worker yields its processor a few times, and then
//! sleeps in growing steps. The run ends once all items are finished, or once the stop flag is set. The crate depends
//! on the ruled array queue of `crossbeam_queue`, and on `polling` for the backoff and the stop flag.
//!
//! The layer above uses one contract. Each item is returned once, at its index, as a later state of the item that was
//! passed in, as the item's own trait [`PoolItem`] defines it. If the run wasn't stopped, each item is finished.
//!
//! This rests on the rule of the queue ([`items_are_unique`]). Each number below the number of items occurs once: in
//! the queue, in one worker's hand, or among the finished items that a worker keeps. So a worker that has taken an
//! item always finds a slot to put it back. No clause states in which order or by which worker items are visited, or
//! that a run ends.
#![tactic(auto)]

mod idle;
mod laws;
mod limits;
mod pass_view;
mod pool;
mod pool_item;
mod worker;

pub use laws::items_are_unique;
pub use limits::{MAX_POOL_ITEMS, MAX_POOL_WORKERS};
pub use pool::{PoolResult, run};
pub use pool_item::{PoolItem, VisitResult};
