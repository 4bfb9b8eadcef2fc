//! The places of a receive heap: held blocks and holes.
//!
//! An [`Extents`] allocates blocks of words by number and reclaims them. The held blocks and the holes partition
//! the places from 1 on, and no two holes touch. A block is allocated at the start of the first hole that is
//! large enough. The crate uses `mrpc_table` for its out-of-memory error. The layer above uses one contract: what
//! `take` and `reclaim` do to the list of held blocks, and the laws [`Extents::partition`] and
//! [`held_determine_holes`], which determine the holes.
#![tactic(auto)]

mod extents;
mod holes;
mod laws;

pub use extents::{Block, Extents, NotHeld, TakeFault};
pub use holes::PlaceRange;
pub use laws::held_determine_holes;
