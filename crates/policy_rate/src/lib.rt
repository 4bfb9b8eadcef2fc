//! Rate policies: how many calls may be charged in a period.
//!
//! A policy of `amount` calls per `per` milliseconds, with a burst of `burst` calls, keeps a [`Bucket`] for each of
//! its attachments. A call costs `per`, a full bucket has `burst * per`, and each millisecond adds `amount`.
//! `specs/Level.antt` defines the level after timestamps, charges and upgrades. The crate depends on no other crate
//! of the project. The layers above use one contract. A bucket's level follows from its past. If every charge was
//! covered, the charges between two timestamps without an upgrade are bounded.
#![tactic(auto)]

mod bucket;
mod laws;
mod rate;

pub use bucket::{Bucket, Step};
pub use laws::{charges_are_bounded, level_is_bounded};
pub use rate::Rate;
