//! Links that count frames. A [`CountingFabric`] opens the links of another fabric, and counts in a [`FrameCounters`], which
//! threads share, the frames that are sent and received on them.
//!
//! It uses `mrpc_base` alone. The layer above uses one contract: for clauses, a [`CountingLink`] is the link inside
//! it, and a [`CountingFabric`] the fabric inside it. The counts are for people; no clause depends on what other
//! threads counted.
#![tactic(auto)]

mod counters;
mod fabric;
mod link;
mod scanner;

pub use counters::FrameCounters;
pub use fabric::CountingFabric;
pub use link::CountingLink;
pub use scanner::FrameScanner;
