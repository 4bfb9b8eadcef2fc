//! The weighted order of connections: how many rounds in a row a worker gives each of them, and which one it visits
//! next.
//!
//! A connection of weight 3 gets three rounds where one of weight 1 gets one. Rounds unused because the connection
//! was shut carry over to its next visit, up to the weight. Rounds unused because it was idle are dropped.
//! [`Weighted`] returns grants, an [`Account`] counts the visits of one connection, and a [`Wheel`] orders the
//! visits. The crate depends on `mrpc_base`. The layers above use one contract: over visits within their grants, the
//! rounds given, kept and dropped of a connection sum to its weight times its visits.
#![tactic(auto)]

mod account;
mod laws;
mod weighted;
mod weights;
mod wheel;
mod wheel_entries;
mod wheel_entry;

pub use account::{Account, Ending};
pub use laws::{shares_are_proportional, visits_balance, weights_or_fault};
pub use weighted::Weighted;
pub use weights::{Weight, WeightFault, Weights};
pub use wheel::Wheel;
