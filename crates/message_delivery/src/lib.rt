//! Delivery to the application of one connection, in the running service. Received frames become messages in a
//! heap, the application gets a notice of each message, and reclaims the message's block.
//!
//! An [`Arrivals`] receives from a link and handles the frames. A [`Notices`] sends notices of the placed
//! messages while its two rings have room. A [`Reclaims`] takes the numbers of the blocks that the application
//! reclaims. One thread owns each, and they share only the heap and the rings, so any loop may drive them.
//!
//! The crate uses `receive_core`, `shared_heap` and `descriptor_ring`. The layers above use one contract: each
//! line is the fate of a frame that the link received, in order and once, and the notices are of the placed
//! messages.
#![tactic(auto)]

mod arrivals;
mod limits;
mod notices;
mod reclaims;

pub use arrivals::{ArrivalLine, Arrivals, DeliveryOutcome, PlacedMessage, StreamState};
pub use limits::MAX_ARRIVALS;
pub use notices::Notices;
pub use reclaims::{ReclaimOutcome, Reclaims};
