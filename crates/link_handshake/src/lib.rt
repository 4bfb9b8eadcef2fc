//! The handshake of a connection's link: each end sends its hello as the first frame, and receives the other's.
//!
//! [`send_hello`] sends a hello. [`receive_hello`] receives, into arrivals such as [`new_arrivals`], until the first
//! frame is complete; then it decodes the frame and checks whether both sides agree on the service. The crate
//! uses `schema_binding` for hellos and agreement, and `message_delivery` for arrivals. The layer above uses one
//! contract. A connection is bound if the first frame received is a hello whose table agrees with its own.
//! Otherwise it is unbound, for the one cause that follows from the received bytes.
#![tactic(auto)]

mod laws;
mod opening;
mod receiving;
mod sending;
mod unbound;

pub use laws::binding_is_unique;
pub use opening::new_arrivals;
pub use receiving::receive_hello;
pub use sending::send_hello;
pub use unbound::Unbound;
