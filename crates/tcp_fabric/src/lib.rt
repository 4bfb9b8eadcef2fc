//! TCP links: a [`TcpFabric`] opens pairs of [`SocketLink`]s, each pair one TCP connection over 127.0.0.1 with
//! both ends in this process, and keeps them afterwards.
//!
//! The crate uses `mrpc_base` for the traits, and stores the links that it keeps in a `slab`. A link is generic
//! over its [`Socket`], whose calls never block, and a fabric over the [`Network`] that opens connections.
//! [`Loopback`] is the network of the operating system, with a [`SystemSocket`] at each end. The first error that
//! the system returns to one of these is noted in a [`SystemFault`], for the message that reports the failure.
//! Which bytes the system really takes and delivers is trusted. Over sockets that know their bytes, the contracts
//! state which bytes move.
//!
//! The layer above uses the contracts of the traits. A frame was sent only if the socket took all of it, after
//! the frames before it. The bytes received on a link are those that the socket delivered, in order and once.
//! Each failure is counted.
//!
//! A link that can't write reads ahead, so two ends with full sockets never wait for each other.
#![tactic(auto)]

mod fabric;
mod link;
mod loopback;
mod network;
mod piece_trace;
mod read_ahead;
mod socket;
mod system_fault;
mod system_socket;
mod wire;

pub use fabric::TcpFabric;
pub use link::{SendState, SocketLink};
pub use loopback::Loopback;
pub use network::{Network, SocketPair};
pub use socket::{Socket, WriteResult};
pub use system_fault::SystemFault;
pub use system_socket::SystemSocket;
pub use wire::ReceiveState;
