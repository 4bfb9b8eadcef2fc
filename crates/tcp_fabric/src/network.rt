//! The network that opens connections.
ghost use Rattle.mrpc_base.specs.Links.{IsEmptyIfKnown};
ghost use Rattle.std.specs.Prelude.{IfOk};

use crate::Socket;
use std::io;

/// Both ends of a new connection, and the port of each.
#[derive(Drop)]
pub struct SocketPair<S: Socket + Drop> {
    pub first: S,
    pub second: S,
    pub first_port: u16,
    pub second_port: u16,
}

/// A network that opens connections between two sockets of this process.
pub trait Network {
    /// One end of a connection.
    type S: Socket + Send + Drop;

    /// Opens a connection on which neither end has taken or delivered a byte.
    fn open(&self) -> io::Result<SocketPair<Self::S>>
        ensures first { IfOk result (λ ends.
            IsEmptyIfKnown (Self.S.taken ends.first) × IsEmptyIfKnown (Self.S.given ends.first)) }
        ensures second { IfOk result (λ ends.
            IsEmptyIfKnown (Self.S.taken ends.second) × IsEmptyIfKnown (Self.S.given ends.second)) };
}
