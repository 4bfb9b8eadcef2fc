//! The system's TCP over 127.0.0.1.

use crate::{Network, SocketPair, SystemFault, SystemSocket};
use std::io;
use std::io::ErrorKind;
use std::net::{Ipv4Addr, Net, SocketAddr, TcpListener, TcpStream};

/// TCP connections over 127.0.0.1, by the operating system. The errors of openings and sockets are noted.
#[derive(Drop)]
pub struct Loopback<'r, R> {
    net: &'r R,
    fault: SystemFault,
}

impl<'r, R> Loopback<'r, R> {
    /// A network that has opened nothing. The system's first error is noted in `fault`.
    pub fn new(net: &'r R, fault: SystemFault) -> Loopback<'r, R> {
        Loopback { net, fault }
    }
}

// The most connections from others that an opening discards.
const MAX_STRANGERS: usize = 128;

impl<'r, R: Net<Stream = TcpStream, Listener = TcpListener>> Loopback<'r, R> {
    // Opens a connection.
    fn connect(&self) -> io::Result<SocketPair<SystemSocket>> {
        let listener = TcpListener::bind(self.net, (Ipv4Addr::LOCALHOST, 0))?;
        let first = TcpStream::connect(self.net, listener.local_addr()?)?;
        let second = accept_from(&listener, first.local_addr()?)?;
        let first_port = first.local_addr()?.port();
        let second_port = second.local_addr()?.port();
        Ok(SocketPair {
            first: self.socket(first)?,
            second: self.socket(second)?,
            first_port,
            second_port,
        })
    }

    // A socket that sends frames without delay (`TCP_NODELAY`), and whose calls never block.
    fn socket(&self, stream: TcpStream) -> io::Result<SystemSocket> {
        stream.set_nodelay(true)?;
        stream.set_nonblocking(true)?;
        Ok(SystemSocket::new(stream, self.fault.try_clone()?))
    }
}

impl<'r, R: Net<Stream = TcpStream, Listener = TcpListener>> Network for Loopback<'r, R> {
    type S = SystemSocket;

    fn open(&self) -> io::Result<SocketPair<SystemSocket>> {
        let opened = self.connect();
        if let Err(error) = &opened {
            self.fault.note(error);
        }
        opened
    }
}

// Accepts the connection that comes from an address. Closes connections that others on this machine make
// meanwhile.
fn accept_from(listener: &TcpListener, from: SocketAddr) -> io::Result<TcpStream> {
    for _ in 0..MAX_STRANGERS {
        let (stream, address) = listener.accept()?;
        if address == from {
            return Ok(stream);
        }
    }
    Err(io::Error::from(ErrorKind::ConnectionRefused))
}
