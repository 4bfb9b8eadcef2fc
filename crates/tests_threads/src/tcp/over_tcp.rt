//! Links over the system's TCP.

use crate::discard;
use mrpc_base::{Came, Fabric, Handed, Link, OpenFault};
use std::alloc::Global;
use std::io::ErrorKind;
use std::net::{Net, SocketAddr, TcpListener, TcpStream};
use std::process::Abort;
use std::sync::Wait;
use std::thread::Threads;
use std::time::Clock;
use std::{io, thread};
use tcp_fabric::{
    Loopback, Network, Socket, SocketLink, SocketPair, SystemFault, SystemSocket, TcpFabric,
};

// The longest frame, and how many of them fill both sockets.
const FRAME: usize = 262_160;

const FRAMES: usize = 32;

// Sends frames without receiving, finishes, and counts the bytes up to the end, or returns 0 if a call
// failed.
fn talk<R: Wait, L: Link + Drop>(rt: &R, mut link: L, frame: &[u8]) -> u64 {
    for _ in 0..FRAMES {
        if link.send(frame) != Handed::Done {
            return 0;
        }
    }
    link.finish();
    received(rt, &mut link)
}

fn received<R: Wait, L: Link>(rt: &R, link: &mut L) -> u64 {
    let mut came = 0u64;
    let mut buf = [0; 65536];
    for _ in rt.forever() {
        match link.receive(&mut buf) {
            Came::Bytes(count) => came = came.wrapping_add(count as u64),
            Came::Idle => thread::yield_now(),
            Came::End => return came,
            Came::Failed | Came::Memory => return 0,
        }
    }
    unreachable!()
}

// Both ends of a link of a fabric talk, in a thread each.
fn both_talk<R, F>(rt: &R, alloc: Global, mut fabric: F) -> (u64, u64)
where
    R: Abort + Threads + Wait + Sync,
    F: Fabric + Drop,
{
    let (first, second) = fabric.open_pair(1, 2).expect(rt, "a pair");
    let frame = vec![in alloc; 7u8; FRAME].expect(rt, "memory");
    let bytes = frame.as_slice();
    thread::join(
        rt,
        move || talk(rt, first, bytes),
        move || talk(rt, second, bytes),
    )
}

// Connections over 127.0.0.1, and the failure that is noted of them.
fn loopback<'r, R: Abort, N>(rt: &R, alloc: Global, net: &'r N) -> (Loopback<'r, N>, SystemFault) {
    let fault = SystemFault::new(alloc).expect(rt, "memory");
    let noting = fault.try_clone().expect(rt, "memory");
    (Loopback::new(net, noting), fault)
}

// The system's words for the noted failure; empty if none was noted.
fn words<R: Abort>(rt: &R, alloc: Global, fault: &SystemFault) -> String {
    match fault.first() {
        Some(error) => format!(in alloc; "{error}").expect(rt, "memory"),
        None => String::new(alloc),
    }
}

#[test]
fn two_ends_with_full_sockets_go_on(rt: HostRuntime) {
    let (network, fault) = loopback(&rt, rt.alloc(), &rt);
    let fabric = TcpFabric::new(&rt, rt.alloc(), network);
    let (one, other) = both_talk(&rt, rt.alloc(), fabric);
    assert!(rt; one == 32 * 262_160);
    assert!(rt; other == 32 * 262_160);
    assert!(rt; fault.first().is_none());
}

const RESET: &str = "Connection reset by peer (os error 104)";

#[test]
fn a_peer_that_is_reset_is_a_failure(rt: HostRuntime) {
    let (network, fault) = loopback(&rt, rt.alloc(), &rt);
    let SocketPair {
        first,
        second,
        first_port,
        second_port,
    } = network.open().expect(&rt, "a connection");
    let link = SocketLink::new(&rt, rt.alloc(), first, first_port, second_port);
    assert_reset(&rt, link, second);
    // The failure of the last send isn't the first.
    assert!(rt; words(&rt, rt.alloc(), &fault).as_str() == RESET);
}

// Bytes that the peer never reads turn its close into a reset.
fn assert_reset<R: Abort, L: Link + Drop, P: Drop>(rt: &R, mut link: L, peer: P) {
    assert!(rt; link.send(b"half a frame") == Handed::Done);
    discard(peer);
    assert!(rt; link.receive(&mut [0; 8]) == Came::Failed);
    assert!(rt; link.send(b"more") == Handed::Failed);
}

fn sends<L: Link + Drop>(mut link: L, frame: &[u8]) -> Handed {
    link.send(frame)
}

// Reads a byte, and closes. The bytes after it turn that into a reset.
fn reads_a_byte<R: Wait, S: Socket + Drop>(rt: &R, mut socket: S) -> bool {
    let mut buf = [0; 1];
    for _ in rt.forever() {
        match socket.read(&mut buf) {
            Came::Bytes(_) => return true,
            Came::Idle => thread::yield_now(),
            Came::End | Came::Failed | Came::Memory => return false,
        }
    }
    unreachable!()
}

// A frame that fills both sockets, of which the peer reads a byte: how its send ends.
fn sends_to_a_reset<R>(rt: &R, alloc: Global, ends: SocketPair<SystemSocket>) -> Handed
where
    R: Abort + Threads + Wait + Clock + Sync,
{
    let SocketPair {
        first,
        second,
        first_port,
        second_port,
    } = ends;
    let frame = vec![in alloc; 7u8; 2 * FRAMES * FRAME].expect(rt, "memory");
    let bytes = frame.as_slice();
    let link = SocketLink::new(rt, alloc, first, first_port, second_port);
    let (handed, is_read) = thread::join(
        rt,
        move || sends(link, bytes),
        move || reads_a_byte(rt, second),
    );
    assert!(rt; is_read);
    handed
}

#[test]
fn a_reset_within_a_frame_is_a_failure(rt: HostRuntime) {
    let (network, fault) = loopback(&rt, rt.alloc(), &rt);
    let ends = network.open().expect(&rt, "a connection");
    assert!(rt; sends_to_a_reset(&rt, rt.alloc(), ends) == Handed::Failed);
    assert!(rt; words(&rt, rt.alloc(), &fault).as_str() == RESET);
}

// A system that opens nothing.
#[derive(Drop)]
struct Refusing(io::Error);

impl Net for Refusing {
    type Stream = TcpStream;

    type Listener = TcpListener;

    fn bind(&self, _addr: SocketAddr) -> io::Result<TcpListener> {
        Err(self.0)
    }

    fn connect(&self, _addr: SocketAddr) -> io::Result<TcpStream> {
        Err(self.0)
    }
}

fn is_refused<F: Fabric>(fabric: &mut F) -> bool {
    matches!(fabric.open_pair(1, 2).err(), Some(OpenFault::Failed))
}

// An opening fails and is counted, and these words are noted.
fn assert_refused<R: Abort + Wait + Clock + Sync>(
    rt: &R,
    alloc: Global,
    error: io::Error,
    noted: &str,
) {
    let system = Refusing(error);
    let (network, fault) = loopback(rt, alloc, &system);
    let mut fabric = TcpFabric::new(rt, alloc, network);
    assert!(rt; is_refused(&mut fabric));
    assert!(rt; fabric.failures() == 1);
    assert!(rt; words(rt, alloc, &fault).as_str() == noted);
    discard(fabric);
}

#[test]
fn an_opening_that_is_refused_is_counted(rt: HostRuntime) {
    let system = io::Error::from_raw_os_error(24);
    assert_refused(&rt, rt.alloc(), system, "Too many open files (os error 24)");
    let other = io::Error::from(ErrorKind::AddrInUse);
    assert_refused(&rt, rt.alloc(), other, "");
}
