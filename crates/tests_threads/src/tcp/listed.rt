//! A link over a socket with listed results.

use crate::discard;
use crate::tcp::listed_socket::ListedSocket;
use mrpc_base::{Came, Handed, Link};
use std::alloc::Global;
use std::process::Abort;
use std::sync::Wait;
use std::time::Clock;
use tcp_fabric::{SocketLink, WriteResult};

// A link whose socket has these bytes and answers as listed.
fn link<'r, R: Abort>(
    rt: &'r R,
    alloc: Global,
    incoming: &[u8],
    writes: &[WriteResult],
    reads: &[Came],
) -> SocketLink<'r, R, ListedSocket> {
    let incoming = incoming.to_vec(alloc).expect(rt, "memory");
    let writes = writes.to_vec(alloc).expect(rt, "memory");
    let reads = reads.to_vec(alloc).expect(rt, "memory");
    let socket = ListedSocket::new(alloc, incoming, writes, reads);
    SocketLink::new(rt, alloc, socket, 1, 2)
}

fn sends<R: Wait + Clock>(link: &mut SocketLink<R, ListedSocket>, frame: &[u8]) -> bool {
    link.send(frame) == Handed::Done
}

const END: u32 = 1000;

const IDLE: u32 = 2000;

const FAILED: u32 = 3000;

// The next bytes, at most two, as decimal digits; or the result in their place.
fn next<R: Wait + Clock>(link: &mut SocketLink<R, ListedSocket>) -> u32 {
    let mut buf = [0; 2];
    match link.receive(&mut buf) {
        Came::Bytes(1) => u32::from(buf[0]),
        Came::Bytes(_) => u32::from(buf[0])
            .wrapping_mul(10)
            .wrapping_add(u32::from(buf[1])),
        Came::End => END,
        Came::Idle => IDLE,
        Came::Failed | Came::Memory => FAILED,
    }
}

// The bytes that the socket took, as decimal digits.
fn taken<R>(link: &SocketLink<R, ListedSocket>) -> u32 {
    let mut digits = 0u32;
    for byte in link.socket().taken.as_slice() {
        digits = digits.wrapping_mul(10).wrapping_add(u32::from(*byte));
    }
    digits
}

// An operation on a link, and its expected result.
#[derive(Clone, Copy)]
enum LinkStep<'a> {
    // The send of a frame succeeds.
    Sends(&'a [u8]),
    // It fails.
    Fails(&'a [u8]),
    // The next receive has this result.
    Gives(u32),
    // The link is finished.
    Finish,
    // The socket took these bytes so far.
    Taken(u32),
    // This number of calls failed so far.
    Faults(u64),
    // The socket was notified that no more bytes go out.
    Finished,
}

// Whether a step has its expected result.
fn holds<R: Wait + Clock>(link: &mut SocketLink<R, ListedSocket>, step: LinkStep) -> bool {
    match step {
        LinkStep::Sends(frame) => sends(link, frame),
        LinkStep::Fails(frame) => !sends(link, frame),
        LinkStep::Gives(bytes) => next(link) == bytes,
        LinkStep::Finish => {
            link.finish();
            true
        }
        LinkStep::Taken(bytes) => taken(link) == bytes,
        LinkStep::Faults(count) => link.failures() == count,
        LinkStep::Finished => link.socket().finished,
    }
}

// A link whose socket has these bytes and answers as listed goes through these steps.
fn assert_steps<R: Abort + Wait + Clock>(
    rt: &R,
    alloc: Global,
    incoming: &[u8],
    writes: &[WriteResult],
    reads: &[Came],
    steps: &[LinkStep],
) {
    let mut link = link(rt, alloc, incoming, writes, reads);
    assert_all(rt, &mut link, steps);
    discard(link);
}

fn assert_all<R: Abort + Wait + Clock>(
    rt: &R,
    link: &mut SocketLink<R, ListedSocket>,
    steps: &[LinkStep],
) {
    let mut place = 0u32;
    for step in steps {
        assert!(rt; holds(link, *step), "step {place}");
        place = place.wrapping_add(1);
    }
}

#[test]
fn a_frame_goes_out_byte_by_byte(rt: HostRuntime) {
    assert_steps(
        &rt,
        rt.alloc(),
        &[],
        &[
            WriteResult::Took(1),
            WriteResult::Full,
            WriteResult::Took(1),
            WriteResult::Full,
        ],
        &[Came::Idle; 2],
        &[
            LinkStep::Sends(&[1, 2, 3]),
            LinkStep::Sends(&[]),
            LinkStep::Sends(&[4]),
            LinkStep::Taken(1234),
            LinkStep::Faults(0),
        ],
    );
}

#[test]
fn what_comes_while_a_frame_waits_is_received_first(rt: HostRuntime) {
    assert_steps(
        &rt,
        rt.alloc(),
        &[5, 6, 7, 8],
        &[WriteResult::Took(1), WriteResult::Full, WriteResult::Full],
        &[Came::Bytes(2), Came::Bytes(1)],
        &[
            LinkStep::Sends(&[1, 2, 3]),
            LinkStep::Gives(56),
            LinkStep::Gives(7),
            LinkStep::Gives(8),
            LinkStep::Gives(END),
            LinkStep::Gives(END),
        ],
    );
}

#[test]
fn an_end_found_while_a_frame_waits_is_returned_after_the_bytes(rt: HostRuntime) {
    assert_steps(
        &rt,
        rt.alloc(),
        &[5],
        &[WriteResult::Full; 3],
        &[Came::Bytes(1), Came::End],
        &[
            LinkStep::Sends(&[1, 2, 3]),
            LinkStep::Gives(5),
            LinkStep::Gives(END),
            LinkStep::Sends(&[4]),
            LinkStep::Taken(1234),
        ],
    );
}

#[test]
fn a_frame_that_fails_midway_cuts_the_link(rt: HostRuntime) {
    assert_steps(
        &rt,
        rt.alloc(),
        &[5],
        &[WriteResult::Took(2), WriteResult::Failed],
        &[],
        &[
            LinkStep::Fails(&[1, 2, 3]),
            LinkStep::Finished,
            LinkStep::Fails(&[4]),
            LinkStep::Taken(12),
            // After a reset the socket would report that the other side has finished.
            LinkStep::Gives(FAILED),
            LinkStep::Faults(3),
        ],
    );
}

#[test]
fn a_reset_while_a_frame_waits_fails_it(rt: HostRuntime) {
    assert_steps(
        &rt,
        rt.alloc(),
        &[5],
        &[WriteResult::Full; 2],
        &[Came::Bytes(1), Came::Failed],
        &[
            LinkStep::Fails(&[1, 2, 3]),
            LinkStep::Gives(5),
            LinkStep::Gives(FAILED),
            LinkStep::Faults(2),
        ],
    );
}

#[test]
fn a_receive_returns_the_result_of_the_socket(rt: HostRuntime) {
    assert_steps(
        &rt,
        rt.alloc(),
        &[5],
        &[],
        &[Came::Idle, Came::Failed],
        &[
            LinkStep::Gives(IDLE),
            LinkStep::Faults(0),
            LinkStep::Gives(FAILED),
            LinkStep::Gives(FAILED),
            LinkStep::Finish,
            LinkStep::Finished,
            LinkStep::Fails(&[4]),
            LinkStep::Faults(3),
        ],
    );
}
