//! Frames that become messages in a heap.

use crate::given::{NUMBERS, SMALL};
use crate::receiver::{Observed, Scene};
use frame_transport::FeedFault;
use receive_core::DropCause;
use receive_heap::{Block, NotHeld};
use std::alloc::Global;
use std::process::Abort;
use std::slice;
use wire_decode::DecodeReason;

// A request with 150 in its field.
const REQUEST: &[u8] = b"\0\0\0\x03\x01\x01\0\0\0\0\0\x01\0\0\0\x01\x08\x96\x01";

// The same request, and another with 7.
const TWO_REQUESTS: &[u8] =
    b"\0\0\0\x03\x01\x01\0\0\0\0\0\x01\0\0\0\x01\x08\x96\x01\0\0\0\x02\x01\x01\0\0\0\0\0\x01\0\0\0\x02\x08\x07";

// A request whose message takes five words.
const LONG_REQUEST: &[u8] =
    b"\0\0\0\x08\x01\x01\0\0\0\0\0\x01\0\0\0\x01\x32\x06\x03\x8e\x02\x9e\xa7\x05";

// A hello, a request of an unknown method, one whose payload ends inside a record, and a reply to no request.
const DROPPED: &[u8] = b"\0\0\0\0\x03\x02\0\0\0\0\0\x01\0\0\0\0\
    \0\0\0\0\x01\x01\0\x07\0\0\0\x01\0\0\0\x02\
    \0\0\0\x01\x01\x01\0\0\0\0\0\x01\0\0\0\x03\x08\
    \0\0\0\x02\x02\x01\0\0\0\0\0\x01\0\0\0\0\x08\x07";

// A block at the first place.
fn first_block(number: u64, words: u64) -> Block {
    Block {
        number,
        at: 1,
        words,
    }
}

// Feeds a request byte by byte; whether there is no fault so far.
fn feed_bytes(scene: &mut Scene) -> bool {
    for byte in REQUEST {
        if !scene.feed(slice::from_ref(byte)) {
            return false;
        }
    }
    true
}

#[test]
fn a_frame_waits_for_a_hole(rt: HostRuntime) {
    let mut scene = Scene::open(&rt, rt.alloc(), SMALL, 4);
    assert!(rt; feed_bytes(&mut scene));
    assert!(rt; feed_bytes(&mut scene));
    scene.expects(&rt, Observed::Arrived(1, first_block(1, 2)));
    let waiting = Observed::Waiting {
        need: 2,
        largest: 1,
    };
    scene.expects(&rt, waiting);
    scene.expects(&rt, waiting);
    assert!(rt; scene.reclaim(1).is_ok());
    scene.expects(&rt, Observed::Arrived(1, first_block(2, 2)));
    assert!(rt; matches!(scene.reclaim(1), Err(NotHeld { number: 1 })));
    scene.expects(&rt, Observed::Nothing);
}

#[test]
fn a_message_of_five_words_is_too_large_for_a_heap_of_four(rt: HostRuntime) {
    let mut scene = Scene::open(&rt, rt.alloc(), NUMBERS, 4);
    assert!(rt; scene.feed(LONG_REQUEST));
    let why = DropCause::Oversize { need: 5, words: 4 };
    scene.expects(&rt, Observed::Dropped(1, why));
    scene.expects(&rt, Observed::Nothing);
}

#[test]
fn a_message_is_too_large_by_a_word(rt: HostRuntime) {
    let mut scene = Scene::open(&rt, rt.alloc(), NUMBERS, 5);
    assert!(rt; scene.feed(LONG_REQUEST));
    let why = DropCause::Oversize { need: 5, words: 5 };
    scene.expects(&rt, Observed::Dropped(1, why));
    let mut scene = Scene::open(&rt, rt.alloc(), NUMBERS, 6);
    assert!(rt; scene.feed(LONG_REQUEST));
    scene.expects(&rt, Observed::Arrived(1, first_block(1, 5)));
}

#[test]
fn frames_are_dropped_by_their_first_cause(rt: HostRuntime) {
    let mut scene = Scene::open(&rt, rt.alloc(), SMALL, 16);
    assert!(rt; scene.feed(DROPPED));
    scene.expects(&rt, Observed::Dropped(0, DropCause::Hello));
    scene.expects(&rt, Observed::Dropped(2, DropCause::NoMethod));
    let why = DropCause::Decode {
        reason: DecodeReason::Short,
        place: 1,
    };
    scene.expects(&rt, Observed::Dropped(3, why));
    scene.expects(&rt, Observed::Arrived(2, first_block(1, 2)));
}

#[test]
fn the_policy_of_the_turn_counts(rt: HostRuntime) {
    let mut scene = Scene::open(&rt, rt.alloc(), SMALL, 4);
    assert!(rt; scene.feed(REQUEST));
    assert!(rt; scene.feed(REQUEST));
    scene.expects(&rt, Observed::Arrived(1, first_block(1, 2)));
    let waiting = Observed::Waiting {
        need: 2,
        largest: 1,
    };
    scene.expects(&rt, waiting);
    let denied = Observed::Dropped(1, DropCause::Denied { rule: 0 });
    scene.expects_under(&rt, rt.alloc(), b"default deny", denied);
    scene.expects(&rt, Observed::Nothing);
}

// Two frames whose bytes come in two parts, split at an offset, arrive, and nothing else.
fn check_cut(rt: &impl Abort, alloc: Global, at: usize) {
    let second = Block {
        number: 2,
        at: 3,
        words: 2,
    };
    let mut scene = Scene::open(rt, alloc, SMALL, 16);
    let (front, back) = TWO_REQUESTS.split_at(at.min(TWO_REQUESTS.len()));
    assert!(rt; scene.feed(front));
    assert!(rt; scene.feed(back));
    scene.expects(rt, Observed::Arrived(1, first_block(1, 2)));
    scene.expects(rt, Observed::Arrived(1, second));
    scene.expects(rt, Observed::Nothing);
}

#[test]
fn a_stream_may_be_cut_anywhere(rt: HostRuntime) {
    for at in 0..TWO_REQUESTS.len() + 1 {
        check_cut(&rt, rt.alloc(), at);
    }
}

#[test]
fn frames_wait_and_unframed_bytes_remain(rt: HostRuntime) {
    let mut scene = Scene::open(&rt, rt.alloc(), SMALL, 16);
    assert!(rt; scene.feed(TWO_REQUESTS));
    assert!(rt; scene.feed(b"\0\0\x01"));
    assert!(rt; matches!(scene.waiting(1), Some((1, 0, 2))));
    assert!(rt; scene.waiting(2).is_none());
    assert!(rt; scene.unframed_bytes() == 3);
}

#[test]
fn a_fault_comes_after_the_frames_before_it(rt: HostRuntime) {
    let mut scene = Scene::open(&rt, rt.alloc(), SMALL, 16);
    assert!(rt; scene.feed(REQUEST));
    assert!(rt; !scene.feed(b"\0\x04\0\x01\x01"));
    scene.expects(&rt, Observed::Arrived(1, first_block(1, 2)));
    scene.expects(&rt, Observed::Nothing);
}

// A request, followed by a header of kind 4.
const FAULTY: &[u8] =
    b"\0\0\0\x03\x01\x01\0\0\0\0\0\x01\0\0\0\x01\x08\x96\x01\0\0\0\0\x04\x01\0\0\0\0\0\x01\0\0\0\x02";

// The fault of kind 4, after the request and the four bytes of the length.
fn is_kind_four(fault: Option<FeedFault>) -> bool {
    matches!(
        fault,
        Some(FeedFault::Kind {
            place: 23,
            value: 4
        })
    )
}

// A stream with a fault comes in two parts, split at an offset. Its fault is returned with the part that has
// the kind, and again from then on; the request before it arrives.
fn check_faulty_cut(rt: &impl Abort, alloc: Global, at: usize) {
    let mut scene = Scene::open(rt, alloc, SMALL, 16);
    let (front, back) = FAULTY.split_at(at.min(FAULTY.len()));
    let first = scene.fault_at(front);
    assert!(rt; first.is_some() == (at > 23));
    assert!(rt; first.is_none() || is_kind_four(first));
    assert!(rt; is_kind_four(scene.fault_at(back)));
    assert!(rt; is_kind_four(scene.fault_at(b"")));
    scene.expects(rt, Observed::Arrived(1, first_block(1, 2)));
    scene.expects(rt, Observed::Nothing);
    assert!(rt; is_kind_four(scene.fault_at(REQUEST)));
    scene.expects(rt, Observed::Nothing);
}

#[test]
fn a_stream_with_a_fault_may_be_cut_anywhere(rt: HostRuntime) {
    for at in 0..FAULTY.len() + 1 {
        check_faulty_cut(&rt, rt.alloc(), at);
    }
}

#[test]
fn a_leading_hello_is_taken(rt: HostRuntime) {
    let mut scene = Scene::open(&rt, rt.alloc(), SMALL, 16);
    assert!(rt; scene.take_hello().is_none());
    assert!(rt; scene.feed(b"\0\0\0\x02\x03\x02\0\0\0\0\0\x01\0\0\0\0hi"));
    assert!(rt; scene.feed(REQUEST));
    assert!(rt; scene.first_version() == Some(2));
    assert!(rt; scene.take_hello() == Some((2, 2)));
    assert!(rt; scene.first_version() == Some(1));
    assert!(rt; scene.take_hello().is_none());
    scene.expects(&rt, Observed::Arrived(1, first_block(1, 2)));
}
