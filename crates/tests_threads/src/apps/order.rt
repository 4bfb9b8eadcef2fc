//! An echo beside a service that stores to a block as soon as it is returned: the content of a reply was
//! copied before.

use crate::apps::port::{App, AppInput, AppOutput, open};
use std::alloc::Global;
use std::process::Abort;
use std::sync::Wait;
use std::thread::{Threads, join};

const LIST: &[u8] = b"message M\nfield 1 repeated uint64 a\nmethod 0 S Get M M\n";

// This many elements take a while to copy, and fit a slice.
const ELEMENTS: u64 = 1000;

const ROUNDS: u32 = 64;

// Stores a message with this many elements at place 1. The elements follow it, from place 3 on.
fn store_message(giving: &mut AppInput) {
    giving.store(1, ELEMENTS);
    giving.store(2, 3);
    for place in 3..ELEMENTS + 3 {
        giving.store(place, 1);
    }
}

// Sends notices of requests one by one, each with its number as last element. Stores the next request once
// the block was returned, and counts the replies that have the number.
fn serve<R: Abort + Wait>(rt: &R, mut giving: AppInput, mut taking: AppOutput) -> u32 {
    store_message(&mut giving);
    let mut right = 0u32;
    for number in 1..ROUNDS + 1 {
        giving.store(ELEMENTS + 2, u64::from(number));
        giving.tell(rt, number, 1);
        taking.wait_for_block(rt);
        giving.store(ELEMENTS + 2, 0);
        if last_element(rt, &mut taking) == u64::from(number) {
            right = right.wrapping_add(1);
        }
    }
    giving.close(rt);
    right
}

// The last element of the next reply's message.
fn last_element<R: Wait>(rt: &R, taking: &mut AppOutput) -> u64 {
    let reply = taking.wait_for_call(rt);
    taking.word(reply.saturating_add(ELEMENTS + 1))
}

fn in_two_threads<R: Abort + Threads + Wait + Sync>(
    rt: &R,
    alloc: Global,
    app: App,
    giving: AppInput,
    taking: AppOutput,
) -> (bool, u32) {
    join(
        rt,
        move || app.echo(rt, alloc, LIST),
        move || serve(rt, giving, taking),
    )
}

#[test]
fn a_request_is_copied_before_its_block_is_given_back(rt: HostRuntime) {
    let (app, giving, taking) = open(&rt, rt.alloc(), 1, false);
    let (whole, right) = in_two_threads(&rt, rt.alloc(), app, giving, taking);
    assert!(rt; whole);
    assert!(rt; right == ROUNDS);
}
