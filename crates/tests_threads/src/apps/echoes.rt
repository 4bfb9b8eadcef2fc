//! Echoes: one reply, a request whose copy has too many loads, and the stop flag.

ghost use Rattle.std.specs.Prelude.{◌≤◌};

use crate::apps::port::{AppInput, AppOutput, CLOSED, open};
use std::process::Abort;
use std::sync::Wait;

const NESTED: &[u8] = b"message M\nfield 1 repeated message:M m\nmethod 0 S Get M M\n";

// Five messages of ten words each, with eight elements each that are all the next message. The fifth refers
// to a message without elements, whose 32768 copies take far more than 16384 words.
fn word_at(place: u64) -> u64
    requires low { 1 ≤ place }
    requires high { place ≤ 50 }
{
    let within = (place - 1) % 10;
    match within {
        0 => 8,
        1 => place + 1,
        _ => place - within + 10,
    }
}

fn store_messages(giving: &mut AppInput) {
    for place in 1..51u64 {
        giving.store(place, word_at(place));
    }
}

// The first message gets no reply, and the last one, which has no field, gets one.
#[test]
fn a_request_of_too_many_loads_has_no_reply(rt: HostRuntime) {
    let (app, mut giving, mut taking) = open(&rt, rt.alloc(), 4, false);
    store_messages(&mut giving);
    giving.tell(&rt, 1, 1);
    giving.tell(&rt, 2, 51);
    giving.close(&rt);
    assert!(rt; app.echo(&rt, rt.alloc(), NESTED));
    assert_one_reply(&rt, &mut taking);
}

fn assert_one_reply<R: Abort + Wait>(rt: &R, taking: &mut AppOutput) {
    let reply = taking.call(rt);
    assert!(rt; reply < CLOSED);
    assert!(rt; taking.word(reply) == 0);
    assert!(rt; taking.call(rt) == CLOSED);
    assert!(rt; taking.block(rt) == 1);
    assert!(rt; taking.block(rt) == 2);
    assert!(rt; taking.block(rt) == CLOSED);
}

// An echo waits at the same rings as a client, in the same functions.
#[test]
fn an_echo_stops_where_it_waits(rt: HostRuntime) {
    let (app, _giving, _taking) = open(&rt, rt.alloc(), 1, true);
    assert!(rt; !app.echo(&rt, rt.alloc(), NESTED));
}
