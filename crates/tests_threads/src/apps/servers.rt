//! Servers.

use crate::apps::port::{AppOutput, CLOSED, open};
use crate::apps::programs::one_reply;
use std::process::Abort;
use std::sync::Wait;

#[test]
fn a_server_replies(rt: HostRuntime) {
    let program = one_reply(&rt, rt.alloc());
    let (app, mut giving, mut taking) = open(&rt, rt.alloc(), 4, false);
    giving.tell(&rt, 5, 1);
    giving.close(&rt);
    assert!(rt; app.server(&rt, &program));
    assert_replied(&rt, &mut taking);
}

fn assert_replied<R: Abort + Wait>(rt: &R, taking: &mut AppOutput) {
    assert!(rt; taking.call(rt) == 2);
    assert!(rt; taking.word(2) == 5000);
    assert!(rt; taking.call(rt) == CLOSED);
    assert!(rt; taking.block(rt) == 5);
    assert!(rt; taking.block(rt) == CLOSED);
}

// A server waits at the same rings as a client, in the same functions.
#[test]
fn a_server_stops_where_it_waits(rt: HostRuntime) {
    let program = one_reply(&rt, rt.alloc());
    let (app, _giving, _taking) = open(&rt, rt.alloc(), 1, true);
    assert!(rt; !app.server(&rt, &program));
}
