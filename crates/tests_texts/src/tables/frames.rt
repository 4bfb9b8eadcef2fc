//! Frames that a link writes into its sink.

use crate::discard;
use frame_transport::ByteLink;
use mrpc_base::{Came, Handed, Link, MemSink};
use std::process::Abort;

// The second send fails.
fn is_sent(rt: &impl Abort, sink: &mut MemSink) {
    let mut link = ByteLink::new(sink);
    assert!(rt; link.send(b"frame") == Handed::Done);
    assert!(rt; link.send(b"next") == Handed::Failed);
    assert!(rt; link.receive(&mut [0; 4]) == Came::End);
    link.finish();
}

fn is_written(rt: &impl Abort, sink: &MemSink) {
    assert!(rt; sink.written() == b"frame".as_slice());
}

#[test]
fn a_link_over_a_sink_writes_its_frames(rt: HostRuntime) {
    let failing = [2].to_vec(rt.alloc()).expect(&rt, "memory");
    let mut sink = MemSink::new(rt.alloc(), failing);
    is_sent(&rt, &mut sink);
    is_written(&rt, &sink);
    discard(sink);
}
