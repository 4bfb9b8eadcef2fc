//! Lines for the remains of a connection, as far as no run prints them.

use frame_transport::FeedFault;
use mrpc_table::Bytes;
use run_report::{append_cut, append_not_held, append_short, append_waits};
use std::alloc::Global;
use std::process::Abort;

fn lines(rt: &impl Abort, alloc: Global) -> Bytes {
    let mut out = Bytes::new(alloc);
    append_not_held(&mut out, 1, 9).expect(rt, "memory");
    let fault = FeedFault::Kind {
        place: 74,
        value: 9,
    };
    append_cut(&mut out, 1, fault).expect(rt, "memory");
    append_short(&mut out, 2, 94).expect(rt, "memory");
    append_waits(&mut out, 2, 1, 0, 3).expect(rt, "memory");
    out
}

const LEFT: &[u8] = b"notheld 1 9\ncut 1 74 Kind\ncut 2 94 Short\nwaits 2 1 0 3\n";

#[test]
fn lines_of_the_remains_are_written(rt: HostRuntime) {
    let out = lines(&rt, rt.alloc());
    assert!(rt; out.as_slice() == LEFT);
}
