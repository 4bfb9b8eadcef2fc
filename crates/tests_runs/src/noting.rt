//! A fabric whose links record the bytes that they were handed, and those that they returned.
ghost use Rattle.std.specs.Prelude.{◌≡◌};

use crate::discard;
use crate::ends::ReturnedEnds;
use crate::gates::CountingGate;
use crate::runs::{ONE_CALL, plan_of};
use crate::threads::memory;
use mrpc_base::{Came, Fabric, FixedClock, Handed, Link, OpenFault};
use run_driver::serve_plan;
use std::alloc::Global;
use std::process::Abort;
use std::sync::Wait;
use std::thread::Threads;

// A link over another one, with the bytes of the frames that were sent, and the bytes that were received.
#[derive(Drop)]
struct NotingLink<'r, R, L> {
    rt: &'r R,
    inner: L,
    handed: Vec<u8>,
    given: Vec<u8>,
}

impl<'r, R: Abort + Sync, L: Link> Link for NotingLink<'r, R, L> {
    ghost handed = { λ l. L.handed l.inner };

    ghost given = { λ l. L.given l.inner };

    ghost ended = { λ l. L.ended l.inner };

    ghost nothing_ready = { λ old new. L.nothing_ready old.inner new.inner };

    ghost peer_finished = { λ old new. L.peer_finished old.inner new.inner };

    ghost failures = { λ l. L.failures l.inner };

    ghost since = { λ old new. L.since old.inner new.inner };

    ghost itself = { λ l. L.itself l.inner };

    ghost refused = { λ old frame new. L.refused old.inner frame new.inner };

    fn send(&mut self, frame: &[u8]) -> Handed {
        self.handed
            .extend_from_slice(frame)
            .expect(self.rt, "memory");
        self.inner.send(frame)
    }

    fn receive(&mut self, buf: &mut [u8]) -> Came {
        let came = self.inner.receive(buf);
        if let Came::Bytes(count) = came {
            self.given
                .extend_from_slice(&buf[..count])
                .expect(self.rt, "memory");
        }
        came
    }

    fn finish(&mut self) {
        self.inner.finish();
    }
}

// A fabric over another one, whose links it wraps like this.
#[derive(Drop)]
struct NotingFabric<'r, R, F: Fabric> {
    rt: &'r R,
    alloc: Global,
    inner: F,
    ends: ReturnedEnds<NotingLink<'r, R, F::L>>,
}

// An end with nothing recorded.
fn end<'r, R, L>(rt: &'r R, alloc: Global, inner: L) -> NotingLink<'r, R, L>
    ensures { result.inner ≡ inner }
{
    NotingLink {
        rt,
        inner,
        handed: Vec::new(alloc),
        given: Vec::new(alloc),
    }
}

impl<'r, R: Abort + Sync, F: Fabric> Fabric for NotingFabric<'r, R, F> {
    type L = NotingLink<'r, R, F::L>;

    ghost back = { λ f. f.ends.back.items };

    ghost away = { λ f. f.ends.away };

    ghost failures = { λ f. F.failures f.inner };

    ghost pair = { λ a b. F.pair a.inner b.inner };

    ghost stays_pair = { λ a b c d pair first second.
        F.stays_pair a.inner b.inner c.inner d.inner pair first second };

    fn open_pair(
        &mut self,
        a: u32,
        b: u32,
    ) -> Result<(NotingLink<'r, R, F::L>, NotingLink<'r, R, F::L>), OpenFault> {
        let (first, second) = self.inner.open_pair(a, b)?;
        self.ends.count_pair(self.rt);
        Ok((
            end(self.rt, self.alloc, first),
            end(self.rt, self.alloc, second),
        ))
    }

    fn keep(&mut self, conn: u32, link: NotingLink<'r, R, F::L>) {
        self.ends.keep(self.rt, conn, link);
    }
}

// The frames of a request with 150 and of its reply.
const REQUEST: &[u8] = b"\0\0\0\x03\x01\x01\0\0\0\0\0\x01\0\0\0\x01\x08\x96\x01";

const REPLY: &[u8] = b"\0\0\0\x03\x02\x01\0\0\0\0\0\x02\0\0\0\x01\x08\x96\x01";

// An end of connection 1 received the reply, and one of connection 2 the request.
fn is_given<'r, R, L>(rt: &impl Abort, end: &(u32, NotingLink<'r, R, L>)) {
    let frame = if end.0 == 1 { REPLY } else { REQUEST };
    assert!(rt; end.1.given.ends_with(frame));
}

// What each end received is what the other was handed.
fn are_noted<'r, R, L>(rt: &impl Abort, ends: &[(u32, NotingLink<'r, R, L>)]) {
    assert!(rt; ends.len() == 2);
    is_given(rt, &ends[0]);
    is_given(rt, &ends[1]);
    assert!(rt; ends[0].0 != ends[1].0);
    assert!(rt; ends[0].1.given.as_slice() == ends[1].1.handed.as_slice());
    assert!(rt; ends[1].1.given.as_slice() == ends[0].1.handed.as_slice());
}

// Runs one call over a fabric. The fabric is owned here: what dropping a value does is proved in each
// function that drops one.
fn assert_noted<R: Abort + Threads + Wait + Sync, F: Fabric + Drop>(
    rt: &R,
    alloc: Global,
    inner: F,
) {
    let mut fabric = NotingFabric {
        rt,
        alloc,
        inner,
        ends: ReturnedEnds::new(alloc),
    };
    let plan = plan_of(rt, alloc, "", ONE_CALL);
    let run = serve_plan(
        rt,
        alloc,
        &plan,
        &mut fabric,
        &FixedClock(0),
        &CountingGate::new(),
    );
    assert!(rt; run.is_ok());
    discard(plan);
    are_noted(rt, fabric.ends.back.as_slice());
}

#[test]
fn each_end_gives_what_its_peer_was_handed(rt: HostRuntime) {
    assert_noted(&rt, rt.alloc(), memory(&rt, rt.alloc()));
}
