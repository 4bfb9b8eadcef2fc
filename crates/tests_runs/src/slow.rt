//! A fabric in which the second send of one link blocks until a gate is called again.
ghost use Rattle.std.specs.Prelude.{◌≡◌};

use crate::ends::ReturnedEnds;
use crate::gates::{CountingGate, rises_above};
use mrpc_base::{Came, Fabric, Handed, Link, OpenFault};
use std::alloc::Global;
use std::process::Abort;
use std::sync::atomic::{AtomicU64, Ordering};

// A link whose second send, the first after its hello, may wait for the next call of a gate.
#[derive(Drop)]
pub(crate) struct SlowLink<'g, L> {
    inner: L,
    waits: Option<&'g GateWaits>,
    sends: u64,
}

// A gate, how many sends waited for it, and how many of them waited in vain.
#[derive(Drop)]
pub(crate) struct GateWaits {
    pub gate: CountingGate,
    pub sends: AtomicU64,
    pub missed: AtomicU64,
}

impl GateWaits {
    pub(crate) fn new() -> GateWaits {
        GateWaits {
            gate: CountingGate::new(),
            sends: AtomicU64::new(0),
            missed: AtomicU64::new(0),
        }
    }

    // Waits for the next call of the gate.
    fn wait(&self) {
        self.sends.fetch_add(1, Ordering::SeqCst);
        let before = self.gate.calls.load(Ordering::SeqCst);
        if !rises_above(&self.gate.calls, before) {
            self.missed.fetch_add(1, Ordering::SeqCst);
        }
    }
}

impl<'g, L> SlowLink<'g, L> {
    // Counts a send, the second of which waits.
    fn count(&mut self)
        ensures { self.new.inner ≡ self.old.inner }
    {
        self.sends = self.sends.saturating_add(1);
        if let (2, Some(waits)) = (self.sends, self.waits) {
            waits.wait();
        }
    }
}

impl<'g, L: Link> Link for SlowLink<'g, L> {
    ghost handed = { λ l. L.handed l.inner };

    ghost given = { λ l. L.given l.inner };

    ghost ended = { λ l. L.ended l.inner };

    ghost nothing_ready = { λ old new. L.nothing_ready old.inner new.inner };

    ghost peer_finished = { λ old new. L.peer_finished old.inner new.inner };

    ghost failures = { λ l. L.failures l.inner };

    ghost since = { λ old new. L.since old.inner new.inner };

    ghost itself = { λ l. L.itself l.inner };

    ghost refused = { λ old frame new. L.refused old.inner frame new.inner };

    fn send(&mut self, frame: &[u8]) -> Handed {
        self.count();
        self.inner.send(frame)
    }

    fn has_room(&mut self, frames: usize) -> bool {
        self.inner.has_room(frames)
    }

    fn receive(&mut self, buf: &mut [u8]) -> Came {
        self.inner.receive(buf)
    }

    fn finish(&mut self) {
        self.inner.finish();
    }
}

// A fabric over another one. The link of connection 1 waits in its second send.
#[derive(Drop)]
pub(crate) struct SlowFabric<'g, 'r, R, F: Fabric> {
    rt: &'r R,
    inner: F,
    waits: &'g GateWaits,
    ends: ReturnedEnds<SlowLink<'g, F::L>>,
}

impl<'g, 'r, R: Abort, F: Fabric> SlowFabric<'g, 'r, R, F> {
    pub(crate) fn new(
        rt: &'r R,
        alloc: Global,
        inner: F,
        waits: &'g GateWaits,
    ) -> SlowFabric<'g, 'r, R, F> {
        SlowFabric {
            rt,
            inner,
            waits,
            ends: ReturnedEnds::new(alloc),
        }
    }
}

// The end of the connection with this number.
fn end<'g, L>(waits: &'g GateWaits, conn: u32, inner: L) -> SlowLink<'g, L>
    ensures { result.inner ≡ inner }
{
    let waits = if conn == 1 { Some(waits) } else { None };
    SlowLink {
        inner,
        waits,
        sends: 0,
    }
}

impl<'g, 'r, R: Abort, F: Fabric> Fabric for SlowFabric<'g, 'r, R, F> {
    type L = SlowLink<'g, F::L>;

    ghost back = { λ f. f.ends.back.items };

    ghost away = { λ f. f.ends.away };

    ghost failures = { λ f. F.failures f.inner };

    ghost pair = { λ a b. F.pair a.inner b.inner };

    ghost stays_pair = { λ a b c d pair first second.
        F.stays_pair a.inner b.inner c.inner d.inner pair first second };

    fn open_pair(
        &mut self,
        a: u32,
        b: u32,
    ) -> Result<(SlowLink<'g, F::L>, SlowLink<'g, F::L>), OpenFault> {
        let (first, second) = self.inner.open_pair(a, b)?;
        self.ends.count_pair(self.rt);
        Ok((end(self.waits, a, first), end(self.waits, b, second)))
    }

    fn keep(&mut self, conn: u32, link: SlowLink<'g, F::L>) {
        self.ends.keep(self.rt, conn, link);
    }
}
