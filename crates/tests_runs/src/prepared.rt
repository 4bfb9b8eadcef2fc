//! A fabric whose peers are prepared: what each end receives is fixed at the start.
ghost use Rattle.std.specs.Prelude.{◌≡◌, [], false};

use crate::ends::ReturnedEnds;
use mrpc_base::{Fabric, MemLink, OpenFault};
use std::alloc::Global;
use std::process::Abort;

// What one end of a link receives, in chunks of which lengths, and which of its sends and receives fail,
// counted from 1.
pub(crate) struct PreparedEnd {
    pub bytes: Vec<u8>,
    pub lengths: Vec<usize>,
    pub failing_sends: Vec<u64>,
    pub failing_receives: Vec<u64>,
}

// Written by hand, like that of the fabric below, so that a drop is one call, not a drop of each part.
impl Drop for PreparedEnd {
    fn drop(self) {
        let PreparedEnd {
            bytes: _bytes,
            lengths: _lengths,
            failing_sends: _failing_sends,
            failing_receives: _failing_receives,
        } = self;
    }
}

impl PreparedEnd {
    // An end that receives these bytes, and then the end of the stream.
    pub(crate) fn giving(alloc: Global, bytes: Vec<u8>) -> PreparedEnd {
        PreparedEnd {
            bytes,
            lengths: Vec::new(alloc),
            failing_sends: Vec::new(alloc),
            failing_receives: Vec::new(alloc),
        }
    }

    pub(crate) fn into_link(self, alloc: Global) -> MemLink
        ensures handed { result.handed ≡ [] }
        ensures given { result.given ≡ [] }
        ensures ended { result.ended ≡ false }
        ensures failures { result.failures ≡ 0 }
    {
        let PreparedEnd {
            bytes,
            lengths,
            failing_sends,
            failing_receives,
        } = self;
        MemLink::new(alloc, bytes, lengths, failing_sends, failing_receives)
    }
}

// A fabric that opens one link, with these two ends.
pub(crate) struct PreparedFabric<'r, R> {
    rt: &'r R,
    alloc: Global,
    prepared: Option<(PreparedEnd, PreparedEnd)>,
    ends: ReturnedEnds<MemLink>,
}

impl<'r, R> Drop for PreparedFabric<'r, R> {
    fn drop(self) {
        let PreparedFabric {
            rt: _,
            alloc: _,
            prepared: _prepared,
            ends: _ends,
        } = self;
    }
}

impl<'r, R: Abort> PreparedFabric<'r, R> {
    pub(crate) fn new(
        rt: &'r R,
        alloc: Global,
        first: PreparedEnd,
        second: PreparedEnd,
    ) -> PreparedFabric<'r, R> {
        PreparedFabric {
            rt,
            alloc,
            prepared: Some((first, second)),
            ends: ReturnedEnds::new(alloc),
        }
    }
}

impl<'r, R: Abort> Fabric for PreparedFabric<'r, R> {
    ghost use Rattle.std.specs.Prelude.{⊤};

    type L = MemLink;

    ghost back = { λ f. f.ends.back.items };

    ghost away = { λ f. f.ends.away };

    ghost failures = { λ _. 0 };

    // The ends claim nothing of each other.
    ghost pair = { λ _ _. ⊤ };

    ghost stays_pair = { λ _ _ _ _ _ _ _. tt };

    fn open_pair(&mut self, _a: u32, _b: u32) -> Result<(MemLink, MemLink), OpenFault> {
        let Some((first, second)) = self.prepared.take() else {
            return Err(OpenFault::Memory);
        };
        self.ends.count_pair(self.rt);
        Ok((first.into_link(self.alloc), second.into_link(self.alloc)))
    }

    fn keep(&mut self, conn: u32, link: MemLink) {
        self.ends.keep(self.rt, conn, link);
    }
}
