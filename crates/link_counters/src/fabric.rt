//! A fabric whose links count frames.
ghost use Rattle.std.specs.Prelude.{◌≡◌, ◌<◌, ◌+◌, [], ◌∷◌, false, IfOk, IsErrOf, IsPermutation, OnErr};
ghost use Rattle.mrpc_base.specs.Failures.{HasCause};
ghost use Rattle.mrpc_base.specs.Links.{IsEmptyIfKnown};

use crate::{CountingLink, FrameCounters};
use mrpc_base::{Fabric, OpenFault};
use std::marker::Model;

/// A fabric whose links count frames. Contracts see it as the fabric inside.
#[derive(Drop)]
pub struct CountingFabric<F: Fabric + Drop> {
    fabric: F,
    tally: FrameCounters,
}

impl<F: Fabric + Drop> Model for CountingFabric<F> {
    ghost Value = { F };

    ghost view = { λ f. f.fabric };
}

impl<F: Fabric + Drop> CountingFabric<F> {
    /// Counts in `tally` the frames on the links of a fabric.
    pub fn new(fabric: F, tally: FrameCounters) -> CountingFabric<F>
        ensures { result ≡ fabric }
    {
        CountingFabric { fabric, tally }
    }
}

impl<F: Fabric + Drop> Fabric for CountingFabric<F> {
    type L = CountingLink<F::L>;

    ghost back = { F.back };

    ghost away = { F.away };

    ghost failures = { F.failures };

    ghost pair = { F.pair };

    ghost stays_pair = { F.stays_pair };

    fn open_pair(
        &mut self,
        a: u32,
        b: u32,
    ) -> Result<(CountingLink<F::L>, CountingLink<F::L>), OpenFault>
        ensures pair { IfOk result (λ ends. F.pair ends.0 ends.1) }
        ensures handed { IfOk result (λ ends. (F.L.Link.handed ends.0 ≡ []) × (F.L.Link.handed ends.1 ≡ [])) }
        ensures given { IfOk result (λ ends. IsEmptyIfKnown (F.L.Link.given ends.0)
            × IsEmptyIfKnown (F.L.Link.given ends.1)) }
        ensures not_ended { IfOk result (λ ends. (F.L.Link.ended ends.0 ≡ false) × (F.L.Link.ended ends.1 ≡ false)) }
        ensures no_faults { IfOk result (λ ends. (F.L.Link.failures ends.0 ≡ 0) × (F.L.Link.failures ends.1 ≡ 0)) }
        ensures away { IfOk result (λ ends. F.away self.new ≡ F.away self.old + 2) }
        ensures same_away { OnErr result (F.away self.new ≡ F.away self.old) }
        ensures back { F.back self.new ≡ F.back self.old }
        ensures cause { HasCause (IsErrOf result OpenFault.Failed) (F.failures self.old) (F.failures self.new) }
    {
        let (Ok(first), Ok(second)) = (self.tally.try_clone(), self.tally.try_clone()) else {
            return Err(OpenFault::Memory);
        };
        match self.fabric.open_pair(a, b) {
            Ok(ends) => Ok((
                CountingLink::new(ends.0, first),
                CountingLink::new(ends.1, second),
            )),
            Err(fault) => Err(fault),
        }
    }

    fn keep(&mut self, conn: u32, link: CountingLink<F::L>)
        requires opened { 0 < F.away self.old }
        ensures back { IsPermutation (F.back self.new) ((conn, link) ∷ F.back self.old) }
        ensures away { F.away self.new + 1 ≡ F.away self.old }
        ensures same_faults { F.failures self.new ≡ F.failures self.old }
    {
        self.fabric.keep(conn, link.into_link());
    }
}
