//! A fabric of TCP links.
ghost use Rattle.std.specs.Prelude.{◌≡◌, ◌<◌, ◌+◌, ◌≤◌, [], ◌∷◌, false, IfOk, IsErrOf, IsPermutation, OnErr};
ghost use Rattle.mrpc_base.specs.Failures.{HasCause};
ghost use Rattle.mrpc_base.specs.Links.{IsEmptyIfKnown};
ghost use Rattle.tcp_fabric.specs.Link.{AreSocketPair};

use crate::{Network, Socket, SocketLink, SocketPair};
use mrpc_base::{Fabric, OpenFault};
use slab::Slab;
use std::alloc::Global;
use std::marker::Model;
use std::sync::Wait;
use std::time::Clock;

/// A fabric whose links are connections of a network. Contracts see it as a `TcpFabricState`.
#[derive(Drop)]
pub struct TcpFabric<'r, R, N: Network + Drop> {
    rt: &'r R,
    alloc: Global,
    network: N,
    // With capacity for the links in use, too.
    back: Slab<(u32, SocketLink<'r, R, N::S>)>,
    away: usize,
    failures: u64,
}

impl<'r, R, N: Network + Drop> Model for TcpFabric<'r, R, N> {
    ghost use Rattle.slab.specs.Slab.{HasRoomFor, values};
    ghost use Rattle.tcp_fabric.specs.Fabric.{TcpFabricState};

    ghost Value = { TcpFabricState };

    ghost view = { λ f. record { back = values f.back; away = f.away; failures = f.failures } };

    ghost invariant = { λ f. HasRoomFor f.back f.away };
}

impl<'r, R, N: Network + Drop> TcpFabric<'r, R, N> {
    /// A fabric that has opened nothing. Its links wait by `rt`.
    pub fn new(rt: &'r R, alloc: Global, network: N) -> TcpFabric<'r, R, N>
        ensures back { result.back ≡ [] }
        ensures away { result.away ≡ 0 }
        ensures failures { result.failures ≡ 0 }
    {
        TcpFabric {
            rt,
            alloc,
            network,
            back: Slab::new(alloc),
            away: 0,
            failures: 0,
        }
    }

    /// How many openings failed; saturates at 2^64 - 1.
    pub fn failures(&self) -> u64
        ensures { result ≡ self.now.failures }
    {
        self.failures
    }
}

// The links over both ends of a connection.
fn links<'r, R, S: Socket + Drop>(
    rt: &'r R,
    alloc: Global,
    ends: SocketPair<S>,
) -> (SocketLink<'r, R, S>, SocketLink<'r, R, S>)
    requires first { IsEmptyIfKnown (S.taken ends.first) × IsEmptyIfKnown (S.given ends.first) }
    requires second { IsEmptyIfKnown (S.taken ends.second) × IsEmptyIfKnown (S.given ends.second) }
    ensures pair { AreSocketPair result.0 result.1 }
    ensures handed { (result.0.handed ≡ []) × (result.1.handed ≡ []) }
    ensures given { (result.0.given ≡ []) × (result.1.given ≡ []) }
    ensures not_ended { (result.0.ended ≡ false) × (result.1.ended ≡ false) }
    ensures no_faults { (result.0.failures ≡ 0) × (result.1.failures ≡ 0) }
{
    let SocketPair {
        first,
        second,
        first_port,
        second_port,
    } = ends;
    (
        SocketLink::new(rt, alloc, first, first_port, second_port),
        SocketLink::new(rt, alloc, second, second_port, first_port),
    )
}

impl<'r, R: Wait + Clock + Sync, N: Network + Drop> Fabric for TcpFabric<'r, R, N> {
    type L = SocketLink<'r, R, N::S>;

    ghost back = { λ f. f.back };

    ghost away = { λ f. f.away };

    ghost failures = { λ f. f.failures };

    // The local port of each is the peer port of the other.
    ghost pair = { AreSocketPair };

    ghost use mathlib.Core.Path.{sym, ◌∙◌};

    ghost stays_pair = { λ _ _ _ _ pair first second.
        (first.0 ∙ (pair.0 ∙ sym second.1), second.0 ∙ (pair.1 ∙ sym first.1)) };

    fn open_pair(
        &mut self,
        _a: u32,
        _b: u32,
    ) -> Result<(SocketLink<'r, R, N::S>, SocketLink<'r, R, N::S>), OpenFault>
        ensures pair { IfOk result (λ ends. AreSocketPair ends.0 ends.1) }
        ensures handed { IfOk result (λ ends. (ends.0.handed ≡ []) × (ends.1.handed ≡ [])) }
        ensures given { IfOk result (λ ends. (ends.0.given ≡ []) × (ends.1.given ≡ [])) }
        ensures not_ended { IfOk result (λ ends. (ends.0.ended ≡ false) × (ends.1.ended ≡ false)) }
        ensures no_faults { IfOk result (λ ends. (ends.0.failures ≡ 0) × (ends.1.failures ≡ 0)) }
        ensures away { IfOk result (λ ends. self.new.away ≡ self.old.away + 2) }
        ensures same_away { OnErr result (self.new.away ≡ self.old.away) }
        ensures cause { HasCause (IsErrOf result OpenFault.Failed) self.old.failures self.new.failures }
        ensures same { self.new ≡ record self.old { away = self.new.away; failures = self.new.failures } }
    {
        if self.away > usize::MAX - 2 || self.back.reserve(self.away + 2).is_err() {
            return Err(OpenFault::Memory);
        }
        let Ok(ends) = self.network.open() else {
            self.failures = self.failures.saturating_add(1);
            return Err(OpenFault::Failed);
        };
        self.away += 2;
        Ok(links(self.rt, self.alloc, ends))
    }

    fn keep(&mut self, conn: u32, link: SocketLink<'r, R, N::S>)
        requires opened { 0 < self.old.away }
        ensures back { IsPermutation self.new.back ((conn, link.entry) ∷ self.old.back) }
        ensures away { self.new.away + 1 ≡ self.old.away }
        ensures same { self.new ≡ record self.old { back = self.new.back; away = self.new.away } }
    {
        self.back.insert_reserved((conn, link));
        self.away -= 1;
    }
}
