//! Fabrics, which open links in pairs.

ghost use Rattle.std.specs.Prelude.{◌≡◌, ◌<◌, ◌+◌, ℕ, List, [], ◌∷◌, false, IfOk, OnErr, IsErrOf, IsPermutation};
ghost use Rattle.mrpc_base.specs.Failures.{HasCause};
ghost use Rattle.mrpc_base.specs.Links.{IsEmptyIfKnown};

use crate::Link;

/// Why a pair of links was not opened.
#[derive(Clone, Copy, Debug)]
pub enum OpenFault {
    /// The fabric failed.
    Failed,
    /// Out of memory.
    Memory,
}

/// Opens the links between connections, and takes them back afterwards.
pub trait Fabric {
    /// One end of a connection's link.
    type L: Link + Send + Drop;

    /// The links that were returned, each with its connection number. Their order has no meaning.
    ghost back: { Self → List (ℕ × Self.L) };

    /// How many opened ends were not returned yet.
    ghost away: { Self → ℕ };

    /// A count that rises when an opening fails. It saturates at 2^64 - 1.
    ghost failures: { Self → ℕ };

    /// Two ends belong to one link, whatever calls they have had since.
    ghost pair: { Self.L → Self.L → Type 0 };

    /// Opens the link between connections `a` and `b`, and returns their two ends. It reserves the memory that `keep`
    /// needs for both.
    fn open_pair(&mut self, a: u32, b: u32) -> Result<(Self::L, Self::L), OpenFault>
        ensures pair { IfOk result (λ ends. pair ends.0 ends.1) }
        ensures handed { IfOk result (λ ends. (Self.L.handed ends.0 ≡ []) × (Self.L.handed ends.1 ≡ [])) }
        ensures given { IfOk result (λ ends. IsEmptyIfKnown (Self.L.given ends.0) × IsEmptyIfKnown (Self.L.given ends.1)) }
        ensures not_ended { IfOk result (λ ends. (Self.L.ended ends.0 ≡ false) × (Self.L.ended ends.1 ≡ false)) }
        ensures no_faults { IfOk result (λ ends. (Self.L.failures ends.0 ≡ 0) × (Self.L.failures ends.1 ≡ 0)) }
        ensures away { IfOk result (λ ends. away self.new ≡ away self.old + 2) }
        ensures same_away { OnErr result (away self.new ≡ away self.old) }
        ensures back { back self.new ≡ back self.old }
        ensures cause { HasCause (IsErrOf result OpenFault.Failed) (failures self.old) (failures self.new) };

    /// Takes back an end, as that of connection `conn`, while some opened end is still away. It allocates nothing.
    fn keep(&mut self, conn: u32, link: Self::L)
        requires opened { 0 < away self.old }

        ensures back { IsPermutation (back self.new) ((conn, link) ∷ back self.old) }
        ensures away { away self.new + 1 ≡ away self.old }
        ensures same_faults { failures self.new ≡ failures self.old };

    /// Two ends of one link remain so after any calls on either.
    ghost stays_pair: { (a b c d : Self.L) → pair a b → Self.L.since a c → Self.L.since b d → pair c d };
}
