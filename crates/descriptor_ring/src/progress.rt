//! The progress of a ring, for its other end.

use crate::ring_rule::RingPass;
use std::marker::Model;

/// The progress of a ring when one of its ends made this: the items that were sent and taken, as that end knew them.
/// It may go to any thread, and the other end can observe it. It occupies no bytes. Contracts see it as a `RingProgress`.
#[derive(Drop)]
pub struct Progress<T> {
    pub(crate) pass: RingPass<T>,
}

impl<T> Model for Progress<T> {
    ghost use Rattle.std.specs.Prelude.{◌≡◌, []};
    ghost use Rattle.crossbeam_queue.specs.Passes.{view as known};
    ghost use Rattle.descriptor_ring.specs.Rings.{RingProgress};

    ghost Value = { RingProgress T };

    ghost view = { λ p. record { ring = p.pass.table_id; sent = (known p.pass).sent; taken = (known p.pass).taken } };

    ghost invariant = { λ p. p.pass.me.1 ≡ [] };
}
