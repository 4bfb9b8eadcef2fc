//! An inner link, as it was and as it is.

ghost use Rattle.std.specs.Prelude.{◌≡◌, ◌≢◌, ◌<◌, ◌≤◌, [], ◌∷◌, ◌++◌, IsTrue, length, take};
ghost use Rattle.std.specs.Io.KnownBytes.{Appends, Keeps};
ghost use Rattle.mrpc_base.specs.Failures.{HasCause};
ghost use Rattle.mrpc_base.specs.Links.{OnCame, OnNoneCame};

use crate::earlier::EarlierLink;
use mrpc_base::{Came, Handed, Link};
use std::marker::Model;

// Contracts see it as a `LinkProgress`: the link as it is now is a later state of the one at the start.
#[derive(Drop)]
pub(crate) struct TrackedLink<L: Link> {
    link: L,
    start: EarlierLink<L>,
}

impl<L: Link> Model for TrackedLink<L> {
    ghost use Rattle.link_queue.specs.Known.{LinkProgress};

    ghost Value = { LinkProgress L };

    ghost view = { λ k. record { start = k.start.value; now = k.link } };

    ghost invariant = { λ k. (first : L) → L.since first k.start.value → L.since first k.link };
}

impl<L: Link> TrackedLink<L> {
    pub(crate) fn new(link: L) -> TrackedLink<L>
        ensures start { result.start ≡ link }
        ensures now { result.now ≡ link }
    {
        let start = EarlierLink::of(&link);
        TrackedLink { link, start }
    }

    pub(crate) fn get(&self) -> &L
        ensures now { result.now ≡ self.now.now }
        ensures same_link { (first : L) → L.since first self.now.start → L.since first result.now }
    {
        &self.link
    }

    pub(crate) fn into_link(self) -> L
        ensures now { result ≡ self.now }
        ensures same_link { (first : L) → L.since first self.start → L.since first result }
    {
        self.link
    }

    pub(crate) fn send(&mut self, frame: &[u8]) -> Handed
        ensures appended { result ≡ Handed.Done → L.handed self.new.now ≡ L.handed self.old.now ++ frame.now ∷ [] }
        ensures kept { result ≢ Handed.Done → L.handed self.new.now ≡ L.handed self.old.now }
        ensures same_given { L.given self.new.now ≡ L.given self.old.now }
        ensures same_ended { L.ended self.new.now ≡ L.ended self.old.now }
        ensures cause { HasCause (result ≡ Handed.Failed) (L.failures self.old.now) (L.failures self.new.now) }
        ensures start { self.new.start ≡ self.old.start }
    {
        self.link.send(frame)
    }

    pub(crate) fn receive(&mut self, buf: &mut [u8]) -> Came
        requires room { 0 < length buf.old }
        ensures count { OnCame result (λ n. (0 < n) × (n ≤ length buf.old)) }
        ensures appended { OnCame result (λ n. Appends (L.given self.old.now) (L.given self.new.now) (take n buf.new)) }
        ensures kept { OnNoneCame result (Keeps (L.given self.old.now) (L.given self.new.now)) }
        ensures ends { result ≡ Came.End → IsTrue (L.ended self.new.now) }
        ensures same_ended { result ≢ Came.End → L.ended self.new.now ≡ L.ended self.old.now }
        ensures same_handed { L.handed self.new.now ≡ L.handed self.old.now }
        ensures cause { HasCause (result ≡ Came.Failed) (L.failures self.old.now) (L.failures self.new.now) }
        ensures start { self.new.start ≡ self.old.start }
    {
        self.link.receive(buf)
    }

    pub(crate) fn finish(&mut self)
        ensures same_handed { L.handed self.new.now ≡ L.handed self.old.now }
        ensures same_given { L.given self.new.now ≡ L.given self.old.now }
        ensures same_ended { L.ended self.new.now ≡ L.ended self.old.now }
        ensures same_faults { L.failures self.new.now ≡ L.failures self.old.now }
        ensures start { self.new.start ≡ self.old.start }
    {
        self.link.finish();
    }
}
