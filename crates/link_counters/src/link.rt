//! A link that counts frames.
ghost use Rattle.std.specs.Prelude.{◌≡◌, ◌≢◌, ◌<◌, ◌≤◌, None, [], ◌∷◌, ◌++◌, IsTrue, length, take};
ghost use Rattle.std.specs.Io.KnownBytes.{Appends, Keeps};
ghost use Rattle.mrpc_base.specs.Failures.{HasCause};
ghost use Rattle.mrpc_base.specs.Links.{OnCame, OnNoneCame};

use crate::{FrameCounters, FrameScanner};
use mrpc_base::{Came, Handed, Link};
use std::marker::Model;

/// A link whose frames are counted. Contracts see it as the link inside.
#[derive(Drop)]
pub struct CountingLink<L: Link + Drop> {
    link: L,
    tally: FrameCounters,
    came: FrameScanner,
}

impl<L: Link + Drop> Model for CountingLink<L> {
    ghost Value = { L };

    ghost view = { λ l. l.link };
}

impl<L: Link + Drop> CountingLink<L> {
    /// Counts in `tally` the frames on a link on which nothing was received yet.
    pub fn new(link: L, tally: FrameCounters) -> CountingLink<L>
        ensures { result ≡ link }
    {
        CountingLink {
            link,
            tally,
            came: FrameScanner::new(),
        }
    }

    /// The link inside.
    pub fn into_link(self) -> L
        ensures { result ≡ self }
    {
        let CountingLink {
            link,
            tally: _tally,
            came: _,
        } = self;
        link
    }
}

impl<L: Link + Drop> Link for CountingLink<L> {
    ghost handed = { L.handed };

    ghost given = { L.given };

    ghost ended = { L.ended };

    ghost nothing_ready = { L.nothing_ready };

    ghost peer_finished = { L.peer_finished };

    ghost failures = { L.failures };

    ghost since = { L.since };

    ghost itself = { L.itself };

    ghost refused = { L.refused };

    fn send(&mut self, frame: &[u8]) -> Handed
        ensures appended { result ≡ Handed.Done → L.handed self.new ≡ L.handed self.old ++ frame.now ∷ [] }
        ensures kept { result ≢ Handed.Done → L.handed self.new ≡ L.handed self.old }
        ensures same_given { L.given self.new ≡ L.given self.old }
        ensures same_ended { L.ended self.new ≡ L.ended self.old }
        ensures same_link { (first : L) → L.since first self.old → L.since first self.new }
        ensures refused { result ≡ Handed.Failed → L.refused self.old frame.now self.new }
        ensures cause { HasCause (result ≡ Handed.Failed) (L.failures self.old) (L.failures self.new) }
    {
        let handed = self.link.send(frame);
        if handed == Handed::Done {
            self.tally.count_sent();
        }
        handed
    }

    fn has_room(&mut self, frames: usize) -> bool
        ensures same { self.new ≡ self.old }
    {
        self.link.has_room(frames)
    }

    fn receive(&mut self, buf: &mut [u8]) -> Came
        requires room { 0 < length buf.old }
        ensures count { OnCame result (λ n. (0 < n) × (n ≤ length buf.old)) }
        ensures appended { OnCame result (λ n. Appends (L.given self.old) (L.given self.new) (take n buf.new)) }
        ensures kept { OnNoneCame result (Keeps (L.given self.old) (L.given self.new)) }
        ensures silent { L.given self.old ≡ None → L.given self.new ≡ None }
        ensures ends { result ≡ Came.End → IsTrue (L.ended self.new) }
        ensures same_ended { result ≢ Came.End → L.ended self.new ≡ L.ended self.old }
        ensures same_handed { L.handed self.new ≡ L.handed self.old }
        ensures same_link { (first : L) → L.since first self.old → L.since first self.new }
        ensures idle { result ≡ Came.Idle → L.nothing_ready self.old self.new }
        ensures end { result ≡ Came.End → L.peer_finished self.old self.new }
        ensures cause { HasCause (result ≡ Came.Failed) (L.failures self.old) (L.failures self.new) }
    {
        let came = self.link.receive(buf);
        if let Came::Bytes(count) = came {
            self.tally.count_received(self.came.scan(&buf[..count]));
        }
        came
    }

    fn finish(&mut self)
        ensures same_handed { L.handed self.new ≡ L.handed self.old }
        ensures same_given { L.given self.new ≡ L.given self.old }
        ensures same_ended { L.ended self.new ≡ L.ended self.old }
        ensures same_faults { L.failures self.new ≡ L.failures self.old }
        ensures same_link { (first : L) → L.since first self.old → L.since first self.new }
    {
        self.link.finish();
    }
}
