//! A link in memory, whose sends and receives can be made to fail, and whose receives can be made short.

ghost use Rattle.std.specs.Prelude.{◌≡◌, ◌≢◌, ◌<◌, ◌≤◌, ◌↔◌, ◌⊎◌, [], ◌∷◌, ◌++◌, Contains, IsPermutation, IsTrue, length, map, slice_get, take, drop, true, false};
ghost use Rattle.mrpc_base.specs.Failures.{HasCause, raised};
ghost use Rattle.mrpc_base.specs.Links.{OnCame, OnNoneCame};
ghost use Rattle.mrpc_base.specs.Sources.{given_count};

use crate::calls::CallCounter;
use crate::mem_source::{count_to_give, listed_length};
use crate::supply::Supply;
use crate::{Came, Handed, Link};
use std::alloc::Global;
use std::marker::Model;

/// A link in memory. Contracts see it as a `MemLinkState`: the frames sent, the bytes received and those remaining. It also
/// has the lengths and the numbers of failing sends and receives that the link was made with. Further it has how many
/// sends and receives there were and failed, and whether either side has finished.
#[derive(Drop)]
pub struct MemLink {
    alloc: Global,
    handed: Vec<Vec<u8>>,
    incoming: Supply,
    lengths: Vec<usize>,
    sends: CallCounter,
    receives: CallCounter,
    // Sends and receives together.
    failures: u64,
    ended: bool,
    finished: bool,
}

impl Model for MemLink {
    ghost use Rattle.std.specs.Prelude.{map};
    ghost use Rattle.mrpc_base.specs.Links.{MemLinkState};

    ghost Value = { MemLinkState };

    ghost view = { λ l. record {
      handed = map (λ frame. frame.items) l.handed.items;
      given = l.incoming.given;
      left = l.incoming.left;
      lengths = l.lengths.items;
      failing_sends = l.sends.failing;
      failing_receives = l.receives.failing;
      sends = l.sends.calls;
      receives = l.receives.calls;
      failures = l.failures;
      ended = l.ended;
      finished = l.finished;
    } };
}

impl MemLink {
    /// A link that has sent nothing, and has the bytes `incoming` to receive.
    ///
    /// The k-th receive gives at most the k-th of `lengths` bytes, and at length 0 nothing is ready. A receive past
    /// that list fills the buffer as far as it can. The send of each number in `failing_sends`, counted from 1, fails,
    /// and so does the receive of each number in `failing_receives`. A receive checks for a listed failure first, then
    /// for the end of the bytes, and then for a listed length of 0.
    pub fn new(
        alloc: Global,
        incoming: Vec<u8>,
        lengths: Vec<usize>,
        failing_sends: Vec<u64>,
        failing_receives: Vec<u64>,
    ) -> Self
        ensures handed { result.handed ≡ [] }
        ensures given { result.given ≡ [] }
        ensures left { result.left ≡ incoming.items }
        ensures lengths { result.lengths ≡ lengths.items }
        // In ascending order, for the binary search.
        ensures failing_sends { IsPermutation failing_sends.items result.failing_sends }
        ensures failing_receives { IsPermutation failing_receives.items result.failing_receives }
        ensures sends { result.sends ≡ 0 }
        ensures receives { result.receives ≡ 0 }
        ensures failures { result.failures ≡ 0 }
        ensures ended { result.ended ≡ false }
        ensures finished { result.finished ≡ false }
    {
        MemLink {
            alloc,
            handed: Vec::new(alloc),
            incoming: Supply::new(incoming),
            lengths,
            sends: CallCounter::new(failing_sends),
            receives: CallCounter::new(failing_receives),
            failures: 0,
            ended: false,
            finished: false,
        }
    }

    /// The frames that were sent, in order.
    pub fn handed(&self) -> &[Vec<u8>]
        ensures { map (λ frame. frame.items) result.now ≡ self.now.handed }
    {
        &self.handed
    }

    /// The bytes that were not received yet.
    pub fn left(&self) -> &[u8]
        ensures { result.now ≡ self.now.left }
    {
        self.incoming.left()
    }

    /// How many sends and receives failed. It saturates at 2^64 - 1.
    pub fn failures(&self) -> u64
        ensures { result ≡ self.now.failures }
    {
        self.failures
    }

    /// Whether a receive has returned `End`.
    pub fn has_ended(&self) -> bool
        ensures { result ≡ self.now.ended }
    {
        self.ended
    }

    /// Whether the sending side was closed.
    pub fn is_finished(&self) -> bool
        ensures { result ≡ self.now.finished }
    {
        self.finished
    }

    // Counts a send or a receive that failed.
    fn count_failure(&mut self)
        ensures failures { self.new ≡ record self.old { failures = raised self.old.failures } }
        ensures never_falls { self.old.failures ≤ self.new.failures }
    {
        self.failures = self.failures.saturating_add(1);
    }

    // Keeps a copy of a frame.
    fn keep(&mut self, frame: &[u8]) -> Handed
        ensures done { result ≡ Handed.Done
            → self.new ≡ record self.old { handed = self.old.handed ++ frame.now ∷ [] } }
        ensures other { result ≢ Handed.Done → (result ≡ Handed.Memory) × (self.new ≡ self.old) }
    {
        let Ok(copy) = frame.to_vec(self.alloc) else {
            return Handed::Memory;
        };
        match self.handed.push(copy) {
            Ok(()) => Handed::Done,
            Err(_) => Handed::Memory,
        }
    }
}

impl Link for MemLink {
    ghost use Rattle.std.specs.Prelude.{◌≡◌, ◌≢◌, ◌⊎◌, Contains, IsTrue, Some, [], slice_get};

    ghost handed = { λ l. l.handed };

    ghost given = { λ l. Some l.given };

    ghost ended = { λ l. l.ended };

    ghost nothing_ready = { λ old new. (slice_get old.lengths old.receives ≡ Some 0) × (old.left ≢ []) };

    ghost peer_finished = { λ old new. old.left ≡ [] };

    ghost failures = { λ l. l.failures };

    // The lists that it was made with don't change.
    ghost since = { λ old new. (new.lengths ≡ old.lengths) × (new.failing_sends ≡ old.failing_sends)
        × (new.failing_receives ≡ old.failing_receives) };

    ghost use mathlib.Core.Path.{refl};

    ghost itself = { λ _. (refl, refl, refl) };

    // The number of the send is listed, or the sending side was closed.
    ghost refused = { λ old _ new. Contains old.failing_sends new.sends ⊎ IsTrue old.finished };

    fn send(&mut self, frame: &[u8]) -> Handed
        // A send fails exactly if its number is listed, or the sending side was closed.
        ensures fails { (result ≡ Handed.Failed)
            ↔ (Contains self.old.failing_sends self.new.sends ⊎ IsTrue self.old.finished) }

        ensures appended { result ≡ Handed.Done → self.new.handed ≡ self.old.handed ++ frame.now ∷ [] }
        ensures kept { result ≢ Handed.Done → self.new.handed ≡ self.old.handed }

        // The counts, and what is unchanged.
        ensures sends { self.new.sends ≡ raised self.old.sends }
        ensures failures { result ≡ Handed.Failed → self.new.failures ≡ raised self.old.failures }
        ensures cause { HasCause (result ≡ Handed.Failed) self.old.failures self.new.failures }
        ensures same { self.new ≡ record self.old {
          handed = self.new.handed;
          sends = self.new.sends;
          failures = self.new.failures;
        } }
    {
        if self.sends.next() || self.finished {
            self.count_failure();
            return Handed::Failed;
        }
        self.keep(frame)
    }

    fn receive(&mut self, buf: &mut [u8]) -> Came
        requires room { 0 < length buf.old }

        // A receive fails exactly if its number is listed. Otherwise it returns `End` exactly if no bytes remain, and
        // `Idle` exactly if some remain and the listed length is 0.
        ensures fails { (result ≡ Came.Failed) ↔ Contains self.old.failing_receives self.new.receives }
        ensures end { (result ≡ Came.End) ↔ (self.old.left ≡ []) × (result ≢ Came.Failed) }
        ensures idle { (result ≡ Came.Idle) ↔ (slice_get self.old.lengths self.old.receives ≡ Some 0)
            × (self.old.left ≢ []) × (result ≢ Came.Failed) }
        ensures memory { result ≢ Came.Memory }
        ensures exact { OnCame result (λ n.
            n ≡ given_count (slice_get self.old.lengths self.old.receives) (length buf.old) (length self.old.left)) }

        // The bytes received are the next ones.
        ensures count { OnCame result (λ n. (0 < n) × (n ≤ length buf.old)) }
        ensures next { OnCame result (λ n. self.old.left ≡ take n buf.new ++ self.new.left) }
        ensures appended { OnCame result (λ n. self.new.given ≡ self.old.given ++ take n buf.new) }
        ensures behind { OnCame result (λ n. drop n buf.new ≡ drop n buf.old) }
        ensures kept { OnNoneCame result ((self.new.left ≡ self.old.left) × (self.new.given ≡ self.old.given)) }
        ensures untouched { OnNoneCame result (buf.new ≡ buf.old) }

        // The counts, and what is unchanged.
        ensures ends { result ≡ Came.End → IsTrue self.new.ended }
        ensures same_ended { result ≢ Came.End → self.new.ended ≡ self.old.ended }
        ensures receives { self.new.receives ≡ raised self.old.receives }
        ensures failures { result ≡ Came.Failed → self.new.failures ≡ raised self.old.failures }
        ensures cause { HasCause (result ≡ Came.Failed) self.old.failures self.new.failures }
        ensures same { self.new ≡ record self.old {
          given = self.new.given;
          left = self.new.left;
          receives = self.new.receives;
          failures = self.new.failures;
          ended = self.new.ended;
        } }
    {
        let before = self.receives.calls();
        if self.receives.next() {
            self.count_failure();
            return Came::Failed;
        }
        let left = self.incoming.left().len();
        if left == 0 {
            self.ended = true;
            return Came::End;
        }
        let most = listed_length(&self.lengths, before);
        let count = count_to_give(most, buf.len(), left);
        if count == 0 {
            return Came::Idle;
        }
        self.incoming.give(buf, count);
        Came::Bytes(count)
    }

    fn finish(&mut self)
        ensures { self.new ≡ record self.old { finished = true } }
    {
        self.finished = true;
    }
}
