//! Links, which carry frames.

ghost use Rattle.std.specs.Prelude.{◌≡◌, ◌≢◌, ◌<◌, ◌≤◌, List, [], ◌∷◌, ◌++◌, ℕ, Bool, Option, None, IsTrue, length, take};
ghost use Rattle.std.specs.Io.KnownBytes.{Appends, Keeps};
ghost use Rattle.mrpc_base.specs.Failures.{HasCause};
ghost use Rattle.mrpc_base.specs.Links.{OnCame, OnNoneCame};

/// The result of a send.
#[derive(Clone, Copy, PartialEq, Eq)]
pub enum Handed {
    /// The whole frame was sent.
    Done,
    /// The link failed, and did not send the whole frame.
    Failed,
    /// Out of memory; the frame was not sent.
    Memory,
}

/// The result of a receive.
#[derive(Clone, Copy, PartialEq, Eq)]
pub enum Came {
    /// This many bytes, from 1 to the buffer's length, were written to the start of the buffer.
    Bytes(usize),
    /// Nothing was ready; `nothing_ready` is what the link promises then.
    Idle,
    /// The peer has finished; `peer_finished` is what the link promises then.
    End,
    /// The link failed, and consumed none of the remaining bytes.
    Failed,
    /// Out of memory; none of the remaining bytes were consumed.
    Memory,
}

/// A connection with a peer: it sends frames, and receives bytes.
pub trait Link {
    /// The frames that were sent, in order.
    ghost handed: { Self → List (List ℕ) };

    /// The bytes that were received; `None` if the link doesn't reveal them.
    ghost given: { Self → Option (List ℕ) };

    /// Whether a receive has returned `End`.
    ghost ended: { Self → Bool };

    /// What `Idle` implies about the link before and after the call.
    ghost nothing_ready: { Self → Self → Type 0 };

    /// What `End` implies about the link before and after the call.
    ghost peer_finished: { Self → Self → Type 0 };

    /// A count that rises when a send or a receive fails. It saturates at 2^64 - 1.
    ghost failures: { Self → ℕ };

    /// `since first later`: `later` is a later state of the link `first`. Every call preserves it.
    ghost since: { Self → Self → Type 0 };

    /// Each link is a later state of itself.
    ghost itself: { (link : Self) → since link link };

    /// What a failed send of a frame implies about the link before and after the call.
    ghost refused: { Self → List ℕ → Self → Type 0 };

    /// Sends a frame.
    fn send(&mut self, frame: &[u8]) -> Handed
        ensures appended { result ≡ Handed.Done → handed self.new ≡ handed self.old ++ frame.now ∷ [] }
        ensures kept { result ≢ Handed.Done → handed self.new ≡ handed self.old }
        ensures same_given { given self.new ≡ given self.old }
        ensures same_ended { ended self.new ≡ ended self.old }
        ensures same_link { (first : Self) → since first self.old → since first self.new }
        ensures refused { result ≡ Handed.Failed → refused self.old frame.now self.new }

        ensures cause { HasCause (result ≡ Handed.Failed) (failures self.old) (failures self.new) };

    /// Whether this many frames can be sent without waiting for room. The default returns true. No clause depends on
    /// the result.
    fn has_room(&mut self, _frames: usize) -> bool
        ensures same { self.new ≡ self.old }
    {
        true
    }

    /// Receives the next bytes into the start of `buf`. The bytes of `buf` after them are unspecified.
    fn receive(&mut self, buf: &mut [u8]) -> Came
        requires room { 0 < length buf.old }

        ensures count { OnCame result (λ n. (0 < n) × (n ≤ length buf.old)) }
        ensures appended { OnCame result (λ n. Appends (given self.old) (given self.new) (take n buf.new)) }
        ensures kept { OnNoneCame result (Keeps (given self.old) (given self.new)) }
        // A link that doesn't reveal its bytes never begins to.
        ensures silent { given self.old ≡ None → given self.new ≡ None }
        ensures ends { result ≡ Came.End → IsTrue (ended self.new) }
        ensures same_ended { result ≢ Came.End → ended self.new ≡ ended self.old }
        ensures same_handed { handed self.new ≡ handed self.old }
        ensures same_link { (first : Self) → since first self.old → since first self.new }

        ensures idle { result ≡ Came.Idle → nothing_ready self.old self.new }
        ensures end { result ≡ Came.End → peer_finished self.old self.new }

        ensures cause { HasCause (result ≡ Came.Failed) (failures self.old) (failures self.new) };

    /// Closes the sending side. This cannot fail.
    fn finish(&mut self)
        ensures same_handed { handed self.new ≡ handed self.old }
        ensures same_given { given self.new ≡ given self.old }
        ensures same_ended { ended self.new ≡ ended self.old }
        ensures same_faults { failures self.new ≡ failures self.old }
        ensures same_link { (first : Self) → since first self.old → since first self.new };
}
