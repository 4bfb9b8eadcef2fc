//! A link over a sink: it writes the frames that are sent, and receives nothing.
ghost use Rattle.std.specs.Prelude.{◌≡◌, ◌≢◌, ◌≤◌, [], ◌∷◌, ◌++◌, length, IsTrue, true, false};
ghost use Rattle.std.specs.Io.KnownBytes.{Appends};
ghost use Rattle.mrpc_base.specs.Failures.{HasCause};
ghost use Rattle.mrpc_base.specs.Sinks.{HasAppendedPrefix};
ghost use Rattle.frame_transport.specs.Links.{sink_of, sink_name, link_frames, has_ended, failures_of, IsLater, IsFailedSend};

use crate::handed::HandedFrames;
use mrpc_base::{Came, Handed, Link, Sink, write_all};

/// A link over a sink. Each write passes all the remaining bytes of the frame, until the whole frame is written.
/// `receive` returns `End`, since a sink gives no bytes.
#[derive(Drop)]
pub struct ByteLink<'a, W> {
    sink: &'a mut W,
    handed: HandedFrames,
    // How many sends have failed. It saturates at 2^64 - 1.
    failures: u64,
    ended: bool,
}

impl<'a, W: Sink> ByteLink<'a, W> {
    /// A link that has sent nothing. When it is dropped, the sink stays as the link left it.
    pub fn new(sink: &'a mut W) -> ByteLink<'a, W>
        ensures same_sink { sink_name result ≡ sink.entry.ghost_name }
        ensures untouched { sink_of result ≡ sink.old }
        ensures handed { link_frames result ≡ [] }
        ensures failures { failures_of result ≡ 0 }
        ensures ended { has_ended result ≡ false }
    {
        ByteLink {
            sink,
            handed: HandedFrames::new(),
            failures: 0,
            ended: false,
        }
    }
}

impl<W: Sink> Link for ByteLink<'_, W> {
    ghost use Rattle.std.specs.Prelude.{Some, ⊤};

    ghost handed = { link_frames };

    // No byte is ever received.
    ghost given = { λ _. Some [] };

    ghost ended = { has_ended };

    // It never returns `Idle`, and `End` implies nothing about a peer.
    ghost nothing_ready = { λ _ _. ⊥ };

    ghost peer_finished = { λ _ _. ⊤ };

    ghost failures = { failures_of };

    // A later state writes to the same sink. The sink gained the frames sent since, as long as no send failed.
    ghost since = { IsLater W.written W.failures };

    ghost use Rattle.frame_transport.specs.Links.{link-itself};

    ghost itself = { link-itself W.written W.failures };

    // A proper prefix of the frame is written, since a write failed.
    ghost refused = { IsFailedSend W.written W.failures };

    fn send(&mut self, frame: &[u8]) -> Handed
        // The whole frame is written, or a write failed and a proper prefix of the frame is written.
        ensures done { result ≡ Handed.Done
            → Appends (W.written (sink_of self.old)) (W.written (sink_of self.new)) frame.now }
        ensures front { result ≡ Handed.Failed
            → HasAppendedPrefix (W.written (sink_of self.old)) (W.written (sink_of self.new)) frame.now }
        ensures memory { result ≢ Handed.Memory }
        // An empty frame makes no write.
        ensures empty { length frame.now ≡ 0 → (result ≡ Handed.Done) × (sink_of self.new ≡ sink_of self.old) }

        ensures appended { result ≡ Handed.Done → link_frames self.new ≡ link_frames self.old ++ frame.now ∷ [] }
        ensures kept { result ≢ Handed.Done → link_frames self.new ≡ link_frames self.old }
        ensures same_ended { has_ended self.new ≡ has_ended self.old }
        ensures same_sink { sink_name self.new ≡ sink_name self.old }

        ensures cause { HasCause (result ≡ Handed.Failed) (W.failures (sink_of self.old)) (W.failures (sink_of self.new)) }
        ensures counted { HasCause (result ≡ Handed.Failed) (failures_of self.old) (failures_of self.new) }
        ensures raised { result ≡ Handed.Failed → failures_of self.new ≢ 0 }
    {
        if !write_all(self.sink, frame) {
            self.failures = self.failures.saturating_add(1);
            return Handed::Failed;
        }
        self.handed = HandedFrames::with(&self.handed, frame);
        Handed::Done
    }

    fn receive(&mut self, _buf: &mut [u8]) -> Came
        ensures end { result ≡ Came.End }
        ensures ended { IsTrue (has_ended self.new) }
        ensures same_handed { link_frames self.new ≡ link_frames self.old }
        ensures same_failures { failures_of self.new ≡ failures_of self.old }
        ensures untouched { sink_of self.new ≡ sink_of self.old }
        ensures same_sink { sink_name self.new ≡ sink_name self.old }
    {
        self.ended = true;
        Came::End
    }

    // A sink has no sending side to close.
    fn finish(&mut self)
        ensures { self.new ≡ self.old }
    {}
}
