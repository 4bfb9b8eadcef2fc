//! The link whose frames a writer forwards.

ghost use Rattle.std.specs.Prelude.{◌≡◌, ◌≢◌, ◌<◌, ◌≤◌, ◌+◌, ◌↔◌, [], ◌∷◌, ◌++◌, IsTrue, length, take, true, false};
ghost use mathlib.Core.List.{IsPrefix};
ghost use Rattle.mrpc_base.specs.Failures.{HasCause, raised};
ghost use Rattle.mrpc_base.specs.Links.{OnCame, OnNoneCame};
ghost use Rattle.spsc_queue.specs.Ends.{pushed_of, popped_of, known_pushed_of, capacity_of, free_of, producer_queue, consumer_queue};

use crate::orders::{Health, News, Order};
use mrpc_base::{Came, Handed, Link};
use mrpc_table::Bytes;
use spsc_queue::{Consumer, Piece, PieceReader, Producer, ReadResult};
use std::alloc::Global;
use std::marker::Model;
use std::sync::Wait;

// The slots that a queue has besides those for frames: for the sentinels of the end and of closing.
pub(crate) const SENTINEL_SLOTS: usize = 2;

/// A link whose frames a [`QueueWriter`](crate::QueueWriter) forwards. Contracts see it as a `QueueLinkState`. A frame
/// counts as sent once it is in the queue.
pub struct QueueLink<'r, R: Wait> {
    rt: &'r R,
    alloc: Global,
    // The most frames in the queue. The queue has further slots for the sentinels.
    most: usize,
    out: Producer<Piece<Order>>,
    incoming: PieceReader<News>,
    // What it knows of the inner link.
    health: Health,
    failures: u64,
    finished: bool,
    ended: bool,
}

// Dropping a link closes it, so that its writer ends.
impl<'r, R: Wait> Drop for QueueLink<'r, R> {
    fn drop(self) {
        let _passed = self.close();
    }
}

impl<'r, R: Wait> Model for QueueLink<'r, R> {
    ghost use Rattle.spsc_queue.specs.Ends.{pushed_of, capacity_of, free_of, producer_queue};
    ghost use Rattle.spsc_queue.specs.Pieces.{bytes_of_pieces, frames_of_pieces};
    ghost use Rattle.spsc_queue.specs.Readers.{delivered_by, popped_by, known_pushed_by, reader_queue};
    ghost use Rattle.link_queue.specs.Sentinels.{IsQueueing, IsReceivingBack};
    ghost use Rattle.link_queue.specs.Queueing.{QueueLinkState};

    ghost Value = { QueueLinkState };

    ghost view = { λ l. record {
      handed = frames_of_pieces (pushed_of l.out);
      finished = l.finished;
      given = delivered_by l.incoming;
      ended = l.ended;
      told = bytes_of_pieces (known_pushed_by l.incoming);
      most = l.most;
      health = l.health;
      failures = l.failures;
      forward = producer_queue l.out;
      backward = reader_queue l.incoming;
    } };

    ghost invariant = { λ l. IsQueueing l.most (capacity_of l.out) (free_of l.out) (pushed_of l.out) l.finished
        × IsReceivingBack (popped_by l.incoming) (delivered_by l.incoming) l.ended l.health l.failures };
}

impl<'r, R: Wait> QueueLink<'r, R> {
    pub(crate) fn new(
        rt: &'r R,
        alloc: Global,
        most: usize,
        out: Producer<Piece<Order>>,
        incoming: Consumer<Piece<News>>,
    ) -> QueueLink<'r, R>
        requires places { capacity_of out ≡ most + 2 }
        requires free { 2 ≤ free_of out }
        requires put { pushed_of out ≡ [] }
        requires taken { popped_of incoming ≡ [] }
        requires told { known_pushed_of incoming ≡ [] }
        ensures handed { result.handed ≡ [] }
        ensures finished { result.finished ≡ false }
        ensures given { result.given ≡ [] }
        ensures ended { result.ended ≡ false }
        ensures told_nothing { result.told ≡ [] }
        ensures most { result.most ≡ most }
        ensures health { result.health ≡ Health.Working }
        ensures failures { result.failures ≡ 0 }
        ensures forward { result.forward ≡ producer_queue out }
        ensures backward { result.backward ≡ consumer_queue incoming }
    {
        QueueLink {
            rt,
            alloc,
            most,
            out,
            incoming: PieceReader::new(alloc, incoming),
            health: Health::Working,
            failures: 0,
            finished: false,
            ended: false,
        }
    }

    /// Closes the link. The closing sentinel has a slot of its own, so this never waits for room.
    pub fn close(self) -> ClosedQueueLink
        ensures handed { result.handed ≡ self.entry.handed }
        ensures given { result.given ≡ self.entry.given }
        ensures ended { result.ended ≡ self.entry.ended }
        ensures failed { (result.failed ≡ true) ↔ (self.entry.health ≡ Health.Failed) }
        // If the link counted a failure, it knows that the inner link failed.
        ensures counted { 0 < self.entry.failures → result.failed ≡ true }
        ensures forward { result.forward ≡ self.entry.forward }
        ensures backward { result.backward ≡ self.entry.backward }
    {
        let QueueLink {
            rt,
            alloc: _,
            most: _,
            mut out,
            incoming,
            health,
            failures: _,
            finished: _,
            ended,
        } = self;
        out.push_reserved(rt, Piece::Sentinel(Order::Close));
        ClosedQueueLink {
            out,
            incoming,
            ended,
            failed: health == Health::Failed,
        }
    }

    // Counts a failed send or receive.
    fn count_failure(&mut self)
        requires { self.old.health ≡ Health.Failed }
        ensures failures { self.new ≡ record self.old { failures = raised self.old.failures } }
        ensures never_falls { self.old.failures ≤ self.new.failures }
    {
        self.failures = self.failures.saturating_add(1);
    }

    // Pushes a copy of the frame; waits while the queue is full.
    #[tactic(auto, using(crate::proofs::Pieces::frames_snoc_bytes, crate::proofs::Pieces::open_snoc_bytes, crate::proofs::Pieces::finished_snoc_bytes))]
    fn push_frame(&mut self, frame: &[u8]) -> Handed
        ensures done { result ≡ Handed.Done
            → self.new ≡ record self.old { handed = self.old.handed ++ frame.now ∷ [] } }
        ensures other { result ≢ Handed.Done → (result ≡ Handed.Memory) × (self.new ≡ self.old) }
    {
        let Ok(copy) = Bytes::from_slice(self.alloc, frame) else {
            return Handed::Memory;
        };
        self.out
            .push_leaving(self.rt, SENTINEL_SLOTS, Piece::Bytes(copy));
        Handed::Done
    }

    // Delivers the next bytes, or what the writer reports.
    fn read(&mut self, buf: &mut [u8]) -> Came
        requires room { 0 < length buf.old }
        requires before_end { self.old.ended ≡ false }
        requires working { self.old.health ≡ Health.Working }
        ensures count { OnCame result (λ n. (0 < n) × (n ≤ length buf.old)) }
        ensures appended { OnCame result (λ n. self.new.given ≡ self.old.given ++ take n buf.new) }
        ensures kept { OnNoneCame result (self.new.given ≡ self.old.given) }
        ensures ends { result ≡ Came.End → self.new.ended ≡ true }
        ensures same_ended { result ≢ Came.End → self.new.ended ≡ self.old.ended }
        ensures idle { result ≡ Came.Idle → IsPrefix self.old.told self.new.given }
        ensures fails { (result ≡ Came.Failed) ↔ (self.new.health ≡ Health.Failed) }
        ensures lacks { (result ≡ Came.Memory) ↔ (self.new.health ≡ Health.Memory) }
        ensures same { self.new ≡ record self.old {
          given = self.new.given;
          ended = self.new.ended;
          health = self.new.health;
        } }
    {
        match self.incoming.read(self.rt, buf) {
            ReadResult::Bytes(count) => Came::Bytes(count),
            ReadResult::Nothing => Came::Idle,
            ReadResult::Sentinel(News::End) => {
                self.ended = true;
                Came::End
            }
            ReadResult::Sentinel(News::Failed) => {
                self.health = Health::Failed;
                Came::Failed
            }
            ReadResult::Sentinel(News::Memory) => {
                self.health = Health::Memory;
                Came::Memory
            }
        }
    }
}

impl<'r, R: Wait> Link for QueueLink<'r, R> {
    ghost use Rattle.std.specs.Prelude.{◌≡◌, Some, true, ⊤};
    ghost use mathlib.Core.List.{IsPrefix};

    ghost handed = { λ l. l.handed };

    ghost given = { λ l. Some l.given };

    ghost ended = { λ l. l.ended };

    // All that it knew to be received has been delivered.
    ghost nothing_ready = { λ old new. IsPrefix old.told new.given };

    ghost peer_finished = { λ old new. new.ended ≡ true };

    ghost failures = { λ l. l.failures };

    // The two queues are the same, with the same capacity for frames.
    ghost since = { λ old new. (new.forward ≡ old.forward) × (new.backward ≡ old.backward) × (new.most ≡ old.most) };

    ghost use mathlib.Core.Path.{refl};

    ghost itself = { λ _. (refl, refl, refl) };

    // Nothing more is known after a failed send.
    ghost refused = { λ _ _ _. ⊤ };

    fn send(&mut self, frame: &[u8]) -> Handed
        // A send fails exactly if the link knew that the inner link failed.
        ensures fails { (result ≡ Handed.Failed) ↔ (self.old.health ≡ Health.Failed) }
        ensures lacks { self.old.health ≡ Health.Memory → result ≡ Handed.Memory }
        ensures appended { result ≡ Handed.Done → self.new.handed ≡ self.old.handed ++ frame.now ∷ [] }
        ensures kept { result ≢ Handed.Done → self.new.handed ≡ self.old.handed }
        ensures cause { HasCause (result ≡ Handed.Failed) self.old.failures self.new.failures }
        ensures same { self.new ≡ record self.old { handed = self.new.handed; failures = self.new.failures } }
    {
        match self.health {
            Health::Working => self.push_frame(frame),
            Health::Failed => {
                self.count_failure();
                Handed::Failed
            }
            Health::Memory => Handed::Memory,
        }
    }

    // The slots for sentinels aren't counted. For more frames than the queue can hold, an empty queue is enough.
    fn has_room(&mut self, frames: usize) -> bool
        ensures same { self.new ≡ self.old }
    {
        let places = frames.min(self.most).saturating_add(SENTINEL_SLOTS);
        self.out.has_free(self.rt, places)
    }

    fn receive(&mut self, buf: &mut [u8]) -> Came
        requires room { 0 < length buf.old }
        // A receive fails, or is out of memory, only once the writer has reported it, and always from then on.
        ensures fails { (result ≡ Came.Failed) ↔ (self.new.health ≡ Health.Failed) }
        ensures lacks { (result ≡ Came.Memory) ↔ (self.new.health ≡ Health.Memory) }
        ensures learnt { self.old.health ≢ Health.Working → self.new.health ≡ self.old.health }
        ensures count { OnCame result (λ n. (0 < n) × (n ≤ length buf.old)) }
        ensures appended { OnCame result (λ n. self.new.given ≡ self.old.given ++ take n buf.new) }
        ensures kept { OnNoneCame result (self.new.given ≡ self.old.given) }
        ensures ends { result ≡ Came.End → IsTrue self.new.ended }
        ensures same_ended { result ≢ Came.End → self.new.ended ≡ self.old.ended }
        ensures idle { result ≡ Came.Idle → IsPrefix self.old.told self.new.given }
        ensures end { result ≡ Came.End → self.new.ended ≡ true }
        ensures cause { HasCause (result ≡ Came.Failed) self.old.failures self.new.failures }
        ensures same { self.new ≡ record self.old {
          given = self.new.given;
          ended = self.new.ended;
          health = self.new.health;
          failures = self.new.failures;
        } }
    {
        match self.health {
            Health::Failed => {
                self.count_failure();
                return Came::Failed;
            }
            Health::Memory => return Came::Memory,
            Health::Working => {}
        }
        if self.ended {
            return Came::End;
        }
        let came = self.read(buf);
        if came == Came::Failed {
            self.count_failure();
        }
        came
    }

    #[tactic(auto, using(crate::proofs::Pieces::frames_snoc_mark, crate::proofs::Pieces::open_snoc_finish, crate::proofs::Pieces::finished_snoc_finish))]
    fn finish(&mut self)
        ensures { self.new ≡ record self.old { finished = true } }
    {
        if !self.finished {
            self.out
                .push_reserved(self.rt, Piece::Sentinel(Order::Finish));
            self.finished = true;
        }
    }
}

/// A closed link, for [`WriterEnd::meet`](crate::WriterEnd::meet). Contracts see it as a `ClosedLinkState`.
#[derive(Drop)]
pub struct ClosedQueueLink {
    pub(crate) out: Producer<Piece<Order>>,
    pub(crate) incoming: PieceReader<News>,
    pub(crate) ended: bool,
    pub(crate) failed: bool,
}

impl Model for ClosedQueueLink {
    ghost use Rattle.spsc_queue.specs.Ends.{pushed_of, producer_queue};
    ghost use Rattle.spsc_queue.specs.Readers.{delivered_by, popped_by, reader_queue};
    ghost use Rattle.spsc_queue.specs.Pieces.{frames_of_pieces};
    ghost use Rattle.link_queue.specs.Sentinels.{HasQueued};
    ghost use Rattle.link_queue.specs.Queueing.{ClosedLinkState};

    ghost Value = { ClosedLinkState };

    ghost view = { λ p. record {
      handed = frames_of_pieces (pushed_of p.out);
      given = delivered_by p.incoming;
      ended = p.ended;
      failed = p.failed;
      forward = producer_queue p.out;
      backward = reader_queue p.incoming;
    } };

    ghost invariant = { λ p. HasQueued (pushed_of p.out) (popped_by p.incoming) (delivered_by p.incoming) p.ended
        p.failed };
}
