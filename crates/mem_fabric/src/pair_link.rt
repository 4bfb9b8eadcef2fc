//! One end of an in-memory link.

ghost use Rattle.std.specs.Prelude.{◌≡◌, ◌≢◌, ◌<◌, ◌≤◌, ◌↔◌, ◌⊎◌, [], ◌∷◌, ◌++◌, Contains, IfOk, IsTrue, length, take, true, false};
ghost use mathlib.Core.List.{IsPrefix};
ghost use Rattle.spsc_queue.specs.Ends.{pushed_of, popped_of, known_pushed_of, free_of, producer_queue, consumer_queue};
ghost use Rattle.mrpc_base.specs.Failures.{HasCause, raised};
ghost use Rattle.mrpc_base.specs.Links.{OnCame, OnNoneCame};
ghost use Rattle.mem_fabric.specs.Fabric.{failing_calls_of};
ghost use Rattle.mem_fabric.specs.Opening.{IsFresh, fresh_end};
ghost use Rattle.mem_fabric.specs.Pair.{ArePair, IsDeliveredInOrder, knowing_all_sent};

use crate::injected::{EndCalls, InjectedConns};
use mrpc_base::{Came, Handed, Link};
use mrpc_table::Bytes;
use spsc_queue::{Consumer, Piece, PieceReader, Producer, ReadResult};
use std::alloc::{AllocError, Global};
use std::marker::Model;
use std::sync::Wait;

// The most pieces that are queued in one direction.
const MAX_PIECES: usize = 65535;

// The slots that a queue has in addition, for the end sentinel.
const END_PLACES: usize = 1;

// The sentinel after the last piece.
#[derive(Drop)]
pub(crate) struct EndSentinel;

/// One end of an in-memory link. Contracts see it as a `PairEnd`: the frames that it sent, the bytes that it received,
/// and whether either side has finished. It also has the numbers of the sends and receives that shall fail, how many
/// were made and how many failed, and its two queues.
pub struct PairLink<'r, R> {
    rt: &'r R,
    alloc: Global,
    out: Producer<Piece<EndSentinel>>,
    incoming: PieceReader<EndSentinel>,
    calls: EndCalls,
    finished: bool,
    ended: bool,
}

// By hand, so that each drop is one call, and not a drop of every field.
impl<'r, R> Drop for PairLink<'r, R> {
    fn drop(self) {
        let PairLink {
            rt: _,
            alloc: _,
            out: _out,
            incoming: _incoming,
            calls: _calls,
            finished: _,
            ended: _,
        } = self;
    }
}

impl<'r, R> Model for PairLink<'r, R> {
    ghost use Rattle.std.specs.Prelude.{◌≡◌, ◌<◌, Bool, true, false};
    ghost use Rattle.spsc_queue.specs.Ends.{pushed_of, free_of, producer_queue};
    ghost use Rattle.spsc_queue.specs.Pieces.{bytes_of_pieces, frames_of_pieces};
    ghost use Rattle.spsc_queue.specs.Readers.{delivered_by, popped_by, known_pushed_by, reader_queue};
    ghost use Rattle.mem_fabric.specs.Pair.{PairEnd, IsOutgoing, HasDeliveredAll};

    ghost Value = { PairEnd };

    ghost view = { λ l. record {
      handed = frames_of_pieces (pushed_of l.out);
      finished = l.finished;
      given = delivered_by l.incoming;
      ended = l.ended;
      told = bytes_of_pieces (known_pushed_by l.incoming);
      failing_sends = l.calls.sends.failing;
      failing_receives = l.calls.receives.failing;
      sends = l.calls.sends.calls;
      receives = l.calls.receives.calls;
      failures = l.calls.failures;
      outward = producer_queue l.out;
      inward = reader_queue l.incoming;
    } };

    ghost invariant = { λ l. IsOutgoing l.finished (pushed_of l.out)
        × ((f : Bool) × IsOutgoing f (known_pushed_by l.incoming))
        × (l.ended ≡ true → HasDeliveredAll (popped_by l.incoming) (known_pushed_by l.incoming)
        (delivered_by l.incoming))
        × (l.finished ≡ false → 0 < free_of l.out) };
}

impl<'r, R: Wait> PairLink<'r, R> {
    // An end that sent and received nothing.
    fn new(
        rt: &'r R,
        alloc: Global,
        out: Producer<Piece<EndSentinel>>,
        incoming: Consumer<Piece<EndSentinel>>,
        calls: EndCalls,
    ) -> PairLink<'r, R>
        requires put { pushed_of out ≡ [] }
        requires free { 0 < free_of out }
        requires taken { popped_of incoming ≡ [] }
        requires told { known_pushed_of incoming ≡ [] }
        ensures { result ≡ fresh_end calls (producer_queue out) (consumer_queue incoming) }
    {
        PairLink {
            rt,
            alloc,
            out,
            incoming: PieceReader::new(alloc, incoming),
            calls,
            finished: false,
            ended: false,
        }
    }

    /// How many sends and receives failed; saturates at 2^64 - 1.
    pub fn failures(&self) -> u64
        ensures { result ≡ self.now.failures }
    {
        self.calls.failures
    }

    // Receives the next bytes, or the end of the stream.
    fn read(&mut self, buf: &mut [u8]) -> Came
        requires room { 0 < length buf.old }
        requires before_end { self.old.ended ≡ false }
        ensures answer { (result ≢ Came.Failed) × (result ≢ Came.Memory) }
        ensures count { OnCame result (λ n. (0 < n) × (n ≤ length buf.old)) }
        ensures appended { OnCame result (λ n. self.new.given ≡ self.old.given ++ take n buf.new) }
        ensures kept { OnNoneCame result (self.new.given ≡ self.old.given) }
        ensures ends { result ≡ Came.End → IsTrue self.new.ended }
        ensures same_ended { result ≢ Came.End → self.new.ended ≡ self.old.ended }
        ensures told { OnNoneCame result (IsPrefix self.old.told self.new.given) }
        ensures same { self.new ≡ record self.old { given = self.new.given; ended = self.new.ended } }
    {
        match self.incoming.read(self.rt, buf) {
            ReadResult::Bytes(count) => Came::Bytes(count),
            ReadResult::Nothing => Came::Idle,
            ReadResult::Sentinel(EndSentinel) => {
                self.ended = true;
                Came::End
            }
        }
    }
}

impl<'r, R: Wait> Link for PairLink<'r, R> {
    ghost use Rattle.std.specs.Prelude.{Some, ⊤};
    ghost use mathlib.Core.List.{IsPrefix};

    ghost handed = { λ l. l.handed };

    ghost given = { λ l. Some l.given };

    ghost ended = { λ l. l.ended };

    // All that it knew to be sent has been received.
    ghost nothing_ready = { λ old new. IsPrefix old.told new.given };

    ghost peer_finished = { λ old new. IsPrefix old.told new.given };

    ghost failures = { λ l. l.failures };

    // The queues are the same two, and so are the calls that shall fail.
    ghost since = { λ old new. (new.outward ≡ old.outward) × (new.inward ≡ old.inward)
        × (new.failing_sends ≡ old.failing_sends) × (new.failing_receives ≡ old.failing_receives) };

    ghost use mathlib.Core.Path.{refl};

    ghost itself = { λ _. (refl, refl, refl, refl) };

    // Nothing more is known after a failed send.
    ghost refused = { λ _ _ _. ⊤ };

    fn send(&mut self, frame: &[u8]) -> Handed
        // A send fails exactly if its number is listed or the sending side was shut down.
        ensures fails { (result ≡ Handed.Failed)
            ↔ (Contains self.old.failing_sends self.new.sends ⊎ IsTrue self.old.finished) }

        ensures appended { result ≡ Handed.Done → self.new.handed ≡ self.old.handed ++ frame.now ∷ [] }
        ensures kept { result ≢ Handed.Done → self.new.handed ≡ self.old.handed }

        // What is counted, and what is unchanged.
        ensures sends { self.new.sends ≡ raised self.old.sends }
        ensures failures { result ≡ Handed.Failed → self.new.failures ≡ raised self.old.failures }
        ensures cause { HasCause (result ≡ Handed.Failed) self.old.failures self.new.failures }
        ensures same { self.new ≡ record self.old {
          handed = self.new.handed;
          sends = self.new.sends;
          failures = self.new.failures;
        } }
    {
        if self.calls.send_fails(self.finished) {
            return Handed::Failed;
        }
        let Ok(copy) = Bytes::from_slice(self.alloc, frame) else {
            return Handed::Memory;
        };
        // Waits while the queue holds `MAX_PIECES` pieces.
        self.out
            .push_leaving(self.rt, END_PLACES, Piece::Bytes(copy));
        Handed::Done
    }

    fn receive(&mut self, buf: &mut [u8]) -> Came
        requires room { 0 < length buf.old }

        // A receive fails exactly if its number is listed. After the end of the stream it returns the end again.
        ensures fails { (result ≡ Came.Failed) ↔ Contains self.old.failing_receives self.new.receives }
        ensures after_end { IsTrue self.old.ended → result ≢ Came.Failed → result ≡ Came.End }
        ensures memory { result ≢ Came.Memory }

        ensures count { OnCame result (λ n. (0 < n) × (n ≤ length buf.old)) }
        ensures appended { OnCame result (λ n. self.new.given ≡ self.old.given ++ take n buf.new) }
        ensures kept { OnNoneCame result (self.new.given ≡ self.old.given) }
        ensures ends { result ≡ Came.End → IsTrue self.new.ended }
        ensures same_ended { result ≢ Came.End → self.new.ended ≡ self.old.ended }
        // `Idle` and `End` come only if all that it knew to be sent has been received.
        ensures idle { result ≡ Came.Idle → IsPrefix self.old.told self.new.given }
        ensures end { result ≡ Came.End → IsPrefix self.old.told self.new.given }

        // What is counted, and what is unchanged.
        ensures receives { self.new.receives ≡ raised self.old.receives }
        ensures failures { result ≡ Came.Failed → self.new.failures ≡ raised self.old.failures }
        ensures cause { HasCause (result ≡ Came.Failed) self.old.failures self.new.failures }
        ensures same { self.new ≡ record self.old {
          given = self.new.given;
          receives = self.new.receives;
          failures = self.new.failures;
          ended = self.new.ended;
        } }
    {
        if self.calls.receive_fails() {
            return Came::Failed;
        }
        if self.ended {
            return Came::End;
        }
        self.read(buf)
    }

    #[tactic(auto, using(crate::proofs::Outgoing::frames_snoc_mark, crate::proofs::Outgoing::outgoing_mark))]
    fn finish(&mut self)
        ensures { self.new ≡ record self.old { finished = true } }
    {
        if !self.finished {
            self.out
                .push_reserved(self.rt, Piece::Sentinel(EndSentinel));
            self.finished = true;
        }
    }
}

// The two ends of a new pair, with the failures that are listed for each connection.
pub(crate) fn new_pair<'r, R: Wait>(
    rt: &'r R,
    alloc: Global,
    listed: &InjectedConns,
    a: u32,
    b: u32,
) -> Result<(PairLink<'r, R>, PairLink<'r, R>), AllocError>
    ensures pair { IfOk result (λ ends. ArePair ends.0 ends.1) }
    ensures first { IfOk result (λ ends.
        IsFresh (failing_calls_of a listed.now.sends.items) (failing_calls_of a listed.now.receives.items) ends.0) }
    ensures second { IfOk result (λ ends.
        IsFresh (failing_calls_of b listed.now.sends.items) (failing_calls_of b listed.now.receives.items) ends.1) }
{
    let first = listed.calls_of(alloc, a)?;
    let second = listed.calls_of(alloc, b)?;
    new_ends(rt, alloc, first, second)
}

// The two ends of a new pair, with the calls of each.
fn new_ends<'r, R: Wait>(
    rt: &'r R,
    alloc: Global,
    first: EndCalls,
    second: EndCalls,
) -> Result<(PairLink<'r, R>, PairLink<'r, R>), AllocError>
    ensures pair { IfOk result (λ ends. ArePair ends.0 ends.1) }
    ensures first { IfOk result (λ ends. ends.0 ≡ fresh_end first ends.0.outward ends.0.inward) }
    ensures second { IfOk result (λ ends. ends.1 ≡ fresh_end second ends.1.outward ends.1.inward) }
{
    let (from_first, to_second) = spsc_queue::open(alloc, MAX_PIECES + END_PLACES)?;
    let (from_second, to_first) = spsc_queue::open(alloc, MAX_PIECES + END_PLACES)?;
    Ok((
        PairLink::new(rt, alloc, from_first, to_first, first),
        PairLink::new(rt, alloc, from_second, to_second, second),
    ))
}

/// Reconciles the two ends of one pair. What each end received is a prefix of what the other sent, and all of it
/// after the end of the stream. From now on each end knows of every frame that the other sent.
pub fn meet<R>(first: &mut PairLink<R>, second: &mut PairLink<R>)
    requires { ArePair first.old second.old }
    ensures to_second { IsDeliveredInOrder first.new second.new }
    ensures to_first { IsDeliveredInOrder second.new first.new }
    ensures first { first.new ≡ knowing_all_sent second.old first.old }
    ensures second { second.new ≡ knowing_all_sent first.old second.old }
{
    first.incoming.meet(&mut second.out);
    second.incoming.meet(&mut first.out);
}
