//! A ring of descriptors: its two ends, and how it is opened.

ghost use Rattle.std.specs.Prelude.{◌≡◌, ◌<◌, ◌≤◌, ◌↔◌, ◌++◌, ◌∷◌, [], true, false, length};
ghost use Rattle.std.specs.Prelude.{IfOk, IfErr, OnOk, IsTrue};
ghost use Rattle.descriptor_ring.specs.Answers.{OnItem, OnEmpty, OnNone};
ghost use Rattle.descriptor_ring.specs.Rings.{IsDescriptorOf, HasHeldLast};
ghost use Rattle.descriptor_ring.specs.declared.limits.TheConstants.{MAX_CAPACITY};
ghost use mathlib.Core.List.{IsPrefix};
ghost use Rattle.crossbeam_queue.specs.Passes.{view as known, IsPassOf};
ghost use Rattle.descriptor_ring.specs.RingRule.{first as no_view, sender, receiver, longer, AreComparable};

use crate::calls;
use crate::descriptor::{Descriptor, Full, Taken};
use crate::lesson::Lesson;
use crate::progress::Progress;
use crate::ring_rule::{PicksHeap, RingEntry, RingPass, RingQueue};
use shared_heap::Reader;
use std::alloc::{AllocError, Global};
use std::marker::{Brand, Model};
use std::sync::{Arc, Wait};

/// The sending end of a ring of descriptors. Contracts see it as a `Sending`: the ring, its heap, its capacity, the
/// descriptors that were sent, and those that it has observed as taken.
pub struct Sender {
    line: Arc<RingQueue<Descriptor>, Global>,
    pass: RingPass<Descriptor>,
}

// Written by hand, so that a drop is one call instead of one for each field.
impl Drop for Sender {
    fn drop(self) {
        let Sender {
            line: _line,
            pass: _pass,
        } = self;
    }
}

impl Model for Sender {
    ghost use Rattle.std.specs.Arc.{arc_value};
    ghost use Rattle.crossbeam_queue.specs.Passes.{view as known, IsPassOf, ruled_capacity};
    ghost use Rattle.descriptor_ring.specs.Ends.{IsSender};
    ghost use Rattle.descriptor_ring.specs.Rings.{Sending};

    ghost Value = { Sending };

    ghost view = { λ s. record {
      ring = s.pass.table_id;
      heap = (known s.pass).heap;
      capacity = ruled_capacity (arc_value s.line);
      sent = (known s.pass).sent;
      told = (known s.pass).taken;
    } };

    ghost invariant = { λ s. IsPassOf (arc_value s.line) s.pass × IsSender (known s.pass) };
}

/// The receiving end of a ring of descriptors. Contracts see it as a `Receiving`: the ring, its heap, the descriptors
/// that were taken, whether the closing sentinel was taken, and what it has observed as sent.
pub struct Receiver {
    line: Arc<RingQueue<Descriptor>, Global>,
    pass: RingPass<Descriptor>,
    closed: bool,
}

// Written by hand, so that a drop is one call instead of one for each field.
impl Drop for Receiver {
    fn drop(self) {
        let Receiver {
            line: _line,
            pass: _pass,
            closed: _,
        } = self;
    }
}

impl Model for Receiver {
    ghost use Rattle.std.specs.Arc.{arc_value};
    ghost use Rattle.crossbeam_queue.specs.Passes.{view as known, IsPassOf};
    ghost use Rattle.descriptor_ring.specs.Ends.{IsReceiver};
    ghost use Rattle.descriptor_ring.specs.Rings.{Receiving};

    ghost Value = { Receiving };

    ghost view = { λ r. record {
      ring = r.pass.table_id;
      heap = (known r.pass).heap;
      taken = (known r.pass).taken;
      closed = r.closed;
      told = (known r.pass).sent;
      observed_closed = (known r.pass).closed;
    } };

    ghost invariant = { λ r. IsPassOf (arc_value r.line) r.pass × IsReceiver 4294967294 r.closed (known r.pass) };
}

/// The remains of a sender that has closed. Contracts see it as an `AllSent`: the ring, and all descriptors that were
/// sent.
#[derive(Drop)]
pub struct Sent {
    pass: RingPass<Descriptor>,
}

impl Model for Sent {
    ghost use Rattle.std.specs.Prelude.{◌≡◌, []};
    ghost use Rattle.crossbeam_queue.specs.Passes.{view as known};
    ghost use Rattle.descriptor_ring.specs.Ends.{HasClosed};
    ghost use Rattle.descriptor_ring.specs.Rings.{AllSent};

    ghost Value = { AllSent };

    ghost view = { λ s. record { ring = s.pass.table_id; items = (known s.pass).sent } };

    ghost invariant = { λ s. (s.pass.me.1 ≡ []) × HasClosed (known s.pass) };
}

/// Opens a ring with a capacity of `cap` descriptors, for notes of the reader's heap.
pub fn open(alloc: Global, cap: u64, reader: &Reader) -> Result<(Sender, Receiver), AllocError>
    requires at_least { 1 ≤ cap }
    requires at_most { cap ≤ MAX_CAPACITY }

    ensures one_ring { IfOk result (λ ends. ends.1.ring ≡ ends.0.ring) }
    ensures heap { IfOk result (λ ends. (ends.0.heap ≡ reader.now.heap) × (ends.1.heap ≡ reader.now.heap)) }
    ensures capacity { IfOk result (λ ends. ends.0.capacity ≡ cap) }
    ensures sent { IfOk result (λ ends. ends.0.sent ≡ []) }
    ensures taken { IfOk result (λ ends. (ends.1.taken ≡ []) × (ends.1.closed ≡ false)) }
    ensures told { IfOk result (λ ends. (ends.0.told ≡ []) × (ends.1.told ≡ []) × (ends.1.observed_closed ≡ false)) }
{
    let (line, first) = RingQueue::ruled(alloc, cap as usize)?;
    let line = Arc::new(alloc, line)?;
    let theirs = Arc::try_clone(&line)?;
    let (sending, taking) = ends::<Brand>(&line, first, reader);
    let sender = Sender {
        line,
        pass: sending,
    };
    let receiver = Receiver {
        line: theirs,
        pass: taking,
        closed: false,
    };
    Ok((sender, receiver))
}

impl Sender {
    /// Sends a descriptor. Returns it if the ring was full at the call's atomic access. Then the ring held the last
    /// `capacity` descriptors that were sent, and those that the sender has observed as taken come before them.
    pub fn send<R: Wait>(&mut self, rt: &R, descriptor: Descriptor) -> Result<(), Full>
        requires of_heap { IsDescriptorOf self.old.heap descriptor }
        requires few { length self.old.sent < 4294967294 }

        ensures sent { OnOk result (self.new.sent ≡ self.old.sent ++ descriptor ∷ []) }
        ensures back { IfErr result (λ full. full.descriptor ≡ descriptor) }
        ensures full { IfErr result (λ full. full.lesson ≡ self.old.capacity) }
        ensures held { IfErr result (λ full. HasHeldLast self.old.sent self.old.told full.lesson) }
        ensures many { IfErr result (λ full. full.lesson ≤ length self.old.sent) }
        ensures kept { IfErr result (λ full. self.new.sent ≡ self.old.sent) }

        ensures ring { self.new.ring ≡ self.old.ring }
        ensures heap { self.new.heap ≡ self.old.heap }
        ensures capacity { self.new.capacity ≡ self.old.capacity }
        ensures told { self.new.told ≡ self.old.told }
    {
        match calls::send(rt, &self.line, &mut self.pass, descriptor) {
            Ok(()) => Ok(()),
            Err(descriptor) => {
                let lesson = Lesson::new(self.line.capacity() as u64);
                Err(Full { descriptor, lesson })
            }
        }
    }

    /// The progress of the ring, as this end knows it. Never blocks or allocates.
    pub fn progress(&mut self) -> Progress<Descriptor>
        ensures sent { result.sent ≡ self.old.sent }
        ensures taken { result.taken ≡ self.old.told }
        ensures ring { result.ring ≡ self.old.ring }
        ensures same { self.new ≡ self.old }
    {
        Progress {
            pass: calls::share_knowledge(&self.line, &mut self.pass),
        }
    }

    /// Learns what the end that made `progress` knew of the items taken. Never blocks or allocates.
    pub fn observe(&mut self, progress: Progress<Descriptor>)
        requires { progress.ring ≡ self.old.ring }

        ensures told { self.new.told ≡ longer self.old.told progress.taken }
        ensures in_order { IsPrefix self.new.told self.new.sent }

        ensures sent { self.new.sent ≡ self.old.sent }
        ensures ring { self.new.ring ≡ self.old.ring }
        ensures heap { self.new.heap ≡ self.old.heap }
        ensures capacity { self.new.capacity ≡ self.old.capacity }
    {
        let Progress { pass } = progress;
        calls::observe_taken(&self.line, &mut self.pass, pass);
    }

    /// Sends the closing sentinel after all descriptors. Returns the sender if the ring was full at the call's atomic
    /// access.
    pub fn close<R: Wait>(self, rt: &R) -> Result<Sent, (Sender, Lesson)>
        ensures sent { IfOk result (λ sent. sent.items ≡ self.sent) }
        ensures ring { IfOk result (λ sent. sent.ring ≡ self.ring) }
        ensures back { IfErr result (λ refused. refused.0 ≡ self) }
        ensures full { IfErr result (λ refused. refused.1 ≡ self.capacity) }
        ensures held { IfErr result (λ refused. HasHeldLast self.sent self.told refused.1) }
        ensures many { IfErr result (λ refused. refused.1 ≤ length self.sent) }
    {
        let Sender { line, mut pass } = self;
        if calls::close(rt, &line, &mut pass) {
            Ok(Sent { pass })
        } else {
            let lesson = Lesson::new(line.capacity() as u64);
            Err((Sender { line, pass }, lesson))
        }
    }
}

impl Receiver {
    /// Takes the next descriptor, in the order in which they were sent.
    pub fn take<R: Wait>(&mut self, rt: &R) -> Taken
        ensures item { OnItem result (λ d. self.new.taken ≡ self.old.taken ++ d ∷ []) }
        ensures of_heap { OnItem result (λ d. IsDescriptorOf self.old.heap d) }
        ensures few { length self.new.taken ≤ 4294967294 }
        ensures kept { OnNone result (self.new.taken ≡ self.old.taken) }
        // It returns `Closed` exactly after the closing sentinel.
        ensures closed { (result ≡ Taken.Closed) ↔ IsTrue self.new.closed }
        ensures stays_closed { IsTrue self.old.closed → IsTrue self.new.closed }
        ensures empty { OnEmpty result (λ lesson. lesson ≡ 0) }
        // If it finds nothing, the ring was empty at the call's atomic access: the receiver took all that it had
        // observed as sent.
        ensures all { OnNone result (IsPrefix self.old.told self.old.taken) }
        ensures unclosed { OnEmpty result (λ lesson. self.old.observed_closed ≡ false) }
        // What was taken and what it has observed as sent are in one order. If it has observed the closing sentinel,
        // it takes nothing but the items that it has observed as sent.
        ensures in_order { AreComparable self.new.told self.new.taken }
        ensures no_more { IsTrue self.old.observed_closed → IsPrefix self.new.taken self.new.told }

        ensures ring { self.new.ring ≡ self.old.ring }
        ensures heap { self.new.heap ≡ self.old.heap }
        ensures told { (self.new.told ≡ self.old.told) × (self.new.observed_closed ≡ self.old.observed_closed) }
    {
        if self.closed {
            return Taken::Closed;
        }
        match calls::take(rt, &self.line, &mut self.pass) {
            Some(RingEntry::Item(descriptor)) => Taken::Item(descriptor),
            Some(RingEntry::Closing) => {
                self.closed = true;
                Taken::Closed
            }
            None => Taken::Empty(Lesson::new(0)),
        }
    }

    /// The progress of the ring, as this end knows it. Never blocks or allocates.
    pub fn progress(&mut self) -> Progress<Descriptor>
        ensures sent { result.sent ≡ self.old.told }
        ensures taken { result.taken ≡ self.old.taken }
        ensures ring { result.ring ≡ self.old.ring }
        ensures same { self.new ≡ self.old }
    {
        Progress {
            pass: calls::share_knowledge(&self.line, &mut self.pass),
        }
    }

    /// Learns what the end that made `progress` knew of the items sent. Never blocks or allocates.
    pub fn observe(&mut self, progress: Progress<Descriptor>)
        requires { progress.ring ≡ self.old.ring }

        ensures told { self.new.told ≡ longer self.old.told progress.sent }
        ensures told_closed { self.new.observed_closed ≡ self.old.observed_closed }
        ensures in_order { AreComparable self.new.told self.new.taken }

        ensures taken { self.new.taken ≡ self.old.taken }
        ensures closed { self.new.closed ≡ self.old.closed }
        ensures ring { self.new.ring ≡ self.old.ring }
        ensures heap { self.new.heap ≡ self.old.heap }
    {
        let Progress { pass } = progress;
        calls::observe_sent(&self.line, &mut self.pass, pass);
    }

    /// Learns all that was sent, from a sender that has closed. Some of it may not be taken yet.
    pub fn observe_all(&mut self, sent: Sent)
        requires { sent.ring ≡ self.old.ring }

        ensures told { (self.new.told ≡ sent.items) × (self.new.observed_closed ≡ true) }
        ensures in_order { IsPrefix self.new.taken self.new.told }

        ensures taken { self.new.taken ≡ self.old.taken }
        ensures closed { self.new.closed ≡ self.old.closed }
        ensures ring { self.new.ring ≡ self.old.ring }
        ensures heap { self.new.heap ≡ self.old.heap }
    {
        let Sent { pass } = sent;
        calls::observe_all(&self.line, &mut self.pass, pass);
    }

    /// Joins a sender that has closed: what was taken is what was sent.
    pub fn meet(&mut self, sent: Sent)
        requires one_ring { sent.ring ≡ self.old.ring }
        requires closed { IsTrue self.old.closed }

        ensures all { self.old.taken ≡ sent.items }
        ensures told { (self.new.told ≡ sent.items) × (self.new.observed_closed ≡ true) }

        ensures taken { self.new.taken ≡ self.old.taken }
        ensures closed { self.new.closed ≡ self.old.closed }
        ensures ring { self.new.ring ≡ self.old.ring }
        ensures heap { self.new.heap ≡ self.old.heap }
    {
        let Sent { pass } = sent;
        calls::meet(&self.line, &mut self.pass, pass);
    }
}

// The two ends of a new ring, for the reader's heap.
fn ends<N: PicksHeap>(
    line: &RingQueue<Descriptor>,
    first: RingPass<Descriptor>,
    reader: &Reader,
) -> (RingPass<Descriptor>, RingPass<Descriptor>)
    requires line { IsPassOf line.now first }
    requires new { known first ≡ no_view }
    requires heap { N.heap ≡ reader.now.heap }

    ensures line { IsPassOf line.now result.0 × IsPassOf line.now result.1 }
    ensures sender { known result.0 ≡ sender reader.now.heap [] false }
    ensures receiver { known result.1 ≡ receiver reader.now.heap [] false }
{
    let _ = reader;
    calls::ends::<Descriptor, N>(line, first)
}
