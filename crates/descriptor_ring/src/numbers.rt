//! A ring of numbers: its two ends, and how it is opened.

ghost use Rattle.std.specs.Prelude.{◌≡◌, ◌<◌, ◌≤◌, ◌^◌, ◌↔◌, ◌++◌, ◌∷◌, [], true, false, length};
ghost use Rattle.std.specs.Prelude.{IfOk, IfErr, OnOk, IsTrue};
ghost use Rattle.descriptor_ring.specs.NumberAnswers.{OnItem, OnEmpty, OnNone};
ghost use Rattle.descriptor_ring.specs.Rings.{HasHeldLast};
ghost use Rattle.descriptor_ring.specs.RingRule.{longer, AreComparable};
ghost use Rattle.descriptor_ring.specs.declared.limits.TheConstants.{MAX_CAPACITY};
ghost use mathlib.Core.List.{IsPrefix};

use crate::calls;
use crate::lesson::Lesson;
use crate::progress::Progress;
use crate::ring_rule::{RingEntry, RingItem, RingPass, RingQueue};
use std::alloc::{AllocError, Global};
use std::marker::{Brand, Model};
use std::sync::{Arc, Wait};

/// The ring was full.
#[derive(Drop)]
pub struct NumberFull {
    /// The number that wasn't sent.
    pub item: u64,
    pub lesson: Lesson,
}

/// The result of a take.
#[derive(Drop)]
pub enum NumberTaken {
    /// The next number.
    Item(u64),
    /// All numbers were taken, and no more will be sent.
    Closed,
    /// The ring was empty.
    Empty(Lesson),
}

impl RingItem for u64 {
    ghost use Rattle.std.specs.Prelude.{◌^◌};

    ghost fits = { λ _ _. Unit {0} };

    ghost most = { 2 ^ 61 };
}

/// The sending end of a ring of numbers. Contracts see it as a `NumberSending`: the ring, its capacity, the numbers
/// that were sent, and those that it has observed as taken.
pub struct NumberSender {
    line: Arc<RingQueue<u64>, Global>,
    pass: RingPass<u64>,
}

// Written by hand, so that a drop is one call instead of one for each field.
impl Drop for NumberSender {
    fn drop(self) {
        let NumberSender {
            line: _line,
            pass: _pass,
        } = self;
    }
}

impl Model for NumberSender {
    ghost use Rattle.std.specs.Arc.{arc_value};
    ghost use Rattle.crossbeam_queue.specs.Passes.{view as known, IsPassOf, ruled_capacity};
    ghost use Rattle.descriptor_ring.specs.Ends.{IsSender};
    ghost use Rattle.descriptor_ring.specs.Rings.{NumberSending};

    ghost Value = { NumberSending };

    ghost view = { λ s. record {
      ring = s.pass.table_id;
      capacity = ruled_capacity (arc_value s.line);
      sent = (known s.pass).sent;
      told = (known s.pass).taken;
    } };

    ghost invariant = { λ s. IsPassOf (arc_value s.line) s.pass × IsSender (known s.pass) };
}

/// The receiving end of a ring of numbers. Contracts see it as a `NumberReceiving`: the ring, the numbers that were
/// taken, whether the closing sentinel was taken, and what it has observed as sent.
pub struct NumberReceiver {
    line: Arc<RingQueue<u64>, Global>,
    pass: RingPass<u64>,
    closed: bool,
}

// Written by hand, so that a drop is one call instead of one for each field.
impl Drop for NumberReceiver {
    fn drop(self) {
        let NumberReceiver {
            line: _line,
            pass: _pass,
            closed: _,
        } = self;
    }
}

impl Model for NumberReceiver {
    ghost use Rattle.std.specs.Prelude.{◌^◌};
    ghost use Rattle.std.specs.Arc.{arc_value};
    ghost use Rattle.crossbeam_queue.specs.Passes.{view as known, IsPassOf};
    ghost use Rattle.descriptor_ring.specs.Ends.{IsReceiver};
    ghost use Rattle.descriptor_ring.specs.Rings.{NumberReceiving};

    ghost Value = { NumberReceiving };

    ghost view = { λ r. record {
      ring = r.pass.table_id;
      taken = (known r.pass).taken;
      closed = r.closed;
      told = (known r.pass).sent;
      observed_closed = (known r.pass).closed;
    } };

    ghost invariant = { λ r. IsPassOf (arc_value r.line) r.pass × IsReceiver (2 ^ 61) r.closed (known r.pass) };
}

/// The remains of a sender of numbers that has closed. Contracts see it as an `AllNumbersSent`: the ring, and all
/// numbers that were sent.
#[derive(Drop)]
pub struct NumbersSent {
    pass: RingPass<u64>,
}

impl Model for NumbersSent {
    ghost use Rattle.std.specs.Prelude.{◌≡◌, []};
    ghost use Rattle.crossbeam_queue.specs.Passes.{view as known};
    ghost use Rattle.descriptor_ring.specs.Ends.{HasClosed};
    ghost use Rattle.descriptor_ring.specs.Rings.{AllNumbersSent};

    ghost Value = { AllNumbersSent };

    ghost view = { λ s. record { ring = s.pass.table_id; items = (known s.pass).sent } };

    ghost invariant = { λ s. (s.pass.me.1 ≡ []) × HasClosed (known s.pass) };
}

/// Opens a ring with a capacity of `cap` numbers.
pub fn open_numbers(alloc: Global, cap: u64) -> Result<(NumberSender, NumberReceiver), AllocError>
    requires at_least { 1 ≤ cap }
    requires at_most { cap ≤ MAX_CAPACITY }

    ensures one_ring { IfOk result (λ ends. ends.1.ring ≡ ends.0.ring) }
    ensures capacity { IfOk result (λ ends. ends.0.capacity ≡ cap) }
    ensures sent { IfOk result (λ ends. ends.0.sent ≡ []) }
    ensures taken { IfOk result (λ ends. (ends.1.taken ≡ []) × (ends.1.closed ≡ false)) }
    ensures told { IfOk result (λ ends. (ends.0.told ≡ []) × (ends.1.told ≡ []) × (ends.1.observed_closed ≡ false)) }
{
    let (line, first) = RingQueue::ruled(alloc, cap as usize)?;
    let line = Arc::new(alloc, line)?;
    let theirs = Arc::try_clone(&line)?;
    let (sending, taking) = calls::ends::<u64, Brand>(&line, first);
    let sender = NumberSender {
        line,
        pass: sending,
    };
    let receiver = NumberReceiver {
        line: theirs,
        pass: taking,
        closed: false,
    };
    Ok((sender, receiver))
}

impl NumberSender {
    /// Sends a number. Returns it if the ring was full at the call's atomic access. Then the ring held the last
    /// `capacity` numbers that were sent, and those that the sender has observed as taken come before them.
    pub fn send<R: Wait>(&mut self, rt: &R, item: u64) -> Result<(), NumberFull>
        requires { length self.old.sent < 2 ^ 61 }

        ensures sent { OnOk result (self.new.sent ≡ self.old.sent ++ item ∷ []) }
        ensures back { IfErr result (λ full. full.item ≡ item) }
        ensures full { IfErr result (λ full. full.lesson ≡ self.old.capacity) }
        ensures held { IfErr result (λ full. HasHeldLast self.old.sent self.old.told full.lesson) }
        ensures many { IfErr result (λ full. full.lesson ≤ length self.old.sent) }
        ensures kept { IfErr result (λ full. self.new.sent ≡ self.old.sent) }

        ensures ring { self.new.ring ≡ self.old.ring }
        ensures capacity { self.new.capacity ≡ self.old.capacity }
        ensures told { self.new.told ≡ self.old.told }
    {
        match calls::send(rt, &self.line, &mut self.pass, item) {
            Ok(()) => Ok(()),
            Err(item) => {
                let lesson = Lesson::new(self.line.capacity() as u64);
                Err(NumberFull { item, lesson })
            }
        }
    }

    /// The progress of the ring, as this end knows it. Never blocks or allocates.
    pub fn progress(&mut self) -> Progress<u64>
        ensures sent { result.sent ≡ self.old.sent }
        ensures taken { result.taken ≡ self.old.told }
        ensures ring { result.ring ≡ self.old.ring }
        ensures same { self.new ≡ self.old }
    {
        Progress {
            pass: calls::share_knowledge(&self.line, &mut self.pass),
        }
    }

    /// Learns what the end that made `progress` knew of the items taken. Never blocks or allocates.
    pub fn observe(&mut self, progress: Progress<u64>)
        requires { progress.ring ≡ self.old.ring }

        ensures told { self.new.told ≡ longer self.old.told progress.taken }
        ensures in_order { IsPrefix self.new.told self.new.sent }

        ensures sent { self.new.sent ≡ self.old.sent }
        ensures ring { self.new.ring ≡ self.old.ring }
        ensures capacity { self.new.capacity ≡ self.old.capacity }
    {
        let Progress { pass } = progress;
        calls::observe_taken(&self.line, &mut self.pass, pass);
    }

    /// Sends the closing sentinel after all numbers. Returns the sender if the ring was full at the call's atomic
    /// access.
    pub fn close<R: Wait>(self, rt: &R) -> Result<NumbersSent, (NumberSender, Lesson)>
        ensures sent { IfOk result (λ sent. sent.items ≡ self.sent) }
        ensures ring { IfOk result (λ sent. sent.ring ≡ self.ring) }
        ensures back { IfErr result (λ refused. refused.0 ≡ self) }
        ensures full { IfErr result (λ refused. refused.1 ≡ self.capacity) }
        ensures held { IfErr result (λ refused. HasHeldLast self.sent self.told refused.1) }
        ensures many { IfErr result (λ refused. refused.1 ≤ length self.sent) }
    {
        let NumberSender { line, mut pass } = self;
        if calls::close(rt, &line, &mut pass) {
            Ok(NumbersSent { pass })
        } else {
            let lesson = Lesson::new(line.capacity() as u64);
            Err((NumberSender { line, pass }, lesson))
        }
    }
}

impl NumberReceiver {
    /// Takes the next number, in the order in which they were sent.
    pub fn take<R: Wait>(&mut self, rt: &R) -> NumberTaken
        ensures item { OnItem result (λ n. self.new.taken ≡ self.old.taken ++ n ∷ []) }
        ensures few { length self.new.taken ≤ 2 ^ 61 }
        ensures kept { OnNone result (self.new.taken ≡ self.old.taken) }
        // It returns `Closed` exactly after the closing sentinel.
        ensures closed { (result ≡ NumberTaken.Closed) ↔ IsTrue self.new.closed }
        ensures stays_closed { IsTrue self.old.closed → IsTrue self.new.closed }
        ensures empty { OnEmpty result (λ lesson. lesson ≡ 0) }
        // If it finds nothing, the ring was empty at the call's atomic access: the receiver took all that it had
        // observed as sent.
        ensures all { OnNone result (IsPrefix self.old.told self.old.taken) }
        ensures unclosed { OnEmpty result (λ lesson. self.old.observed_closed ≡ false) }
        // What was taken and what it has observed as sent are in one order. If it has observed the closing sentinel,
        // it takes nothing but the items that it has observed as sent.
        ensures in_order { AreComparable self.new.told self.new.taken }
        ensures no_more { IsTrue self.old.observed_closed → IsPrefix self.new.taken self.new.told }

        ensures ring { self.new.ring ≡ self.old.ring }
        ensures told { (self.new.told ≡ self.old.told) × (self.new.observed_closed ≡ self.old.observed_closed) }
    {
        if self.closed {
            return NumberTaken::Closed;
        }
        match calls::take(rt, &self.line, &mut self.pass) {
            Some(RingEntry::Item(item)) => NumberTaken::Item(item),
            Some(RingEntry::Closing) => {
                self.closed = true;
                NumberTaken::Closed
            }
            None => NumberTaken::Empty(Lesson::new(0)),
        }
    }

    /// The progress of the ring, as this end knows it. Never blocks or allocates.
    pub fn progress(&mut self) -> Progress<u64>
        ensures sent { result.sent ≡ self.old.told }
        ensures taken { result.taken ≡ self.old.taken }
        ensures ring { result.ring ≡ self.old.ring }
        ensures same { self.new ≡ self.old }
    {
        Progress {
            pass: calls::share_knowledge(&self.line, &mut self.pass),
        }
    }

    /// Learns what the end that made `progress` knew of the items sent. Never blocks or allocates.
    pub fn observe(&mut self, progress: Progress<u64>)
        requires { progress.ring ≡ self.old.ring }

        ensures told { self.new.told ≡ longer self.old.told progress.sent }
        ensures told_closed { self.new.observed_closed ≡ self.old.observed_closed }
        ensures in_order { AreComparable self.new.told self.new.taken }

        ensures taken { self.new.taken ≡ self.old.taken }
        ensures closed { self.new.closed ≡ self.old.closed }
        ensures ring { self.new.ring ≡ self.old.ring }
    {
        let Progress { pass } = progress;
        calls::observe_sent(&self.line, &mut self.pass, pass);
    }

    /// Learns all that was sent, from a sender that has closed. Some of it may not be taken yet.
    pub fn observe_all(&mut self, sent: NumbersSent)
        requires { sent.ring ≡ self.old.ring }

        ensures told { (self.new.told ≡ sent.items) × (self.new.observed_closed ≡ true) }
        ensures in_order { IsPrefix self.new.taken self.new.told }

        ensures taken { self.new.taken ≡ self.old.taken }
        ensures closed { self.new.closed ≡ self.old.closed }
        ensures ring { self.new.ring ≡ self.old.ring }
    {
        let NumbersSent { pass } = sent;
        calls::observe_all(&self.line, &mut self.pass, pass);
    }

    /// Joins a sender that has closed: what was taken is what was sent.
    pub fn meet(&mut self, sent: NumbersSent)
        requires one_ring { sent.ring ≡ self.old.ring }
        requires closed { IsTrue self.old.closed }

        ensures all { self.old.taken ≡ sent.items }
        ensures told { (self.new.told ≡ sent.items) × (self.new.observed_closed ≡ true) }

        ensures taken { self.new.taken ≡ self.old.taken }
        ensures closed { self.new.closed ≡ self.old.closed }
        ensures ring { self.new.ring ≡ self.old.ring }
    {
        let NumbersSent { pass } = sent;
        calls::meet(&self.line, &mut self.pass, pass);
    }
}
