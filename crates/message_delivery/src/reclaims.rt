//! The blocks that an application reclaims.

ghost use Rattle.std.specs.Prelude.{◌≡◌, ◌≤◌, ◌<◌, ◌+◌, ◌^◌, ◌++◌, ◌∷◌, [], ℕ, List, true, false, OnOk, IfSome, IfNone};
ghost use Rattle.mrpc_table.specs.declared.table.Table.{Table as TheTable};
ghost use Rattle.receive_core.specs.ReceiverTraces.{ReceiverTrace as TheLife, IsTraceOf};
ghost use Rattle.message_delivery.specs.Noticing.{AreJudged, IsCounting, IsReclaiming, IsWithoutEach};

use descriptor_ring::{NumberReceiver, NumberTaken};
use mrpc_table::Memory;
use receive_core::Inbound;
use std::sync::Wait;

/// The ring of the block numbers that an application reclaims, and the numbers that named no held block.
#[derive(Drop)]
pub struct Reclaims {
    pub numbers: NumberReceiver,
    /// How many blocks the application's program reclaims, whether it has such blocks or not.
    pub programmed: u64,
    /// How many numbers were judged.
    pub judged: u64,
    /// A number that arrived too early and is postponed.
    pub kept: Option<u64>,
    /// The numbers that named no held block when they were judged, in order.
    pub not_held: Vec<u64>,
    /// Whether the end of the ring was taken.
    pub closed: bool,
}

/// The result of a reclaim.
#[derive(Clone, Copy, PartialEq, Eq)]
pub enum ReclaimOutcome {
    /// No number was available, or the next one is postponed.
    Nothing,
    /// Some numbers were judged, or the end of the ring was taken.
    Some,
}

impl Reclaims {
    /// Takes the available numbers and reclaims each block; `given` is the number of blocks sent to the application so
    /// far. In total, at most as many numbers are judged as the program reclaims plus the blocks that were sent.
    pub fn reclaim<R: Wait>(
        &mut self,
        rt: &R,
        inbound: &mut Inbound,
        given: u64,
    ) -> Result<ReclaimOutcome, Memory>
        requires few_programmed { self.old.programmed < 2 ^ 63 }
        requires few_given { given < 2 ^ 63 }

        // More numbers were judged: those that were reclaimed each removed their block from the held ones, in order.
        ensures reclaimed { (numbers back : List ℕ) → IsReclaiming numbers back self.old → OnOk result ((more : List ℕ)
            × (gained : List ℕ) × IsReclaiming (numbers ++ more) (back ++ gained) self.new
            × IsWithoutEach gained inbound.old.heap.held inbound.new.heap.held) }

        // The others named no block that was held when they were judged.
        ensures refused { (numbers : List ℕ) → IsCounting numbers self.old → OnOk result ((more : List ℕ)
            × (back : List ℕ) × (refused : List ℕ) × IsCounting (numbers ++ more) self.new
            × (self.new.not_held.items ≡ self.old.not_held.items ++ refused)
            × AreJudged more back refused inbound.old.heap.held inbound.new.heap.held) }
        ensures most { self.old.judged ≤ self.old.programmed + given → self.new.judged ≤ self.new.programmed + given }
        ensures programmed { self.new.programmed ≡ self.old.programmed }
        ensures ring { self.new.numbers.ring ≡ self.old.numbers.ring }

        // The receiver's trace is unchanged.
        ensures life { (T : TheTable) (life : TheLife) → IsTraceOf T life inbound.old → IsTraceOf T life inbound.new }
        ensures conn { inbound.new.conn ≡ inbound.old.conn }
        ensures fed { inbound.new.fed ≡ inbound.old.fed }
        ensures words { inbound.new.heap.words ≡ inbound.old.heap.words }
    {
        let most = self.programmed + given;
        let was_closed = self.closed;
        let mut reclaimed = ReclaimOutcome::Nothing;
        while let Some(number) = self.next(rt, most) {
            if inbound.reclaim(number).is_err() {
                self.not_held.push(number)?;
            }
            reclaimed = ReclaimOutcome::Some;
        }
        if self.closed && !was_closed {
            return Ok(ReclaimOutcome::Some);
        }
        Ok(reclaimed)
    }

    // The next number to judge.
    fn next<R: Wait>(&mut self, rt: &R, most: u64) -> Option<u64>
        ensures some { (numbers : List ℕ) → IsCounting numbers self.old
            → IfSome result (λ number. IsCounting (numbers ++ number ∷ []) self.new) }
        ensures none { (numbers : List ℕ) → IsCounting numbers self.old → IfNone result (IsCounting numbers self.new) }
        ensures judged { IfSome result (λ number. (self.new.judged ≡ self.old.judged + 1) × (self.new.judged ≤ most)) }
        ensures none_judged { IfNone result (self.new.judged ≡ self.old.judged) }
        ensures not_held { self.new.not_held.items ≡ self.old.not_held.items }
        ensures programmed { self.new.programmed ≡ self.old.programmed }
        ensures ring { self.new.numbers.ring ≡ self.old.numbers.ring }
    {
        if self.kept.is_none() {
            self.kept = self.take(rt);
        }
        if self.judged >= most {
            return None;
        }
        let number = self.kept.take()?;
        self.judged += 1;
        Some(number)
    }

    // The next number of the ring.
    fn take<R: Wait>(&mut self, rt: &R) -> Option<u64>
        ensures some { IfSome result (λ number. self.new.numbers.taken ≡ self.old.numbers.taken ++ number ∷ []) }
        ensures none { IfNone result (self.new.numbers.taken ≡ self.old.numbers.taken) }
        ensures closed { self.old.closed ≡ self.old.numbers.closed → self.new.closed ≡ self.new.numbers.closed }
        ensures kept { self.new.kept ≡ self.old.kept }
        ensures judged { self.new.judged ≡ self.old.judged }
        ensures not_held { self.new.not_held.items ≡ self.old.not_held.items }
        ensures programmed { self.new.programmed ≡ self.old.programmed }
        ensures ring { self.new.numbers.ring ≡ self.old.numbers.ring }
    {
        match self.numbers.take(rt) {
            NumberTaken::Item(number) => Some(number),
            NumberTaken::Closed => {
                self.closed = true;
                None
            }
            NumberTaken::Empty(_) => None,
        }
    }
}
