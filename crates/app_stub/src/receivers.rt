//! The inputs of an application: notices of messages, and the numbers of their blocks, which it reclaims.

ghost use Rattle.std.specs.Prelude.{◌≡◌, ◌<◌, ◌≤◌, ◌+◌, ◌^◌, ◌++◌, ℕ, List, false, OnOk, OnErr, IsTrue, length};
ghost use Rattle.app_stub.specs.Serving.{blocks_of};
ghost use Rattle.app_stub.specs.Pairing.{IsBlockDue, IsPaired};

use crate::waiting::{self, Stopped};
use descriptor_ring::{NumberReceiver, NumberSender, Receiver};
use polling::StopFlag;
use std::sync::Wait;

// The receivers of an application.
#[derive(Drop)]
pub(crate) struct AppReceivers {
    pub(crate) notices: Receiver,
    pub(crate) blocks: NumberReceiver,
}

impl AppReceivers {
    // Reclaims the block of the notice that was taken last: the next number, unless the ring is closed.
    pub(crate) fn reclaim_block<R: Wait, F: StopFlag>(
        &mut self,
        rt: &R,
        stop: &F,
        reclaims: &mut NumberSender,
    ) -> Result<(), Stopped>
        requires due { IsBlockDue self.old.notices.taken self.old.blocks }
        requires few { length reclaims.old.sent < 2 ^ 61 }
        ensures paired { OnOk result (IsPaired self.new.notices.taken self.new.blocks) }
        // What is reclaimed is what arrived.
        ensures given { (first : List ℕ) → reclaims.old.sent ≡ first ++ self.old.blocks.taken
            → OnOk result (reclaims.new.sent ≡ first ++ self.new.blocks.taken) }
        ensures seen { OnErr result (F.may_be_set stop.now) }
        ensures ring { reclaims.new.ring ≡ reclaims.old.ring }
        ensures notices { self.new.notices ≡ self.old.notices }
        ensures blocks { self.new.blocks.ring ≡ self.old.blocks.ring }
    {
        match waiting::next_block(rt, stop, &mut self.blocks)? {
            Some(block) => waiting::reclaim(rt, stop, reclaims, block),
            None => Ok(()),
        }
    }

    // Takes the numbers up to their closing. Numbers without a notice aren't reclaimed.
    pub(crate) fn finish<R: Wait, F: StopFlag>(&mut self, rt: &R, stop: &F) -> Result<(), Stopped>
        requires paired { IsPaired self.old.notices.taken self.old.blocks }
        ensures blocks_of { OnOk result (blocks_of self.new.notices.taken self.new.blocks.taken
            ≡ self.old.blocks.taken) }
        ensures closed { OnOk result (IsTrue self.new.blocks.closed) }
        ensures seen { OnErr result (F.may_be_set stop.now) }
        ensures notices { self.new.notices ≡ self.old.notices }
        ensures ring { self.new.blocks.ring ≡ self.old.blocks.ring }
    {
        for _ in rt.forever() {
            if waiting::next_block(rt, stop, &mut self.blocks)?.is_none() {
                return Ok(());
            }
        }
        unreachable!()
    }
}
