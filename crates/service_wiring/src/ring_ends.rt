//! The rings between an application and the service.

ghost use Rattle.std.specs.Prelude.{◌≤◌, IfOk};
ghost use Rattle.descriptor_ring.specs.declared.limits.TheConstants.{MAX_CAPACITY};
ghost use Rattle.service_wiring.specs.RingEnds.{AreRingEnds};

use descriptor_ring::{NumberReceiver, NumberSender, Receiver, Sender};
use mrpc_table::Memory;
use service_loop::NoticeRings;
use shared_heap::Reader;
use std::alloc::Global;

// The application's ends, and the service's ends.
#[derive(Drop)]
pub(crate) struct AppRingEnds {
    pub sender: Sender,
    pub noticed: Receiver,
    pub numbered: NumberReceiver,
    pub reclaims: NumberSender,
    pub calls: Receiver,
    pub rings: NoticeRings,
}

// Opens the rings. Calls belong to the heap that `sent` reads, notices to the heap that `received` reads.
pub(crate) fn open_ends(
    alloc: Global,
    cap: u64,
    sent: &Reader,
    received: &Reader,
) -> Result<AppRingEnds, Memory>
    requires least { 1 ≤ cap }
    requires most { cap ≤ MAX_CAPACITY }
    ensures { IfOk result (AreRingEnds cap sent.now.heap received.now.heap) }
{
    let (sender, calls) = descriptor_ring::open(alloc, cap, sent)?;
    let (notices, noticed) = descriptor_ring::open(alloc, cap, received)?;
    let (blocks, numbered) = descriptor_ring::open_numbers(alloc, cap)?;
    let (reclaims, given_back) = descriptor_ring::open_numbers(alloc, cap)?;
    Ok(AppRingEnds {
        sender,
        noticed,
        numbered,
        reclaims,
        calls,
        rings: NoticeRings {
            notices,
            blocks,
            reclaims: given_back,
        },
    })
}
