//! The port of an application, and the service's ends of it.

ghost use Rattle.std.specs.Prelude.{IfOk};
ghost use Rattle.run_plan.specs.Links.{HasNumbersInRange};
ghost use Rattle.service_wiring.specs.RingEnds.{IsOpenedPort};

use crate::ring_ends::{AppRingEnds, open_ends};
use app_stub::AppPort;
use descriptor_ring::Receiver;
use mrpc_table::Memory;
use polling::RunFlag;
use run_plan::Application;
use service_loop::NoticeRings;
use shared_heap::Reader;
use std::alloc::Global;

// A port, the reader of the heap that its application writes, and the service's ends of its rings.
#[derive(Drop)]
pub(crate) struct OpenedPort {
    pub port: AppPort<RunFlag>,
    pub own_reader: Reader,
    pub calls: Receiver,
    pub rings: NoticeRings,
}

// Opens the heap that an application writes, and its rings. The application reads its messages by `reader`.
pub(crate) fn open_port(
    alloc: Global,
    app: &Application,
    stop: &RunFlag,
    reader: Reader,
) -> Result<OpenedPort, Memory>
    requires { HasNumbersInRange app.now }
    ensures { IfOk result (IsOpenedPort app.now reader) }
{
    let stop = stop.try_clone()?;
    let (writer, own_reader) = shared_heap::open(alloc, app.heap)?;
    let AppRingEnds {
        sender,
        noticed,
        numbered,
        reclaims,
        calls,
        rings,
    } = open_ends(alloc, app.ring, &own_reader, &reader)?;
    let port = AppPort {
        writer,
        sender,
        capacity: app.ring,
        notices: noticed,
        blocks: numbered,
        reader,
        reclaims,
        stop,
    };
    Ok(OpenedPort {
        port,
        own_reader,
        calls,
        rings,
    })
}
