//! The ports of a client and an echo, with a plain service between them.
ghost use Rattle.std.specs.Prelude.{◌≡◌, [], IfOk};
ghost use Rattle.app_stub.specs.Ports.{IsNew};
ghost use Rattle.bench_apps.specs.Services.{AreNewRings, IsNewHeap, IsNewRing, IsUnused, IsUnusedSide};

use crate::discard;
use crate::plain_service::{AppSide, Service};
use crate::taking::SideReader;
use app_stub::AppPort;
use descriptor_ring::{NumberReceiver, NumberSender, Receiver, Sender};
use polling::RunFlag;
use shared_heap::{Reader, Writer};
use std::alloc::{AllocError, Global};
use std::sync::Wait;

// The number of items of each ring.
pub(crate) const CAPACITY: u64 = 64;

// The number of words of each heap. The echo's slices have room for a message of one field.
pub(crate) const WORDS: u64 = 1024;

// Both ends of a heap.
pub(crate) struct HeapEnds {
    pub(crate) writer: Writer,
    pub(crate) reader: Reader,
}

// Written by hand, like those below, so that a drop is one call, not a drop of each part.
impl Drop for HeapEnds {
    fn drop(self) {
        let HeapEnds {
            writer: _writer,
            reader: _reader,
        } = self;
    }
}

impl HeapEnds {
    fn into_ends(self) -> (Writer, Reader)
        ensures { (result.0 ≡ self.writer) × (result.1 ≡ self.reader) }
    {
        let HeapEnds { writer, reader } = self;
        (writer, reader)
    }
}

// Both ends of a ring of descriptors.
pub(crate) struct RingEnds {
    pub(crate) sender: Sender,
    pub(crate) receiver: Receiver,
}

impl Drop for RingEnds {
    fn drop(self) {
        let RingEnds {
            sender: _sender,
            receiver: _receiver,
        } = self;
    }
}

impl RingEnds {
    fn into_ends(self) -> (Sender, Receiver)
        ensures { (result.0 ≡ self.sender) × (result.1 ≡ self.receiver) }
    {
        let RingEnds { sender, receiver } = self;
        (sender, receiver)
    }
}

// The number rings of an application: that of its blocks, which is closed, because no message is in one, and
// that of the blocks that it returns, from which nothing is taken.
pub(crate) struct Numbers {
    pub(crate) blocks: NumberReceiver,
    pub(crate) reclaims: NumberSender,
}

impl Drop for Numbers {
    fn drop(self) {
        let Numbers {
            blocks: _blocks,
            reclaims: _reclaims,
        } = self;
    }
}

impl Numbers {
    fn into_ends(self) -> (NumberReceiver, NumberSender)
        ensures { (result.0 ≡ self.blocks) × (result.1 ≡ self.reclaims) }
    {
        let Numbers { blocks, reclaims } = self;
        (blocks, reclaims)
    }
}

// The rings of an application, and its stop flag.
pub(crate) struct AppRings {
    pub(crate) calls: RingEnds,
    pub(crate) notices: RingEnds,
    pub(crate) numbers: Numbers,
    pub(crate) stop: RunFlag,
}

impl Drop for AppRings {
    fn drop(self) {
        let AppRings {
            calls: _calls,
            notices: _notices,
            numbers: _numbers,
            stop: _stop,
        } = self;
    }
}

impl AppRings {
    // The port of the application, and the service's side of it.
    fn into_sides(self, writer: Writer, reader: Reader) -> (AppPort<RunFlag>, AppSide)
        requires rings { AreNewRings self }
        requires heaps { (self.calls.sender.heap ≡ writer.heap) × (self.notices.sender.heap ≡ reader.heap) }
        requires unused { (writer.stores ≡ []) × (reader.loads ≡ []) }
        ensures new { IsNew result.0 }
        ensures heaps { (result.0.writer.heap ≡ writer.heap) × (result.0.reader.heap ≡ reader.heap) }
        ensures capacity { result.0.capacity ≡ CAPACITY }
        ensures side { IsUnusedSide writer.heap reader.heap result.1 }
    {
        let AppRings {
            calls,
            notices,
            numbers,
            stop,
        } = self;
        let (sender, called) = calls.into_ends();
        let (telling, notices) = notices.into_ends();
        let (blocks, reclaims) = numbers.into_ends();
        let port = AppPort {
            writer,
            sender,
            capacity: CAPACITY,
            notices,
            blocks,
            reader,
            reclaims,
            stop,
        };
        let side = AppSide {
            taking: SideReader::new(called),
            notices: telling,
        };
        (port, side)
    }
}

pub(crate) struct BenchPorts {
    pub(crate) client: AppPort<RunFlag>,
    pub(crate) echo: AppPort<RunFlag>,
    pub(crate) service: Service,
}

// Opens three heaps and the rings of both. The echo copies what the client stored from the client's own heap,
// so the service copies only descriptors.
pub(crate) fn open_ports<R: Wait>(
    rt: &R,
    alloc: Global,
    stop: &RunFlag,
) -> Result<BenchPorts, AllocError>
    ensures new { IfOk result (λ wired. IsNew wired.client × IsNew wired.echo) }
    ensures words { IfOk result (λ wired. (wired.client.writer.heap.words ≡ WORDS)
        × (wired.echo.writer.heap.words ≡ WORDS) × (wired.echo.reader.heap.words ≡ WORDS)) }
    ensures capacity { IfOk result (λ wired. wired.echo.capacity ≡ CAPACITY) }
    ensures service { IfOk result (λ wired. IsUnused wired.service) }
{
    let client = open_heap(alloc)?;
    let echo = open_heap(alloc)?;
    let service = open_heap(alloc)?;
    let rings = open_both(
        rt,
        alloc,
        stop,
        &client.reader,
        &echo.reader,
        &service.reader,
    )?;
    Ok(wire(client, echo, service, rings))
}

fn open_heap(alloc: Global) -> Result<HeapEnds, AllocError>
    ensures { IfOk result IsNewHeap }
{
    let (writer, reader) = shared_heap::open(alloc, WORDS)?;
    Ok(HeapEnds { writer, reader })
}

// The rings of the client and of the echo, for notes of the heaps of these readers.
fn open_both<R: Wait>(
    rt: &R,
    alloc: Global,
    stop: &RunFlag,
    client: &Reader,
    echo: &Reader,
    service: &Reader,
) -> Result<(AppRings, AppRings), AllocError>
    ensures new { IfOk result (λ both. AreNewRings both.0 × AreNewRings both.1) }
    ensures client { IfOk result (λ both. (both.0.calls.sender.heap ≡ client.now.heap)
        × (both.0.notices.sender.heap ≡ service.now.heap)) }
    ensures echo { IfOk result (λ both. (both.1.calls.sender.heap ≡ echo.now.heap)
        × (both.1.notices.sender.heap ≡ client.now.heap)) }
{
    let client_rings = open_rings(rt, alloc, stop, client, service)?;
    let echo_rings = open_rings(rt, alloc, stop, echo, client)?;
    Ok((client_rings, echo_rings))
}

// Opens the rings of an application that stores to the heap of one reader, and receives its messages in the
// other's.
fn open_rings<R: Wait>(
    rt: &R,
    alloc: Global,
    stop: &RunFlag,
    stored: &Reader,
    delivered: &Reader,
) -> Result<AppRings, AllocError>
    ensures new { IfOk result AreNewRings }
    ensures heaps { IfOk result (λ rings. (rings.calls.sender.heap ≡ stored.now.heap)
        × (rings.notices.sender.heap ≡ delivered.now.heap)) }
{
    let stop = stop.try_clone()?;
    let numbers = open_numbers(rt, alloc)?;
    let calls = open_ring(alloc, stored)?;
    let notices = open_ring(alloc, delivered)?;
    Ok(AppRings {
        calls,
        notices,
        numbers,
        stop,
    })
}

fn open_ring(alloc: Global, reader: &Reader) -> Result<RingEnds, AllocError>
    ensures new { IfOk result IsNewRing }
    ensures heap { IfOk result (λ ring. ring.sender.heap ≡ reader.now.heap) }
{
    let (sender, receiver) = descriptor_ring::open(alloc, CAPACITY, reader)?;
    Ok(RingEnds { sender, receiver })
}

fn open_numbers<R: Wait>(rt: &R, alloc: Global) -> Result<Numbers, AllocError>
    ensures { IfOk result (λ numbers. (numbers.blocks.taken ≡ []) × (numbers.reclaims.sent ≡ [])) }
{
    let blocks = closed_numbers(rt, alloc)?;
    let (reclaims, taken) = descriptor_ring::open_numbers(alloc, CAPACITY)?;
    discard(taken);
    Ok(Numbers { blocks, reclaims })
}

// The receiver of a closed ring of numbers that holds none.
fn closed_numbers<R: Wait>(rt: &R, alloc: Global) -> Result<NumberReceiver, AllocError>
    ensures { IfOk result (λ numbers. numbers.taken ≡ []) }
{
    let (sender, receiver) = descriptor_ring::open_numbers(alloc, CAPACITY)?;
    // A new ring has room for its closing.
    discard(sender.close(rt));
    Ok(receiver)
}

// The parts, from three heaps and the rings of the client and the echo.
fn wire(
    client: HeapEnds,
    echo: HeapEnds,
    service: HeapEnds,
    rings: (AppRings, AppRings),
) -> BenchPorts
    requires heaps { IsNewHeap client × IsNewHeap echo × IsNewHeap service }
    requires rings { AreNewRings rings.0 × AreNewRings rings.1 }
    requires client_heaps { (rings.0.calls.sender.heap ≡ client.reader.heap)
        × (rings.0.notices.sender.heap ≡ service.reader.heap) }
    requires echo_heaps { (rings.1.calls.sender.heap ≡ echo.reader.heap)
        × (rings.1.notices.sender.heap ≡ client.reader.heap) }
    ensures new { IsNew result.client × IsNew result.echo }
    ensures words { (result.client.writer.heap.words ≡ WORDS)
        × (result.echo.writer.heap.words ≡ WORDS) × (result.echo.reader.heap.words ≡ WORDS) }
    ensures capacity { result.echo.capacity ≡ CAPACITY }
    ensures service { IsUnused result.service }
{
    let (client_rings, echo_rings) = rings;
    let (writer, delivered) = service.into_ends();
    let (client_writer, stored) = client.into_ends();
    let (echo_writer, placed) = echo.into_ends();
    discard(placed);
    let (client, client_side) = client_rings.into_sides(client_writer, delivered);
    let (echo, echo_side) = echo_rings.into_sides(echo_writer, stored);
    BenchPorts {
        client,
        echo,
        service: Service {
            client: client_side,
            echo: echo_side,
            writer,
        },
    }
}
