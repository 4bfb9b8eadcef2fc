//! The stores of program lines, and the descriptors of calls.

ghost use Rattle.std.specs.Prelude.{◌≡◌, ◌<◌, ◌≤◌, ◌+◌, ◌*◌, ◌^◌, ◌++◌, length};
ghost use Rattle.descriptor_ring.specs.Rings.{IsDescriptorOf};
ghost use Rattle.app_program.specs.Programs.{IsStorePlace, HasStoresIn, repeated_stores, line_stores};
ghost use Rattle.app_stub.specs.Serving.{submission_of};

use app_program::ProgramLine;
use descriptor_ring::Descriptor;
use mrpc_base::Stores;
use shared_heap::Writer;

// Executes the stores of a line.
pub(crate) fn store_line(writer: &mut Writer, line: &ProgramLine)
    requires places { HasStoresIn writer.old.heap.words line.now }
    requires few { length writer.old.stores + length (line_stores line.now) ≤ 2 ^ 63 }
    ensures stores { writer.new.stores ≡ writer.old.stores ++ line_stores line.now }
    ensures heap { writer.new.heap ≡ writer.old.heap }
{
    match line {
        ProgramLine::Store { place, value } => writer.store(u64::from(*place), *value),
        ProgramLine::Spin {
            times,
            place,
            first,
            second,
        } => spin(writer, *times, *place, *first, *second),
        _ => {}
    }
}

fn spin(writer: &mut Writer, times: u32, place: u32, first: u64, second: u64)
    requires place { IsStorePlace writer.old.heap.words place }
    requires few { length writer.old.stores + 2 * times ≤ 2 ^ 63 }
    ensures stores { writer.new.stores ≡ writer.old.stores ++ repeated_stores times (place, first) (place, second) }
    ensures heap { writer.new.heap ≡ writer.old.heap }
{
    for _ in 0..times {
        writer.store(u64::from(place), first);
        writer.store(u64::from(place), second);
    }
}

// A call after all stores so far. Its kind is 1 for a request and 2 for a reply.
pub(crate) fn call(writer: &mut Writer, kind: u8, method: u16, number: u32, addr: u64) -> Descriptor
    requires kind { (1 ≤ kind) × (kind ≤ 2) }
    ensures of_heap { IsDescriptorOf writer.old.heap result }
    ensures asks { submission_of result
        ≡ record { method = method; number = number; addr = addr; after = length writer.old.stores } }
    ensures same { writer.new ≡ writer.old }
{
    Descriptor {
        kind,
        method,
        number,
        addr,
        stores: writer.stores(),
        note: writer.note(),
    }
}
