//! A heap, and the notes of the stores to it.

ghost use Rattle.std.specs.Prelude.{◌≡◌, []};

use crate::discard;
use mrpc_base::{Room, Stores, Words};
use shared_heap::{Note, Reader, Writer, open};
use std::alloc::Global;
use std::process::Abort;

// The two ends of a new heap of four words.
pub(crate) fn a_heap(rt: &impl Abort, alloc: Global) -> (Writer, Reader)
    ensures words { result.0.heap.words ≡ 4 }
    ensures one_heap { result.1.heap ≡ result.0.heap }
    ensures stores { result.0.stores ≡ [] }
{
    open(alloc, 4).expect(rt, "memory")
}

#[test]
fn a_met_note_brings_its_stores(rt: HostRuntime) {
    let (mut writer, mut reader) = a_heap(&rt, rt.alloc());
    assert_new(&rt, &mut writer, &mut reader);
    let early = store_twice(&mut writer);
    assert_stored(&rt, &early, &writer);
    // Notes may be met in any order.
    reader.meet(writer.note());
    reader.meet(early);
    assert_loaded(&rt, &mut reader);
    discard(writer);
    discard(reader);
}

fn assert_new(rt: &impl Abort, writer: &mut Writer, reader: &mut Reader)
    requires { reader.old.heap.words ≡ 4 }
    ensures writer { writer.new ≡ writer.old }
    ensures reader { reader.new.heap ≡ reader.old.heap }
{
    assert!(rt; writer.size() == 4);
    assert!(rt; reader.words() == 4);
    assert!(rt; writer.room_stores(u64::MAX) == Room::Made);
    assert!(rt; reader.room_loads(u64::MAX) == Room::Made);
    assert!(rt; reader.load(3) == 0);
}

// A note of the first store, which a second one follows.
fn store_twice(writer: &mut Writer) -> Note
    requires words { writer.old.heap.words ≡ 4 }
    requires unused { writer.old.stores ≡ [] }
    ensures heaps { (result.heap ≡ writer.old.heap) × (writer.new.heap ≡ writer.old.heap) }
{
    writer.store(2, 150);
    let early = writer.note();
    writer.store(2, 9);
    early
}

fn assert_stored(rt: &impl Abort, early: &Note, writer: &Writer) {
    assert!(rt; early.stores() == 1);
    assert!(rt; writer.stores() == 2);
    assert!(rt; writer.made() == 2);
}

fn assert_loaded(rt: &impl Abort, reader: &mut Reader)
    requires { reader.old.heap.words ≡ 4 }
{
    assert!(rt; reader.load(2) == 9);
    assert!(rt; reader.load(3) == 0);
}
