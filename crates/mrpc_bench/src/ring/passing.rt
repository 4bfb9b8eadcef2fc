//! A writer's thread and a reader's thread, with a ring between them.
ghost use Rattle.std.specs.Prelude.{◌≡◌, ◌<◌, ◌+◌, [], length};
ghost use Rattle.std.specs.Thread.{IsSync};
ghost use Rattle.mrpc_table.specs.Valid.{IsValid};
ghost use Rattle.descriptor_ring.specs.Rings.{IsDescriptorOf};

use descriptor_ring::{Descriptor, Full, Receiver, Sender, Taken};
use graph_copy::CopyResult;
use mrpc_base::Stores;
use mrpc_table::{FieldValue, Memory, Table, Tree, Value};
use shared_heap::{Reader, Writer};
use stable_copy::copy_message;
use std::alloc::{AllocError, Global};
use std::sync::Wait;
use std::thread;
use std::thread::{Threads, join};

// The number of descriptors that the ring holds.
const CAPACITY: u64 = 64;

// The number of slots for messages, of two words each, that are used in turn. There are more than a ring and
// two threads hold, so that no word is overwritten before it was loaded.
const MESSAGES: u64 = 128;

const WORDS: u64 = 258;

// One word of a message is loaded, its number.
const LIMIT: u64 = 1;

// The results of a ring's reader.
#[derive(Clone, Copy)]
pub(crate) struct RingResults {
    // The number of descriptors taken.
    pub taken: u64,
    // The number of their messages that were copied.
    pub copied: u64,
    // The sum of the numbers in these messages, modulo 2^64.
    pub sum: u64,
}

// Sends descriptors of this number of messages of the first type of a table. It doesn't copy a message for
// which it runs out of memory.
pub(crate) fn pass<R: Threads + Wait + Sync>(
    rt: &R,
    alloc: Global,
    table: &Table,
    count: u32,
) -> Result<RingResults, AllocError>
    requires few { count < 4294967294 }
    requires valid { IsValid table.now }
    requires known { 0 < length table.now.messages }
{
    let (writer, reader) = shared_heap::open(alloc, WORDS)?;
    over_heap(rt, alloc, table, u64::from(count), writer, reader)
}

// Like `pass`, over a new heap.
fn over_heap<R: Threads + Wait + Sync>(
    rt: &R,
    alloc: Global,
    table: &Table,
    count: u64,
    writer: Writer,
    mut reader: Reader,
) -> Result<RingResults, AllocError>
    requires count { count < 4294967294 }
    requires words { writer.heap.words ≡ WORDS }
    requires one_heap { reader.heap ≡ writer.heap }
    requires unused { writer.stores ≡ [] }
    requires valid { IsValid table.now }
    requires known { 0 < length table.now.messages }
{
    let (sender, mut receiver) = descriptor_ring::open(alloc, CAPACITY, &reader)?;
    let (_, passed) = join(
        rt,
        move || -> ()
            requires { IsSync R.row × (count < 4294967294) × (writer.heap.words ≡ WORDS)
                × (sender.heap ≡ writer.heap) × (writer.stores ≡ []) × (sender.sent ≡ []) }
        { write_all(rt, count, writer, sender) },
        move || -> RingResults
            requires { IsSync R.row × IsValid table.now × (0 < length table.now.messages) × (reader.heap.words ≡ WORDS)
                × (receiver.heap ≡ reader.heap) }
        { read_all(rt, alloc, table, &mut reader, &mut receiver) },
    );
    Ok(passed)
}

// Stores messages with the numbers 1 to `count`, sends a descriptor of each, and closes the ring.
fn write_all<R: Wait>(rt: &R, count: u64, mut writer: Writer, mut sender: Sender)
    requires count { count < 4294967294 }
    requires words { writer.heap.words ≡ WORDS }
    requires one_heap { sender.heap ≡ writer.heap }
    requires first { (writer.stores ≡ []) × (sender.sent ≡ []) }
{
    send_all(rt, count, &mut writer, &mut sender);
    close(rt, sender);
}

fn send_all<R: Wait>(rt: &R, count: u64, writer: &mut Writer, sender: &mut Sender)
    requires count { count < 4294967294 }
    requires words { writer.old.heap.words ≡ WORDS }
    requires one_heap { sender.old.heap ≡ writer.old.heap }
    requires first { (writer.old.stores ≡ []) × (sender.old.sent ≡ []) }
{
    for number in 1..count + 1 {
        let place = 2 + 2 * (number % MESSAGES);
        writer.store(place, number);
        let descriptor = message(writer, place);
        send(rt, sender, descriptor);
    }
}

fn message(writer: &mut Writer, addr: u64) -> Descriptor
    ensures of_heap { IsDescriptorOf writer.old.heap result }
    ensures same { writer.new ≡ writer.old }
{
    Descriptor {
        kind: 1,
        method: 0,
        number: 0,
        addr,
        stores: writer.stores(),
        note: writer.note(),
    }
}

// Retries until the ring has room.
fn send<R: Wait>(rt: &R, sender: &mut Sender, mut descriptor: Descriptor)
    requires of_heap { IsDescriptorOf sender.old.heap descriptor }
    requires few { length sender.old.sent < 4294967294 }
    ensures sent { length sender.new.sent ≡ length sender.old.sent + 1 }
    ensures heap { sender.new.heap ≡ sender.old.heap }
{
    for _ in rt.forever() {
        match sender.send(rt, descriptor) {
            Ok(()) => return,
            Err(full) => {
                let Full {
                    descriptor: back,
                    lesson: _,
                } = full;
                descriptor = back;
                thread::yield_now();
            }
        }
    }
}

// Retries until the ring has room.
fn close<R: Wait>(rt: &R, mut sender: Sender) {
    for _ in rt.forever() {
        match sender.close(rt) {
            Ok(_) => return,
            Err((back, _)) => sender = back,
        }
        thread::yield_now();
    }
}

// Takes descriptors until the ring is closed, and copies the message of each.
fn read_all<R: Wait>(
    rt: &R,
    alloc: Global,
    table: &Table,
    reader: &mut Reader,
    receiver: &mut Receiver,
) -> RingResults
    requires valid { IsValid table.now }
    requires known { 0 < length table.now.messages }
    requires words { reader.old.heap.words ≡ WORDS }
    requires one_heap { receiver.old.heap ≡ reader.old.heap }
{
    let mut passed = RingResults {
        taken: 0,
        copied: 0,
        sum: 0,
    };
    for _ in rt.forever() {
        match receiver.take(rt) {
            Taken::Item(descriptor) => {
                passed.taken = passed.taken.wrapping_add(1);
                if let Ok(number) = number_of(alloc, table, reader, descriptor) {
                    passed.sum = passed.sum.wrapping_add(number);
                    passed.copied = passed.copied.wrapping_add(1);
                }
            }
            Taken::Closed => return passed,
            Taken::Empty(_) => thread::yield_now(),
        }
    }
    unreachable!()
}

// Meets the descriptor's note, copies its message, and returns its number, or 0 if it has none.
fn number_of(
    alloc: Global,
    table: &Table,
    reader: &mut Reader,
    descriptor: Descriptor,
) -> Result<u64, Memory>
    requires valid { IsValid table.now }
    requires known { 0 < length table.now.messages }
    requires words { reader.old.heap.words ≡ WORDS }
    requires of_heap { IsDescriptorOf reader.old.heap descriptor }
    ensures { reader.new.heap ≡ reader.old.heap }
{
    let Descriptor { addr, note, .. } = descriptor;
    reader.meet(note);
    match copy_message(alloc, reader, table, 0, addr, LIMIT)? {
        CopyResult::Copied { tree, .. } => Ok(number_in(&tree)),
        CopyResult::Malformed { .. } => Ok(0),
    }
}

fn number_in(tree: &Tree) -> u64 {
    match tree.fields.as_slice() {
        [(_, FieldValue::One(Value::Number(number)))] => *number,
        _ => 0,
    }
}
