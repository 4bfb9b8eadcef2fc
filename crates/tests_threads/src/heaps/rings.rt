//! Rings of numbers and of descriptors: full, empty and closed. The program sends items from thread to
//! thread.

ghost use Rattle.std.specs.Prelude.{◌≡◌, ◌≤◌, ◌<◌, ◌+◌, [], length};
ghost use Rattle.descriptor_ring.specs.Rings.{IsDescriptorOf};

use crate::discard;
use crate::heaps::notes::a_heap;
use descriptor_ring::{
    Descriptor, NumberReceiver, NumberSender, NumberTaken, NumbersSent, Receiver, Sender, Sent,
    Taken, open, open_numbers,
};
use mrpc_base::{Stores, Words};
use shared_heap::{Reader, Writer};
use std::process::Abort;
use std::sync::Wait;

// What a take returns in place of an item.
const CLOSED: u64 = 1000;

const EMPTY: u64 = 2000;

// Sends a number, and returns how many items a full ring held, or 0 if there was room.
fn held<R: Wait>(rt: &R, sender: &mut NumberSender, number: u64) -> u64
    requires { length sender.old.sent < 10 }
    ensures few { length sender.new.sent ≤ length sender.old.sent + 1 }
    ensures ring { sender.new.ring ≡ sender.old.ring }
{
    match sender.send(rt, number) {
        Ok(()) => 0,
        Err(full) => full.lesson.held(),
    }
}

// Takes the next number, or returns `CLOSED`, or `EMPTY` plus how many the ring held.
fn taken<R: Wait>(rt: &R, receiver: &mut NumberReceiver) -> u64
    ensures { receiver.new.ring ≡ receiver.old.ring }
{
    match receiver.take(rt) {
        NumberTaken::Item(number) => number,
        NumberTaken::Closed => CLOSED,
        NumberTaken::Empty(lesson) => EMPTY.saturating_add(lesson.held()),
    }
}

// Closes a ring that has room.
fn closed<R: Abort + Wait>(rt: &R, sender: NumberSender) -> NumbersSent
    ensures { result.ring ≡ sender.ring }
{
    match sender.close(rt) {
        Ok(sent) => sent,
        Err(_) => panic!(rt; "there was room"),
    }
}

// The sender of a full ring of two numbers, which can't be closed.
fn unclosed<R: Abort + Wait>(rt: &R, sender: NumberSender) -> NumberSender
    ensures { result ≡ sender }
{
    match sender.close(rt) {
        Ok(_) => panic!(rt; "it was full"),
        Err((sender, lesson)) => {
            assert!(rt; lesson.held() == 2);
            sender
        }
    }
}

#[test]
fn a_full_ring_of_numbers_refuses_and_is_closed_once_there_is_room(rt: HostRuntime) {
    let (mut sender, mut receiver) = open_numbers(rt.alloc(), 2).expect(&rt, "memory");
    assert_none(&rt, &mut receiver);
    assert_fills(&rt, &mut sender);
    let mut sender = unclosed(&rt, sender);
    assert_observed(&rt, &mut sender, &mut receiver);
    let sent = closed(&rt, sender);
    receiver.observe_all(sent);
    assert_ends(&rt, &mut receiver);
    discard(receiver);
}

fn assert_none<R: Abort + Wait>(rt: &R, receiver: &mut NumberReceiver)
    ensures { receiver.new.ring ≡ receiver.old.ring }
{
    assert!(rt; taken(rt, receiver) == EMPTY);
}

fn assert_fills<R: Abort + Wait>(rt: &R, sender: &mut NumberSender)
    requires { sender.old.sent ≡ [] }
    ensures { sender.new.ring ≡ sender.old.ring }
{
    assert!(rt; held(rt, sender, 7) == 0);
    assert!(rt; held(rt, sender, 8) == 0);
    assert!(rt; held(rt, sender, 9) == 2);
}

// Each end observes the ring's progress, before and after the take of the first number.
fn assert_observed<R: Abort + Wait>(
    rt: &R,
    sender: &mut NumberSender,
    receiver: &mut NumberReceiver,
)
    requires { receiver.old.ring ≡ sender.old.ring }
    ensures { (receiver.new.ring ≡ receiver.old.ring) × (sender.new.ring ≡ sender.old.ring) }
{
    receiver.observe(sender.progress());
    assert!(rt; taken(rt, receiver) == 7);
    sender.observe(receiver.progress());
}

fn assert_ends<R: Abort + Wait>(rt: &R, receiver: &mut NumberReceiver) {
    assert!(rt; taken(rt, receiver) == 8);
    assert!(rt; taken(rt, receiver) == CLOSED);
}

// A descriptor of what the writer stored at place 2.
fn submission(writer: &mut Writer) -> Descriptor
    ensures of_heap { IsDescriptorOf writer.old.heap result }
    ensures same { writer.new ≡ writer.old }
{
    Descriptor {
        kind: 1,
        method: 0,
        number: 0,
        addr: 2,
        stores: writer.stores(),
        note: writer.note(),
    }
}

// Sends a descriptor, and returns how many items a full ring held, or 0 if there was room.
fn waiting<R: Wait>(rt: &R, writer: &mut Writer, sender: &mut Sender) -> u64
    requires one_heap { sender.old.heap ≡ writer.old.heap }
    requires few { length sender.old.sent < 10 }
    ensures writer { writer.new ≡ writer.old }
    ensures heap { sender.new.heap ≡ sender.old.heap }
    ensures ring { sender.new.ring ≡ sender.old.ring }
    ensures few { length sender.new.sent ≤ length sender.old.sent + 1 }
{
    match sender.send(rt, submission(writer)) {
        Ok(()) => 0,
        Err(full) => full.lesson.held(),
    }
}

// Takes the next descriptor and meets its note; returns its address, or `CLOSED`, or `EMPTY` plus how many
// there were.
fn met<R: Wait>(rt: &R, reader: &mut Reader, receiver: &mut Receiver) -> u64
    requires { receiver.old.heap ≡ reader.old.heap }
    ensures ring { receiver.new.ring ≡ receiver.old.ring }
    ensures heaps { (receiver.new.heap ≡ receiver.old.heap) × (reader.new.heap ≡ reader.old.heap) }
{
    match receiver.take(rt) {
        Taken::Item(descriptor) => {
            let Descriptor { addr, note, .. } = descriptor;
            reader.meet(note);
            addr
        }
        Taken::Closed => CLOSED,
        Taken::Empty(lesson) => EMPTY.saturating_add(lesson.held()),
    }
}

// Closes a ring of descriptors that has room.
fn all_sent<R: Abort + Wait>(rt: &R, sender: Sender) -> Sent
    ensures { result.ring ≡ sender.ring }
{
    match sender.close(rt) {
        Ok(sent) => sent,
        Err(_) => panic!(rt; "there was room"),
    }
}

#[test]
fn a_full_ring_of_one_descriptor_refuses(rt: HostRuntime) {
    let (mut writer, mut reader) = a_heap(&rt, rt.alloc());
    let (mut sender, mut receiver) = open(rt.alloc(), 1, &reader).expect(&rt, "memory");
    assert_one_waits(&rt, &mut writer, &mut sender);
    receiver.observe(sender.progress());
    assert_one_comes(&rt, &mut reader, &mut receiver);
    sender.observe(receiver.progress());
    receiver.observe_all(all_sent(&rt, sender));
    assert_all_came(&rt, &mut reader, &mut receiver);
    discard(receiver);
    discard(writer);
    discard(reader);
}

fn assert_one_waits<R: Abort + Wait>(rt: &R, writer: &mut Writer, sender: &mut Sender)
    requires words { writer.old.heap.words ≡ 4 }
    requires one_heap { sender.old.heap ≡ writer.old.heap }
    requires unused { (writer.old.stores ≡ []) × (sender.old.sent ≡ []) }
    ensures ring { sender.new.ring ≡ sender.old.ring }
{
    writer.store(1, 9);
    assert!(rt; waiting(rt, writer, sender) == 0);
    assert!(rt; waiting(rt, writer, sender) == 1);
}

// A store before the send of the descriptor is loaded.
fn assert_one_comes<R: Abort + Wait>(rt: &R, reader: &mut Reader, receiver: &mut Receiver)
    requires words { reader.old.heap.words ≡ 4 }
    requires one_heap { receiver.old.heap ≡ reader.old.heap }
    ensures ring { receiver.new.ring ≡ receiver.old.ring }
    ensures heaps { (receiver.new.heap ≡ receiver.old.heap) × (reader.new.heap ≡ reader.old.heap) }
{
    assert!(rt; met(rt, reader, receiver) == 2);
    assert!(rt; reader.load(1) == 9);
    assert!(rt; met(rt, reader, receiver) == EMPTY);
}

fn assert_all_came<R: Abort + Wait>(rt: &R, reader: &mut Reader, receiver: &mut Receiver)
    requires { receiver.old.heap ≡ reader.old.heap }
{
    assert!(rt; met(rt, reader, receiver) == CLOSED);
}
