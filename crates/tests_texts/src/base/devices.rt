//! Devices in memory: sources, sinks, links, words with races, and tickets.

use crate::discard;
use mrpc_base::{
    Came, Got, Handed, Link, MemLink, MemSink, MemSource, PlainTickets, PlainWords, Room, Sink,
    Source, Stores, Tickets, Words, write_all,
};
use std::alloc::Global;
use std::process::Abort;

// Three bytes remain, and the first read returns one of them; the second read fails.
fn is_read(rt: &impl Abort, source: &mut MemSource) {
    let mut buf = [0; 8];
    assert!(rt; source.read(&mut buf) == Got::Bytes(1));
    assert!(rt; source.read(&mut buf) == Got::Failed);
    assert!(rt; source.read(&mut buf) == Got::Bytes(2));
    assert!(rt; buf[1] == b'c');
    assert!(rt; source.read(&mut buf) == Got::End);
    assert!(rt; source.failures() == 1);
}

#[test]
fn a_source_gives_its_bytes_in_order(rt: HostRuntime) {
    let alloc = rt.alloc();
    let bytes = b"abc".to_vec(alloc).expect(&rt, "memory");
    let failing = [2].to_vec(alloc).expect(&rt, "memory");
    let lengths = [1].to_vec(alloc).expect(&rt, "memory");
    let mut source = MemSource::new(bytes, failing, lengths);
    is_read(&rt, &mut source);
    discard(source);
}

// The second write fails.
fn is_written(rt: &impl Abort, sink: &mut MemSink) {
    assert!(rt; write_all(sink, b"ab"));
    assert!(rt; !write_all(sink, b"c"));
    assert!(rt; write_all(sink, b"de"));
    assert!(rt; sink.written() == b"abde".as_slice());
    assert!(rt; sink.failures() == 1);
}

#[test]
fn bytes_are_written_whole_or_a_write_failed(rt: HostRuntime) {
    let failing = [2].to_vec(rt.alloc()).expect(&rt, "memory");
    let mut sink = MemSink::new(rt.alloc(), failing);
    is_written(&rt, &mut sink);
    discard(sink);
}

// A link with two bytes to receive. Its second send fails, and its first receive is idle.
fn link(rt: &impl Abort, alloc: Global) -> MemLink {
    let incoming = b"xy".to_vec(alloc).expect(rt, "memory");
    let lengths = [0].to_vec(alloc).expect(rt, "memory");
    let failing = [2].to_vec(alloc).expect(rt, "memory");
    MemLink::new(alloc, incoming, lengths, failing, Vec::new(alloc))
}

fn is_sent(rt: &impl Abort, link: &mut MemLink) {
    assert!(rt; link.send(b"ab") == Handed::Done);
    assert!(rt; link.send(b"c") == Handed::Failed);
    link.finish();
    assert!(rt; link.send(b"d") == Handed::Failed);
    assert!(rt; link.failures() == 2);
    assert!(rt; link.handed().len() == 1);
}

#[test]
fn a_link_keeps_the_frames_that_it_was_handed(rt: HostRuntime) {
    let mut link = link(&rt, rt.alloc());
    is_sent(&rt, &mut link);
    discard(link);
}

fn is_received(rt: &impl Abort, link: &mut MemLink) {
    let mut buf = [0; 1];
    assert!(rt; link.receive(&mut buf) == Came::Idle);
    assert!(rt; link.receive(&mut buf) == Came::Bytes(1));
    assert!(rt; link.receive(&mut buf) == Came::Bytes(1));
    assert!(rt; buf[0] == b'y');
    assert!(rt; link.receive(&mut buf) == Came::End);
    assert!(rt; link.has_ended());
}

#[test]
fn a_link_gives_its_bytes_in_order(rt: HostRuntime) {
    let mut link = link(&rt, rt.alloc());
    is_received(&rt, &mut link);
    discard(link);
}

#[test]
fn races_are_made_right_before_their_loads(rt: HostRuntime) {
    let mut heap = PlainWords::open(rt.alloc(), 8).expect(&rt, "memory");
    assert!(rt; heap.room_stores(1) == Room::Made);
    assert!(rt; heap.room_loads(2) == Room::Made);
    heap.store(2, 150);
    assert!(rt; heap.race(2, 2, 9) == Room::Made);
    assert!(rt; heap.race(7, 3, 70) == Room::Made);
    assert!(rt; heap.load(2) == 150);
    assert!(rt; heap.load(2) == 9);
    heap.finish_submission();
    assert!(rt; heap.made() == 3);
    assert!(rt; heap.loads_made() == 2);
    discard(heap);
}

#[test]
fn tickets_are_numbered_in_each_window(rt: HostRuntime) {
    let mut quotas = PlainTickets::new(rt.alloc(), 2).expect(&rt, "memory");
    assert!(rt; quotas.draw(1, 1023) == 0);
    assert!(rt; quotas.draw(1, 1023) == 1);
    assert!(rt; quotas.draw(0, 1023) == 0);
    discard(quotas);
}
