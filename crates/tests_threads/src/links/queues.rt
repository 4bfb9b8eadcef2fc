//! Queues that are full, and queues with reserved slots.

ghost use Rattle.std.specs.Prelude.{◌≡◌};
ghost use Rattle.spsc_queue.specs.Ends.{producer_queue, consumer_queue, AreEnds};

use crate::discard;
use mrpc_table::Bytes;
use spsc_queue::{Consumer, Piece, PieceReader, Producer, ReadResult, meet, open};
use std::alloc::Global;
use std::process::Abort;
use std::sync::Wait;

// Pushes an item; returns the item if the queue is full, or else 0.
fn refused<R: Wait>(rt: &R, producer: &mut Producer<u32>, item: u32) -> u32
    ensures queue { producer_queue producer.new ≡ producer_queue producer.old }
{
    match producer.try_push(rt, item) {
        Ok(()) => 0,
        Err(back) => back,
    }
}

// The next item, or 0 if there is none.
fn next<R: Wait>(rt: &R, consumer: &mut Consumer<u32>) -> u32
    ensures queue { consumer_queue consumer.new ≡ consumer_queue consumer.old }
{
    match consumer.pop(rt) {
        Some(item) => item,
        None => 0,
    }
}

#[test]
fn a_full_queue_refuses_and_reserved_places_stay_free(rt: HostRuntime) {
    let (mut producer, mut consumer) = open::<u32>(rt.alloc(), 2).expect(&rt, "memory");
    assert_comes_out(&rt, &mut producer, &mut consumer);
    assert_places_stay(&rt, &mut producer, &mut consumer);
    discard(producer);
    discard(consumer);
}

fn assert_comes_out<R: Abort + Wait>(
    rt: &R,
    producer: &mut Producer<u32>,
    consumer: &mut Consumer<u32>,
)
    requires { AreEnds producer.old consumer.old }
{
    assert!(rt; refused(rt, producer, 7) == 0);
    producer.push_blocking(rt, 8);
    assert!(rt; refused(rt, producer, 9) == 9);
    assert!(rt; producer.len(rt) == 2);
    meet(producer, consumer);
    assert!(rt; next(rt, consumer) == 7);
    assert!(rt; next(rt, consumer) == 8);
    assert!(rt; next(rt, consumer) == 0);
}

// Of two slots one is reserved, and used then.
fn assert_places_stay<R: Abort + Wait>(
    rt: &R,
    producer: &mut Producer<u32>,
    consumer: &mut Consumer<u32>,
) {
    producer.push_leaving(rt, 1, 7);
    producer.push_reserved(rt, 8);
    assert!(rt; refused(rt, producer, 9) == 9);
    assert!(rt; next(rt, consumer) == 7);
    assert!(rt; next(rt, consumer) == 8);
}

fn put_bytes<R: Abort + Wait>(
    rt: &R,
    alloc: Global,
    producer: &mut Producer<Piece<u8>>,
    bytes: &[u8],
) {
    let copy = Bytes::from_slice(alloc, bytes).expect(rt, "memory");
    producer.push_blocking(rt, Piece::Bytes(copy));
}

// A reader of the bytes 7, 8 and 9, of an empty chunk and of the sentinel 5.
fn a_reader<R: Abort + Wait>(rt: &R, alloc: Global) -> PieceReader<u8> {
    let (mut producer, consumer) = open::<Piece<u8>>(alloc, 4).expect(rt, "memory");
    put_bytes(rt, alloc, &mut producer, &[7, 8, 9]);
    put_bytes(rt, alloc, &mut producer, &[]);
    producer.push_blocking(rt, Piece::Sentinel(5));
    PieceReader::new(alloc, consumer)
}

// The result of a read into two bytes: bytes as decimal digits, a sentinel as 100 plus its number, and
// nothing as 0.
fn found<R: Wait>(rt: &R, reader: &mut PieceReader<u8>) -> u32 {
    let mut buf = [0; 2];
    match reader.read(rt, &mut buf) {
        ReadResult::Bytes(1) => u32::from(buf[0]),
        ReadResult::Bytes(_) => u32::from(buf[0])
            .wrapping_mul(10)
            .wrapping_add(u32::from(buf[1])),
        ReadResult::Sentinel(number) => u32::from(number).wrapping_add(100),
        ReadResult::Nothing => 0,
    }
}

#[test]
fn pieces_are_read_as_bytes(rt: HostRuntime) {
    assert_reads(&rt, &mut a_reader(&rt, rt.alloc()));
}

fn assert_reads<R: Abort + Wait>(rt: &R, reader: &mut PieceReader<u8>) {
    assert!(rt; found(rt, reader) == 78);
    assert!(rt; found(rt, reader) == 9);
    assert!(rt; found(rt, reader) == 105);
    assert!(rt; found(rt, reader) == 0);
}
