//! The end of a queue of bytes that reads.

ghost use Rattle.std.specs.Prelude.{◌≡◌, ◌≤◌, ◌++◌, drop, length};
ghost use Rattle.spsc_queue.specs.Ends.{popped_of};
ghost use Rattle.spsc_queue.specs.Pieces.{bytes_of_pieces};

use crate::byte_trace::ByteTrace;
use crate::{Consumer, Piece, Producer, ReadResult, meet};
use mrpc_table::Bytes;
use std::alloc::Global;
use std::sync::Wait;

/// The end of a queue of bytes. It reads them into buffers.
#[derive(Drop)]
pub struct PieceReader<M> {
    pub(crate) consumer: Consumer<Piece<M>>,
    // The piece that was popped last, and how many of its bytes were delivered.
    piece: Bytes,
    at: usize,
    pub(crate) given: ByteTrace,
    ghost within: { at ≤ length piece },
    ghost gives: { given.bytes ++ drop at piece ≡ bytes_of_pieces (popped_of consumer) },
}

// What a reader popped.
enum NextPiece<M> {
    Bytes,
    Sentinel(M),
    Nothing,
}

impl<M> PieceReader<M> {
    ghost use Rattle.std.specs.Prelude.{◌<◌, [], ◌∷◌, take};
    ghost use mathlib.Core.List.{IsPrefix};
    ghost use Rattle.spsc_queue.specs.Ends.{known_pushed_of, pushed_of, free_of, capacity_of, producer_queue, consumer_queue};
    ghost use Rattle.spsc_queue.specs.Pieces.{OnBytes, OnSentinel, OnNothing, OnNoBytes, OnNoSentinel, sentinels_of, OnNextBytes, OnNextSentinel, OnNoNextBytes, OnNoNext};
    ghost use Rattle.spsc_queue.specs.Sides.{ArePrefixComparable};
    ghost use Rattle.spsc_queue.specs.Readers.{delivered_by, popped_by, known_pushed_by, reader_queue};

    /// A reader that has delivered nothing.
    pub fn new(alloc: Global, consumer: Consumer<Piece<M>>) -> PieceReader<M>
        requires { popped_of consumer ≡ [] }
        ensures given { delivered_by result ≡ [] }
        ensures taken { popped_by result ≡ [] }
        ensures told { known_pushed_by result ≡ known_pushed_of consumer }
        ensures queue { reader_queue result ≡ consumer_queue consumer }
    {
        PieceReader {
            consumer,
            piece: Bytes::new(alloc),
            at: 0,
            given: ByteTrace::new(),
        }
    }

    /// Reads the next bytes into the start of `buf`, or the next sentinel. Returns `Nothing` only if the queue was
    /// empty at some point during the call and every byte that this end knows to be pushed was delivered.
    pub fn read<R: Wait>(&mut self, rt: &R, buf: &mut [u8]) -> ReadResult<M>
        requires room { 0 < length buf.old }

        ensures count { OnBytes result (λ n. (0 < n) × (n ≤ length buf.old)) }
        ensures given { OnBytes result (λ n. delivered_by self.new ≡ delivered_by self.old ++ take n buf.new) }
        ensures no_bytes { OnNoBytes result (delivered_by self.new ≡ delivered_by self.old) }
        // After a sentinel or an empty queue.
        ensures mark { OnSentinel result (λ mark.
            sentinels_of (popped_by self.new) ≡ sentinels_of (popped_by self.old) ++ mark ∷ []) }
        ensures agree { OnSentinel result (λ mark. ArePrefixComparable (known_pushed_by self.old) (popped_by self.new)) }
        ensures no_mark { OnNoSentinel result (sentinels_of (popped_by self.new) ≡ sentinels_of (popped_by self.old)) }
        ensures all { OnNoBytes result (delivered_by self.new ≡ bytes_of_pieces (popped_by self.new)) }
        ensures empty { OnNothing result (IsPrefix (known_pushed_by self.old) (popped_by self.new)) }

        ensures told { known_pushed_by self.new ≡ known_pushed_by self.old }
        ensures queue { reader_queue self.new ≡ reader_queue self.old }
    {
        for _ in rt.forever() {
            if self.at < self.piece.len() {
                return ReadResult::Bytes(self.deliver(buf));
            }
            match self.next_piece(rt) {
                NextPiece::Bytes => {}
                NextPiece::Sentinel(mark) => return ReadResult::Sentinel(mark),
                NextPiece::Nothing => return ReadResult::Nothing,
            }
        }
        unreachable!()
    }

    /// Reconciles both ends of the queue, like [`meet`]. What was delivered is a prefix of the bytes that were
    /// pushed, and from now on this end knows of every item that was pushed.
    pub fn meet(&mut self, producer: &mut Producer<Piece<M>>)
        requires { producer_queue producer.old ≡ reader_queue self.old }
        ensures in_order { IsPrefix (popped_by self.new) (pushed_of producer.new) }
        ensures bytes { IsPrefix (delivered_by self.new) (bytes_of_pieces (pushed_of producer.new)) }
        ensures told { known_pushed_by self.new ≡ pushed_of producer.new }
        ensures put { pushed_of producer.new ≡ pushed_of producer.old }
        ensures free { free_of producer.new ≡ free_of producer.old }
        ensures taken { popped_by self.new ≡ popped_by self.old }
        ensures given { delivered_by self.new ≡ delivered_by self.old }
        ensures producer_queue { producer_queue producer.new ≡ producer_queue producer.old }
        ensures reader_queue { reader_queue self.new ≡ reader_queue self.old }
        ensures capacity { capacity_of producer.new ≡ capacity_of producer.old }
    {
        meet(producer, &mut self.consumer);
    }

    // Pops the next piece, once every byte of the current one was delivered.
    #[tactic(auto, using(crate::proofs::GivenLemmas::bytes_of_snoc_bytes, crate::proofs::GivenLemmas::bytes_of_snoc_mark, crate::proofs::GivenLemmas::marks_of_snoc_bytes, crate::proofs::GivenLemmas::marks_of_snoc_mark))]
    fn next_piece<R: Wait>(&mut self, rt: &R) -> NextPiece<M>
        requires done { length self.old.piece ≤ self.old.at }
        ensures given { delivered_by self.new ≡ delivered_by self.old }
        ensures mark { OnNextSentinel result (λ mark.
            sentinels_of (popped_by self.new) ≡ sentinels_of (popped_by self.old) ++ mark ∷ []) }
        ensures agree { OnNextSentinel result
            (λ mark. ArePrefixComparable (known_pushed_by self.old) (popped_by self.new)) }
        ensures no_mark { OnNextBytes result (sentinels_of (popped_by self.new) ≡ sentinels_of (popped_by self.old)) }
        ensures all { OnNoNextBytes result (delivered_by self.new ≡ bytes_of_pieces (popped_by self.new)) }
        ensures empty { OnNoNext result ((popped_by self.new ≡ popped_by self.old)
            × IsPrefix (known_pushed_by self.old) (popped_by self.old)) }
        ensures told { known_pushed_by self.new ≡ known_pushed_by self.old }
        ensures queue { reader_queue self.new ≡ reader_queue self.old }
    {
        match self.consumer.pop(rt) {
            None => NextPiece::Nothing,
            Some(Piece::Sentinel(mark)) => NextPiece::Sentinel(mark),
            Some(Piece::Bytes(bytes)) => {
                self.piece = bytes;
                self.at = 0;
                NextPiece::Bytes
            }
        }
    }

    // Delivers the next bytes of the current piece.
    fn deliver(&mut self, buf: &mut [u8]) -> usize
        requires room { 0 < length buf.old }
        requires left { self.old.at < length self.old.piece }
        ensures count { (0 < result) × (result ≤ length buf.old) }
        ensures given { delivered_by self.new ≡ delivered_by self.old ++ take result buf.new }
        ensures taken { popped_by self.new ≡ popped_by self.old }
        ensures told { known_pushed_by self.new ≡ known_pushed_by self.old }
        ensures queue { reader_queue self.new ≡ reader_queue self.old }
    {
        let left = &self.piece.as_slice()[self.at..];
        let count = left.len().min(buf.len());
        let next = &left[..count];
        buf[..count].copy_from_slice(next);
        self.given = ByteTrace::with(&self.given, next);
        self.at += count;
        count
    }
}
