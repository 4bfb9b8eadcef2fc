//! The items of a queue of bytes.

use mrpc_table::Bytes;

/// An item of a queue of bytes.
#[derive(Drop)]
pub enum Piece<M> {
    /// The next bytes, possibly none.
    Bytes(Bytes),
    /// A sentinel between bytes, or after them.
    Sentinel(M),
}

/// The result of a read from a queue of bytes.
#[derive(Drop)]
pub enum ReadResult<M> {
    /// This many bytes, from 1 to the buffer's length, were written to the start of the buffer.
    Bytes(usize),
    /// A sentinel. Every byte before it was delivered.
    Sentinel(M),
    /// The queue was empty.
    Nothing,
}
