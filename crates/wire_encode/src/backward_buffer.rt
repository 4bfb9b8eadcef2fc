//! A buffer that is filled from its end.

ghost use Rattle.std.specs.Prelude.{◌≡◌, ℕ, ◌+◌, ◌-◌, ◌<◌, ◌≤◌, [], ◌++◌, length, drop, IfOk, OnOk};
ghost use Rattle.wire_base.specs.Encoding.{varint};
ghost use Rattle.wire_encode.specs.Written.{AreWrittenBefore};

use mrpc_table::{Bytes, Memory};
use std::alloc::Global;
use std::marker::Model;
use wire_base::{MAX_VARINT, fill_varint, varint_is_read_back, varint_len};

// The first capacity of the buffer, in bytes.
const FIRST_ROOM: usize = 32;

/// A buffer that is filled from its end, so that a message's length is known before its length prefix is written. Each
/// write puts its bytes before those written so far. The capacity doubles when it is used up, so that the time is
/// linear in the bytes.
#[derive(Drop)]
pub struct BackwardBuffer {
    alloc: Global,
    // The written bytes are at `start` and after it.
    bytes: Vec<u8>,
    start: usize,
}

impl Model for BackwardBuffer {
    ghost use Rattle.std.specs.Prelude.{ℕ, List, ◌≤◌, length, drop};

    ghost Value = { List ℕ };

    ghost view = { λ o. drop o.start o.bytes.items };

    ghost invariant = { λ o. o.start ≤ length o.bytes.items };
}

impl BackwardBuffer {
    /// An empty buffer.
    pub fn new(alloc: Global) -> Result<BackwardBuffer, Memory>
        ensures { IfOk result (λ out. out ≡ []) }
    {
        Ok(BackwardBuffer {
            alloc,
            bytes: vec![in alloc; 0u8; FIRST_ROOM]?,
            start: FIRST_ROOM,
        })
    }

    /// The bytes written so far.
    pub fn as_slice(&self) -> &[u8]
        ensures { result.now ≡ self.now }
    {
        &self.bytes[self.start..]
    }

    // Removes all bytes. The capacity is kept.
    pub(crate) fn clear(&mut self)
        ensures { self.new ≡ [] }
    {
        self.start = self.bytes.len();
    }

    // How many bytes were written.
    pub(crate) fn len(&self) -> usize
        ensures { result ≡ length self.now }
    {
        self.bytes.len() - self.start
    }

    // The written bytes as a list of their own.
    pub(crate) fn into_bytes(self) -> Bytes
        ensures { result ≡ self }
    {
        let mut bytes = self.bytes;
        let len = bytes.len() - self.start;
        bytes.copy_within(self.start.., 0);
        bytes.truncate(len);
        Bytes::from_vec(bytes)
    }

    // Writes bytes before those written so far.
    pub(crate) fn put(&mut self, bytes: &[u8]) -> Result<(), Memory>
        ensures { OnOk result (self.new ≡ bytes.now ++ self.old) }
    {
        if self.start < bytes.len() {
            make_room(self.alloc, &mut self.bytes, &mut self.start, bytes.len())?;
        }
        self.start = put_before(&mut self.bytes, self.start, bytes);
        Ok(())
    }

    // Writes the shortest varint of a number. Inlined for the common case: one byte, with capacity left.
    #[inline(always)]
    pub(crate) fn put_varint(&mut self, v: u64) -> Result<(), Memory>
        ensures { OnOk result (self.new ≡ varint v ++ self.old) }
    {
        if v < 128 && self.start > 0 {
            self.start = write_byte(&mut self.bytes, self.start, v);
            return Ok(());
        }
        self.put_long_varint(v)
    }

    // Like `put_varint`, for any number.
    #[inline(never)]
    fn put_long_varint(&mut self, v: u64) -> Result<(), Memory>
        ensures { OnOk result (self.new ≡ varint v ++ self.old) }
    {
        varint_is_read_back();
        if self.start < MAX_VARINT {
            make_room(self.alloc, &mut self.bytes, &mut self.start, MAX_VARINT)?;
        }
        self.start = write_varint(&mut self.bytes, self.start, v);
        Ok(())
    }
}

// Moves the bytes from `start` on to the end of a longer buffer, with at least `more` free bytes before them. The
// capacity at least doubles.
#[inline(never)]
fn make_room(
    alloc: Global,
    bytes: &mut Vec<u8>,
    start: &mut usize,
    more: usize,
) -> Result<(), Memory>
    requires { start.old ≤ length bytes.old.items }
    ensures room { OnOk result (more ≤ start.new) }
    ensures within { start.new ≤ length bytes.new.items }
    ensures same { drop start.new bytes.new.items ≡ drop start.old bytes.old.items }
{
    let written = &bytes[*start..];
    let Some(least) = written.len().checked_add(more) else {
        return Err(Memory);
    };
    let size = least.max(bytes.len().saturating_mul(2));
    let mut longer = vec![in alloc; 0u8; size]?;
    let place = put_before(&mut longer, size, written);
    *bytes = longer;
    *start = place;
    Ok(())
}

// Writes the varint of a number below 128 so that it ends at offset `end`, and returns its start.
#[inline(always)]
fn write_byte(out: &mut [u8], end: usize, v: u64) -> usize
    requires small { v < 128 }
    requires room { 0 < end }
    requires within { end ≤ length out.old }
    ensures { AreWrittenBefore out.old out.new end result (varint v) }
{
    out[end - 1] = v as u8;
    end - 1
}

// Like `write_byte`, for the shortest varint of any number.
fn write_varint(out: &mut [u8], end: usize, v: u64) -> usize
    requires room { length (varint v) ≤ end }
    requires within { end ≤ length out.old }
    ensures { AreWrittenBefore out.old out.new end result (varint v) }
{
    if v < 128 {
        return write_byte(out, end, v);
    }
    let start = end - varint_len(v);
    fill_varint(&mut out[start..end], v);
    start
}

// Like `write_byte`, for any bytes.
fn put_before(out: &mut [u8], end: usize, bytes: &[u8]) -> usize
    requires room { length bytes.now ≤ end }
    requires within { end ≤ length out.old }
    ensures { AreWrittenBefore out.old out.new end result bytes.now }
{
    let start = end - bytes.len();
    out[start..end].copy_from_slice(bytes);
    start
}
