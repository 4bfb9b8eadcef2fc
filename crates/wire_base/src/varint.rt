//! Varints: seven bits a byte, low group first, the top bit set on all bytes but the last (Protocol Buffers,
//! "Encoding", "Base 128 Varints").

ghost use Rattle.std.specs.Prelude.{◌≡◌, ℕ, ◌+◌, ◌<◌, ◌≤◌, ◌^◌, List, ◌++◌, length, take, OnOk, OnErr, IfOk, IfErr};
ghost use Rattle.wire_base.specs.Encoding.{varint};
ghost use Rattle.wire_base.specs.Records.{IsVarint, IsVarintAt, HasNoVarintAt};
ghost use Rattle.wire_base.specs.declared.fault.WireReason.{WireReason};

use crate::fault::{WireFault, WireReason};
use crate::laws::varint_is_read_back;
use mrpc_table::{Bytes, Memory};
use std::marker::Model;

/// The most bytes that a varint has.
pub const MAX_VARINT: usize = 10;

/// The shortest varint of a number. Contracts see its bytes.
#[derive(Drop)]
pub struct VarintBytes {
    bytes: [u8; MAX_VARINT],
    len: usize,
}

impl Model for VarintBytes {
    ghost use Rattle.std.specs.Prelude.{ℕ, List, ◌≤◌, take};
    ghost use Rattle.wire_base.specs.declared.varint.TheConstants.{MAX_VARINT};

    ghost Value = { List ℕ };

    ghost view = { λ s. take s.len s.bytes };

    ghost invariant = { λ s. s.len ≤ MAX_VARINT };
}

impl VarintBytes {
    /// The shortest varint of `v`.
    pub fn of(v: u64) -> VarintBytes
        ensures value { result ≡ varint v }
        ensures read { IsVarint result v }
        ensures shortest { (bytes : List ℕ) → IsVarint bytes v → length result ≤ length bytes }
    {
        let mut bytes = [0u8; MAX_VARINT];
        let mut rest = v;
        for place in 0..MAX_VARINT - 1 {
            if rest < 128 {
                bytes[place] = rest as u8;
                return VarintBytes {
                    bytes,
                    len: place + 1,
                };
            }
            bytes[place] = (rest % 128) as u8 + 128;
            rest /= 128;
        }
        bytes[MAX_VARINT - 1] = rest as u8;
        VarintBytes {
            bytes,
            len: MAX_VARINT,
        }
    }

    /// The bytes of the varint.
    pub fn as_slice(&self) -> &[u8]
        ensures { result.now ≡ self.now }
    {
        &self.bytes[..self.len]
    }
}

/// Appends the shortest varint of `v`. If it is out of memory, the list is unchanged.
pub fn put_varint(out: &mut Bytes, v: u64) -> Result<(), Memory>
    ensures ok { OnOk result (out.new ≡ out.old ++ varint v) }
    ensures err { OnErr result (out.new ≡ out.old) }
{
    out.append(VarintBytes::of(v).as_slice())
}

/// Writes the shortest varint of `v` to a buffer of exactly its length.
pub fn fill_varint(out: &mut [u8], v: u64)
    requires { length out.old ≡ length (varint v) }
    ensures { out.new ≡ varint v }
{
    varint_is_read_back();
    let last = out.len() - 1;
    let mut rest = v;
    for place in 0..last {
        out[place] = (rest % 128) as u8 + 128;
        rest /= 128;
    }
    out[last] = rest as u8;
}

/// How many bytes the shortest varint of `v` has, 1 to 10.
pub fn varint_len(v: u64) -> usize
    ensures { result ≡ length (varint v) }
{
    if v < 1 << 28 {
        short_len(v)
    } else {
        long_len(v)
    }
}

// Like `varint_len`, for a number below 2^28.
fn short_len(v: u64) -> usize
    requires { v < 2 ^ 28 }
    ensures { result ≡ length (varint v) }
{
    if v < 1 << 14 {
        if v < 1 << 7 { 1 } else { 2 }
    } else if v < 1 << 21 {
        3
    } else {
        4
    }
}

// Like `varint_len`, for a number of 2^28 or more.
fn long_len(v: u64) -> usize
    requires { 2 ^ 28 ≤ v }
    ensures { result ≡ length (varint v) }
{
    if v < 1 << 42 {
        if v < 1 << 35 { 5 } else { 6 }
    } else if v < 1 << 56 {
        if v < 1 << 49 { 7 } else { 8 }
    } else if v < 1 << 63 {
        9
    } else {
        10
    }
}

/// The value of the varint at offset `at`, and the offset after it.
///
/// Longer spellings than the shortest are read, and bits above 64 are dropped. The fault's offset is `at`. Its reason
/// is `Varint` exactly if ten bytes with the top bit set are there, and `Short` exactly if the bytes end after fewer
/// than ten such bytes.
pub fn read_varint(bytes: &[u8], at: usize) -> Result<(u64, usize), WireFault>
    requires { at ≤ length bytes.now }
    ensures found { IfOk result (λ r. IsVarintAt bytes.now at r.0 r.1) }
    ensures fault { IfErr result (λ f. (f.place ≡ at) × HasNoVarintAt bytes.now at f.reason) }
    ensures ahead { IfOk result (λ r. at < r.1) }
    ensures within { IfOk result (λ r. r.1 ≤ length bytes.now) }

    // Each varint is found, and so is each fault.
    ensures each { (v next : ℕ) → IsVarintAt bytes.now at v next → result ≡ Ok (v, next) }
    ensures each_fault { (reason : WireReason) → HasNoVarintAt bytes.now at reason
        → result ≡ Err (record { reason = reason; place = at }) }
{
    match bytes.get(at) {
        Some(&byte) if byte < 128 => Ok((u64::from(byte), at + 1)),
        _ => read_long(bytes, at),
    }
}

// Like `read_varint`, a byte at a time.
fn read_long(bytes: &[u8], at: usize) -> Result<(u64, usize), WireFault>
    requires { at ≤ length bytes.now }
    ensures found { IfOk result (λ r. IsVarintAt bytes.now at r.0 r.1) }
    ensures fault { IfErr result (λ f. (f.place ≡ at) × HasNoVarintAt bytes.now at f.reason) }
{
    let end = bytes.len().min(at + MAX_VARINT);
    let mut value = 0u64;
    for place in at..end {
        let byte = bytes[place];
        let group = u64::from(byte % 128) << (7 * (place - at));
        value = value.wrapping_add(group);
        if byte < 128 {
            return Ok((value, place + 1));
        }
    }
    let reason = if end - at < MAX_VARINT {
        WireReason::Short
    } else {
        WireReason::Varint
    };
    Err(WireFault { reason, place: at })
}
