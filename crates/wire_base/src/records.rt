//! Records: a tag, and a payload of the tag's wire type (Protocol Buffers, "Encoding", "Message
//! Structure").

ghost use Rattle.std.specs.Prelude.{◌≡◌, ℕ, ◌+◌, ◌%◌, ◌<◌, ◌≤◌, length, IfOk, IfErr};
ghost use Rattle.wire_base.specs.Records.{IsRecordAt, IsWireFaultAt, IsPayloadAt, HasNoPayloadAt, IsTagAt, IsWireType, IsWithin};
ghost use Rattle.wire_base.specs.declared.records.Record.{Record};
ghost use Rattle.wire_base.specs.declared.fault.WireFault.{WireFault};
ghost use Rattle.wire_base.specs.declared.fault.WireReason.TheVariants.{Short};
ghost use Rattle.wire_base.specs.declared.records.Payload.TheVariants.{Len};
ghost use Rattle.mrpc_table.specs.WireTypes.{wire_len};

use crate::fault::{WireFault, WireReason};
use crate::fixed::{read_fixed32, read_fixed64};
use crate::varint::read_varint;

/// The value of a record, after its tag.
#[derive(Clone, Copy)]
pub enum Payload {
    /// Wire type 0: the value of a varint.
    Varint(u64),
    /// Wire type 1: eight bytes, little-endian.
    I64(u64),
    /// Wire type 5: four bytes, little-endian.
    I32(u32),
    /// Wire type 2: the bytes from `start` to just before `end`, without their length.
    Len { start: usize, end: usize },
}

/// A record of a byte string.
#[derive(Clone, Copy)]
pub struct Record {
    /// The field number, 1 to 536870911.
    pub number: u32,
    pub payload: Payload,
    /// The offset after the record.
    pub next: usize,
}

/// Reads the record at offset `at`.
///
/// It checks for these faults, in this order. The tag is no varint, its value is 2^32 or more, its number is 0, its
/// wire type isn't 0, 1, 2 or 5, or the payload is incomplete. The fault's offset is that of the tag, or for a payload
/// that of the payload. A payload with a length starts at its length.
pub fn read_record(bytes: &[u8], at: usize) -> Result<Record, WireFault>
    requires { at ≤ length bytes.now }
    ensures found { IfOk result (λ r. IsRecordAt bytes.now at r) }
    ensures fault { IfErr result (λ f. IsWireFaultAt bytes.now at f) }
    ensures ahead { IfOk result (λ r. at < r.next) }
    ensures within { IfOk result (λ r. r.next ≤ length bytes.now) }
    ensures span { IfOk result (λ r. IsWithin (length bytes.now) r.payload) }

    // Each record is found, and so is each fault.
    ensures each { (r : Record) → IsRecordAt bytes.now at r → result ≡ Ok r }
    ensures each_fault { (f : WireFault) → IsWireFaultAt bytes.now at f → result ≡ Err f }
{
    let (tag, start) = read_tag(bytes, at)?;
    let (payload, next) = read_payload(bytes, start, tag % 8)?;
    Ok(Record {
        number: tag / 8,
        payload,
        next,
    })
}

/// The tag at an offset, and the offset after it. The faults are the first four of `read_record`.
pub fn read_tag(bytes: &[u8], at: usize) -> Result<(u32, usize), WireFault>
    requires { at ≤ length bytes.now }
    ensures found { IfOk result (λ t. IsTagAt bytes.now at t.0 t.1) }
    ensures known { IfOk result (λ t. IsWireType (t.0 % 8)) }
    ensures fault { IfErr result (λ f. IsWireFaultAt bytes.now at f) }

    // Each tag is found, whatever follows it.
    ensures each { (tag start : ℕ) → IsTagAt bytes.now at tag start → IsWireType (tag % 8) → result ≡ Ok (tag, start) }
{
    let (tag, start) = read_varint(bytes, at)?;
    if tag >= 1 << 32 {
        return Err(WireFault {
            reason: WireReason::TagRange,
            place: at,
        });
    }
    if tag < 8 {
        return Err(WireFault {
            reason: WireReason::NumberZero,
            place: at,
        });
    }
    match tag % 8 {
        0 | 1 | 2 | 5 => Ok((tag as u32, start)),
        _ => Err(WireFault {
            reason: WireReason::WireType,
            place: at,
        }),
    }
}

// The payload of a wire type at an offset, and the offset after it.
fn read_payload(bytes: &[u8], start: usize, wire_type: u32) -> Result<(Payload, usize), WireFault>
    requires place { start ≤ length bytes.now }
    requires known { IsWireType wire_type }
    ensures found { IfOk result (λ p. IsPayloadAt bytes.now start wire_type p.0 p.1) }
    ensures fault { IfErr result
        (λ f. (f.place ≡ start) × HasNoPayloadAt bytes.now start wire_type f.reason) }
{
    match wire_type {
        0 => varint_payload(bytes, start),
        1 => i64_payload(bytes, start),
        2 => len_payload(bytes, start),
        _ => i32_payload(bytes, start),
    }
}

fn varint_payload(bytes: &[u8], start: usize) -> Result<(Payload, usize), WireFault>
    requires { start ≤ length bytes.now }
    ensures found { IfOk result (λ p. IsPayloadAt bytes.now start 0 p.0 p.1) }
    ensures fault { IfErr result (λ f. (f.place ≡ start) × HasNoPayloadAt bytes.now start 0 f.reason) }
{
    let (v, next) = read_varint(bytes, start)?;
    Ok((Payload::Varint(v), next))
}

fn i64_payload(bytes: &[u8], start: usize) -> Result<(Payload, usize), WireFault>
    requires { start ≤ length bytes.now }
    ensures found { IfOk result (λ p. IsPayloadAt bytes.now start 1 p.0 p.1) }
    ensures fault { IfErr result (λ f. (f.place ≡ start) × HasNoPayloadAt bytes.now start 1 f.reason) }
{
    match read_fixed64(bytes, start) {
        Some((v, next)) => Ok((Payload::I64(v), next)),
        None => Err(short(start)),
    }
}

fn i32_payload(bytes: &[u8], start: usize) -> Result<(Payload, usize), WireFault>
    requires { start ≤ length bytes.now }
    ensures found { IfOk result (λ p. IsPayloadAt bytes.now start 5 p.0 p.1) }
    ensures fault { IfErr result (λ f. (f.place ≡ start) × HasNoPayloadAt bytes.now start 5 f.reason) }
{
    match read_fixed32(bytes, start) {
        Some((v, next)) => Ok((Payload::I32(v), next)),
        None => Err(short(start)),
    }
}

fn len_payload(bytes: &[u8], start: usize) -> Result<(Payload, usize), WireFault>
    requires { start ≤ length bytes.now }
    ensures found { IfOk result (λ p. IsPayloadAt bytes.now start 2 p.0 p.1) }
    ensures fault { IfErr result (λ f. (f.place ≡ start) × HasNoPayloadAt bytes.now start 2 f.reason) }
{
    let (first, end) = read_delimited(bytes, start)?;
    Ok((Payload::Len { start: first, end }, end))
}

/// Reads a length at offset `at`, and returns the range of the bytes after it: the offset of the first, and the offset
/// after the last. The fault's offset is `at`.
#[inline(always)]
pub fn read_delimited(bytes: &[u8], at: usize) -> Result<(usize, usize), WireFault>
    requires { at ≤ length bytes.now }
    ensures found { IfOk result (λ r. IsPayloadAt bytes.now at wire_len (Len r.0 r.1) r.1) }
    ensures fault { IfErr result (λ f. (f.place ≡ at) × HasNoPayloadAt bytes.now at wire_len f.reason) }
    ensures ahead { IfOk result (λ r. at < r.0) }
    ensures order { IfOk result (λ r. r.0 ≤ r.1) }
    ensures within { IfOk result (λ r. r.1 ≤ length bytes.now) }
{
    let (len, first) = read_varint(bytes, at)?;
    if len > (bytes.len() - first) as u64 {
        return Err(short(at));
    }
    Ok((first, first + len as usize))
}

// The fault that the bytes end inside what starts at `place`.
fn short(place: usize) -> WireFault
    ensures { result ≡ record { reason = Short; place = place } }
{
    WireFault {
        reason: WireReason::Short,
        place,
    }
}
