//! Reads the content of each record of a known field, in the order of the bytes.

ghost use Rattle.std.specs.Prelude.{◌≡◌, ℕ, ◌+◌, ◌<◌, ◌≤◌, length, true, false, slice_range, IfOk, IfErr, IfSome, IfNone, List, []};
ghost use Rattle.mrpc_table.specs.View.{items_of, content_of, node_of};
ghost use Rattle.mrpc_table.specs.Node.{one, run, number as number_item};
ghost use Rattle.mrpc_table.specs.Words.{is_numeric};
ghost use Rattle.wire_base.specs.Records.{IsPayloadAt, IsVarintAt, IsWithin};
ghost use Rattle.wire_base.specs.declared.records.Payload.{Payload};
ghost use Rattle.mrpc_table.specs.Ascending.{AreAllFieldsAscending, AreFieldsAscending};
ghost use Rattle.wire_decode.specs.Words.{AreElements, payload_number, accepts_payload, word_form_of};
ghost use Rattle.wire_decode.specs.RawMessages.{IsRawMessage, IsContentUnder, numbers};
ghost use Rattle.wire_decode.specs.Known.{is_message_kind};
ghost use Rattle.wire_decode.specs.Parts.{IsPackedPayload, HasNoPackedPayload, IsFixedOrVarint, IsEntry, IsEntryFault, IsInner, IsInnerFault};
ghost use Rattle.std.specs.Str.{IsUtf8};
ghost use Rattle.wire_decode.specs.FaultWalk.{IsFaultReached, IsPayloadFault};
ghost use Rattle.wire_decode.specs.Reason.{decode_reason_of};
ghost use Rattle.wire_decode.specs.Faults.{OnDecodeFault};
ghost use Rattle.wire_decode.specs.declared.fault.DecodeReason.TheVariants.{PackedLength, Utf8};

use crate::fault::{DecodeFault, DecodeReason};
use crate::number::{accepts_payload, is_message_kind, word_form_of};
use mrpc_table::{
    Bytes, Field, FieldValue, Kind, Label, Name, Numbered, Table, Tree, Value, Values, find_field,
};
use std::alloc::Global;
use wire_base::{
    Payload, WireFault, WireReason, payload_or_reason, read_fixed32, read_fixed64, read_record,
    read_varint,
};

// The contents of the records of known fields, from offset `start` to the end of the bytes. Messages may nest `room`
// more levels deep inside.
#[cycle(read)]
pub(crate) fn read_message(
    alloc: Global,
    bytes: &[u8],
    start: usize,
    table: &Table,
    fields: &[Field],
    room: u32,
) -> Result<Numbered, DecodeFault>
    requires all { AreAllFieldsAscending table.now }
    requires ascend { AreFieldsAscending fields.now }
    requires place { start ≤ length bytes.now }
    ensures found { IfOk result
        (λ parts. IsRawMessage table.now room fields.now bytes.now start (node_of parts.items)) }
    ensures fault { IfErr result
        (OnDecodeFault (λ reason place. IsFaultReached table.now room fields.now bytes.now start reason place)) }
{
    let mut parts = Vec::new(alloc);
    let mut at = start;
    let mut hint = 0;
    while at < bytes.len() {
        let record = match read_record(bytes, at) {
            Ok(record) => record,
            Err(fault) => return Err(to_decode_fault(fault)),
        };
        if let Some(place) = find_field(fields, record.number, hint) {
            hint = place;
            let field = &fields[place];
            let (label, kind) = (field.label, field.kind);
            if accepts_payload(label, kind, record.payload) {
                let content = content(alloc, bytes, record.payload, table, label, kind, room)?;
                parts.push((record.number, content))?;
            }
        }
        at = record.next;
    }
    Ok(parts)
}

// The fault of a record as a fault of the message.
fn to_decode_fault(fault: WireFault) -> DecodeFault
    ensures { OnDecodeFault (λ reason place. (reason ≡ decode_reason_of fault.reason) × (place ≡ fault.place)) result }
{
    let reason = match fault.reason {
        WireReason::Varint => DecodeReason::Varint,
        WireReason::TagRange => DecodeReason::TagRange,
        WireReason::NumberZero => DecodeReason::NumberZero,
        WireReason::WireType => DecodeReason::WireType,
        WireReason::Short => DecodeReason::Short,
    };
    DecodeFault::At {
        reason,
        place: fault.place,
    }
}

// The content of a record of a field.
#[cycle(read)]
fn content(
    alloc: Global,
    bytes: &[u8],
    payload: Payload,
    table: &Table,
    label: Label,
    kind: Kind,
    room: u32,
) -> Result<FieldValue, DecodeFault>
    requires all { AreAllFieldsAscending table.now }
    requires within { IsWithin (length bytes.now) payload }
    requires suits { accepts_payload label kind payload ≡ true }
    ensures found { IfOk result (λ c. IsContentUnder table.now room label kind bytes.now payload (content_of c)) }
    ensures fault { IfErr result
        (OnDecodeFault (λ reason place. IsPayloadFault table.now room label kind bytes.now payload reason place)) }
{
    match payload {
        Payload::Varint(v) | Payload::I64(v) => Ok(number(kind, v)),
        Payload::I32(v) => Ok(number(kind, u64::from(v))),
        Payload::Len { start, end } => match (label, kind) {
            (Label::Map(key), _) => entry(alloc, &bytes[..end], start, table, key, kind, room),
            (_, Kind::Text) => text(alloc, &bytes[start..end], start),
            (_, Kind::Octets) => octets(alloc, &bytes[start..end]),
            (_, Kind::Message(place)) => {
                message(alloc, &bytes[..end], start, table, place, room)
            }
            _ => packed(alloc, &bytes[..end], start, kind),
        },
    }
}

fn number(kind: Kind, v: u64) -> FieldValue
    ensures { content_of result ≡ one (number_item (word_form_of kind v)) }
{
    FieldValue::One(Value::Number(word_form_of(kind, v)))
}

// The entry of a map.
#[cycle(read)]
fn entry(
    alloc: Global,
    bytes: &[u8],
    start: usize,
    table: &Table,
    key: Kind,
    kind: Kind,
    room: u32,
) -> Result<FieldValue, DecodeFault>
    requires all { AreAllFieldsAscending table.now }
    requires place { start ≤ length bytes.now }
    ensures found { IfOk result (λ c. IsEntry table.now room key kind bytes.now start (content_of c)) }
    ensures fault { IfErr result
        (OnDecodeFault (λ reason place. IsEntryFault table.now room key kind bytes.now start reason place)) }
{
    let parts = [
        Field {
            number: 1,
            name: Name::new(alloc),
            kind: key,
            label: Label::Optional,
        },
        Field {
            number: 2,
            name: Name::new(alloc),
            kind,
            label: Label::Optional,
        },
    ];
    let fields = read_message(alloc, bytes, start, table, &parts, room)?;
    if room == 0 && is_message_kind(kind) {
        return Err(fault(DecodeReason::Depth, start));
    }
    Ok(FieldValue::One(Value::Node(Tree { fields })))
}

// A message.
#[cycle(read)]
fn message(
    alloc: Global,
    bytes: &[u8],
    start: usize,
    table: &Table,
    place: u32,
    room: u32,
) -> Result<FieldValue, DecodeFault>
    requires all { AreAllFieldsAscending table.now }
    requires place { start ≤ length bytes.now }
    ensures found { IfOk result (λ c. IsInner table.now room place bytes.now start (content_of c)) }
    ensures fault { IfErr result
        (OnDecodeFault (λ reason at. IsInnerFault table.now room place bytes.now start reason at)) }
{
    if room == 0 {
        return Err(fault(DecodeReason::Depth, start));
    }
    let fields = read_message(alloc, bytes, start, table, table.fields(place), room - 1)?;
    Ok(FieldValue::One(Value::Node(Tree { fields })))
}

fn fault(reason: DecodeReason, place: usize) -> DecodeFault
    ensures { OnDecodeFault (λ r p. (r ≡ reason) × (p ≡ place)) result }
{
    DecodeFault::At { reason, place }
}

// A string: UTF-8. Its first byte is at offset `place`.
fn text(alloc: Global, bytes: &[u8], place: usize) -> Result<FieldValue, DecodeFault>
    ensures found { IfOk result (λ c. (content_of c ≡ one (run bytes.now)) × IsUtf8 bytes.now) }
    ensures fault { IfErr result
        (OnDecodeFault (λ reason at. (reason ≡ Utf8) × (at ≡ place) × (IsUtf8 bytes.now → ⊥))) }
{
    if !is_text(bytes) {
        return Err(fault(DecodeReason::Utf8, place));
    }
    octets(alloc, bytes)
}

// Whether bytes are UTF-8. Mostly they are ASCII, which is a faster test.
pub(crate) fn is_text(bytes: &[u8]) -> bool
    ensures yes { result ≡ true → IsUtf8 bytes.now }
    ensures no { result ≡ false → IsUtf8 bytes.now → ⊥ }
{
    bytes.is_ascii() || str::from_utf8(bytes).is_ok()
}

// Bytes.
fn octets(alloc: Global, bytes: &[u8]) -> Result<FieldValue, DecodeFault>
    ensures found { IfOk result (λ c. content_of c ≡ one (run bytes.now)) }
    ensures fault { IfErr result (OnDecodeFault (λ reason at. ⊥)) }
{
    let run = Bytes::from_slice(alloc, bytes)?;
    Ok(FieldValue::One(Value::Run(run)))
}

// A packed payload: numbers of the kind, one after another to the end of the bytes.
fn packed(alloc: Global, bytes: &[u8], start: usize, kind: Kind) -> Result<FieldValue, DecodeFault>
    requires place { start ≤ length bytes.now }
    requires numeric { is_numeric kind ≡ true }
    ensures found { IfOk result (λ c. IsPackedPayload kind bytes.now start (content_of c)) }
    ensures fault { IfErr result
        (OnDecodeFault (λ reason at. (reason ≡ PackedLength) × (at ≡ start) × HasNoPackedPayload kind bytes.now start)) }
{
    let values = elements(Vec::new(alloc), bytes, start, kind)?;
    Ok(FieldValue::Many(values))
}

// The elements of a packed payload, appended to an empty vector.
pub(crate) fn elements(
    mut values: Values,
    bytes: &[u8],
    start: usize,
    kind: Kind,
) -> Result<Values, DecodeFault>
    requires empty { values.items ≡ [] }
    requires place { start ≤ length bytes.now }
    requires numeric { is_numeric kind ≡ true }
    ensures found { IfOk result
        (λ vs. (ws : List ℕ) × AreElements kind bytes.now start ws × (items_of vs.items ≡ numbers ws)) }
    ensures fault { IfErr result
        (OnDecodeFault (λ reason at. (reason ≡ PackedLength) × (at ≡ start) × HasNoPackedPayload kind bytes.now start)) }
{
    payload_or_reason();
    let wire_type = kind.wire_type();
    values.reserve_exact(element_count(&bytes[start..], wire_type))?;
    let mut at = start;
    while at < bytes.len() {
        let (v, next) = match element(bytes, at, wire_type) {
            Some(found) => found,
            None => return Err(fault(DecodeReason::PackedLength, start)),
        };
        values.push(Value::Number(word_form_of(kind, v)))?;
        at = next;
    }
    Ok(values)
}

// How many elements of the wire type a complete packed payload has. This many values need capacity.
fn element_count(bytes: &[u8], wire_type: u64) -> usize {
    match wire_type {
        1 => bytes.len() / 8,
        5 => bytes.len() / 4,
        _ => ends_of_varints(bytes),
    }
}

// How many bytes end a varint.
fn ends_of_varints(bytes: &[u8]) -> usize
    ensures { result ≤ length bytes.now }
{
    let mut count = 0;
    for byte in bytes {
        count += usize::from(*byte < 128);
    }
    count
}

// A number of the wire type at an offset, and the offset after it.
pub(crate) fn element(bytes: &[u8], at: usize, wire_type: u64) -> Option<(u64, usize)>
    requires place { at ≤ length bytes.now }
    requires fixed { IsFixedOrVarint wire_type }
    ensures found { IfSome result
        (λ e. (p : Payload) × IsPayloadAt bytes.now at wire_type p e.1 × (e.0 ≡ payload_number p)) }
    ensures ahead { IfSome result (λ e. at < e.1) }
    ensures within { IfSome result (λ e. e.1 ≤ length bytes.now) }
    ensures none { IfNone result ((p : Payload) (next : ℕ) → IsPayloadAt bytes.now at wire_type p next → ⊥) }
{
    if wire_type == 1 {
        read_fixed64(bytes, at)
    } else if wire_type == 5 {
        let (v, next) = read_fixed32(bytes, at)?;
        Some((u64::from(v), next))
    } else {
        varint(bytes, at)
    }
}

// The value of the varint at an offset, and the offset after it.
fn varint(bytes: &[u8], at: usize) -> Option<(u64, usize)>
    requires { at ≤ length bytes.now }
    ensures found { IfSome result (λ e. IsVarintAt bytes.now at e.0 e.1) }
    ensures none { IfNone result ((v next : ℕ) → IsVarintAt bytes.now at v next → ⊥) }
{
    match read_varint(bytes, at) {
        Ok(found) => Some(found),
        Err(_) => None,
    }
}
