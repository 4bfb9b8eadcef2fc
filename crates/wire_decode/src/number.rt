//! Numbers: the word form of a number in a record or a packed payload.

ghost use Rattle.std.specs.Prelude.{◌≡◌, ℕ, ◌%◌, ◌^◌};
ghost use Rattle.wire_decode.specs.Known.{is_message_kind};
ghost use Rattle.wire_decode.specs.Words.{word_form_of, sign_extended, unzigzag_of, is_list, accepts_payload};

use mrpc_table::{Kind, Label};
use wire_base::{Payload, unzigzag};

// The word form of a number that was read.
pub(crate) fn word_form_of(kind: Kind, v: u64) -> u64
    ensures { result ≡ word_form_of kind v }
{
    match kind {
        Kind::Int32 | Kind::Choice(_) | Kind::Sfixed32 => sign_extended(low(v)),
        Kind::Uint32 => u64::from(low(v)),
        Kind::Sint32 => unzigzag_word(u64::from(low(v))),
        Kind::Sint64 => unzigzag_word(v),
        Kind::Bool => u64::from(v != 0),
        _ => v,
    }
}

// The low 32 bits.
fn low(v: u64) -> u32
    ensures { result ≡ v % 2 ^ 32 }
{
    (v % (1 << 32)) as u32
}

// A 32-bit word in two's complement as one of 64 bits.
fn sign_extended(v: u32) -> u64
    ensures { result ≡ sign_extended v }
{
    if v < 1 << 31 {
        u64::from(v)
    } else {
        u64::from(v) + 0xffff_ffff_0000_0000
    }
}

// The word whose ZigZag number is `v`.
fn unzigzag_word(v: u64) -> u64
    ensures { result ≡ unzigzag_of v }
{
    unzigzag(v).cast_unsigned()
}

// Whether a value of the kind is a message.
pub(crate) fn is_message_kind(kind: Kind) -> bool
    ensures { result ≡ is_message_kind kind }
{
    matches!(kind, Kind::Message(_))
}

// Whether a field of this label has any number of elements.
pub(crate) fn is_list(label: Label) -> bool
    ensures { result ≡ is_list label }
{
    matches!(label, Label::Repeated | Label::Packed)
}

// Whether a field is read from a payload of this wire type.
pub(crate) fn accepts_payload(label: Label, kind: Kind, payload: Payload) -> bool
    ensures { result ≡ accepts_payload label kind payload }
{
    let found = match payload {
        Payload::Varint(_) => 0,
        Payload::I64(_) => 1,
        Payload::Len { .. } => 2,
        Payload::I32(_) => 5,
    };
    let own = match label {
        Label::Map(_) => 2,
        _ => kind.wire_type(),
    };
    found == own || (found == 2 && is_list(label) && kind.is_numeric())
}
