//! Numbers of a fixed size, little-endian (Protocol Buffers, "Encoding", "Non-varint Numbers").

ghost use Rattle.std.specs.Prelude.{ℕ, ◌+◌, ◌<◌, ◌≤◌, length, IfSome, IfNone};
ghost use Rattle.mrpc_table.specs.WireTypes.{wire_i64, wire_i32};
ghost use Rattle.wire_base.specs.Records.{IsPayloadAt};
ghost use Rattle.wire_base.specs.declared.records.Payload.TheVariants.{I64, I32};

/// The number in the eight bytes at offset `at`, and the offset after them. `None` exactly if fewer bytes remain.
#[inline(always)]
pub fn read_fixed64(bytes: &[u8], at: usize) -> Option<(u64, usize)>
    requires { at ≤ length bytes.now }
    ensures found { IfSome result (λ r. IsPayloadAt bytes.now at wire_i64 (I64 r.0) r.1) }
    ensures none { IfNone result (length bytes.now < at + 8) }
{
    match bytes[at..].first_chunk::<8>() {
        Some(chunk) => Some((u64::from_le_bytes(*chunk), at + 8)),
        None => None,
    }
}

/// The number in the four bytes at offset `at`, and the offset after them. `None` exactly if fewer bytes remain.
#[inline(always)]
pub fn read_fixed32(bytes: &[u8], at: usize) -> Option<(u32, usize)>
    requires { at ≤ length bytes.now }
    ensures found { IfSome result (λ r. IsPayloadAt bytes.now at wire_i32 (I32 r.0) r.1) }
    ensures none { IfNone result (length bytes.now < at + 4) }
{
    match bytes[at..].first_chunk::<4>() {
        Some(chunk) => Some((u32::from_le_bytes(*chunk), at + 4)),
        None => None,
    }
}
