//! Laws of varints and records. These functions do nothing; their clauses are the laws.

ghost use Rattle.std.specs.Prelude.{◌≡◌, ◌⊎◌, ℕ, ◌+◌, ◌<◌, ◌≤◌, ◌^◌, List, ◌++◌, length};
ghost use Rattle.wire_base.specs.Encoding.{varint};
ghost use Rattle.wire_base.specs.Records.{IsVarintAt, IsPayloadAt, HasNoPayloadAt, IsWireType, IsRecordAt, IsWireFaultAt, AreRecords, HasFirstFault};
ghost use Rattle.wire_base.specs.declared.records.Payload.{Payload};
ghost use Rattle.wire_base.specs.declared.varint.TheConstants.{MAX_VARINT};
ghost use Rattle.wire_base.specs.declared.records.Record.{Record};
ghost use Rattle.wire_base.specs.declared.fault.WireReason.{WireReason};
ghost use Rattle.wire_base.specs.declared.fault.WireFault.{WireFault};

/// The shortest varint of a number has one to ten bytes. At any offset it is read back as the number if that is below
/// 2^64.
pub fn varint_is_read_back()
    ensures some { (v : ℕ) → 1 ≤ length (varint v) }
    ensures ten { (v : ℕ) → length (varint v) ≤ MAX_VARINT }
    ensures read { (before after : List ℕ) (v : ℕ) → v < 2 ^ 64
        → IsVarintAt (before ++ (varint v ++ after)) (length before) v (length before + length (varint v)) }
{}

/// At an offset of a byte string there is either one payload of a wire type, or one reason why there is none, and never
/// both.
pub fn payload_or_reason()
    ensures either { (bytes : List ℕ) (at w : ℕ) → IsWireType w → at ≤ length bytes
        → ((p : Payload) × (next : ℕ) × IsPayloadAt bytes at w p next)
        ⊎ ((reason : WireReason) × HasNoPayloadAt bytes at w reason) }
    ensures not_both { (bytes : List ℕ) (at w : ℕ) (p : Payload) (next : ℕ) (reason : WireReason)
        → IsPayloadAt bytes at w p next
        → HasNoPayloadAt bytes at w reason → ⊥ }
    ensures one_payload { (bytes : List ℕ) (at w : ℕ) (p q : Payload) (next other : ℕ) → IsPayloadAt bytes at w p next
        → IsPayloadAt bytes at w q other → (p ≡ q) × (next ≡ other) }
    ensures one_reason { (bytes : List ℕ) (at w : ℕ) (reason other : WireReason) → HasNoPayloadAt bytes at w reason
        → HasNoPayloadAt bytes at w other → reason ≡ other }
{}

/// At an offset of a byte string there is either one record or one fault, and never both.
pub fn record_or_fault()
    ensures either { (bytes : List ℕ) (at : ℕ) → at ≤ length bytes
        → ((r : Record) × IsRecordAt bytes at r) ⊎ ((f : WireFault) × IsWireFaultAt bytes at f) }
    ensures not_both { (bytes : List ℕ) (at : ℕ) (r : Record) (f : WireFault) → IsRecordAt bytes at r
        → IsWireFaultAt bytes at f → ⊥ }
    ensures one_record { (bytes : List ℕ) (at : ℕ) (r s : Record) → IsRecordAt bytes at r → IsRecordAt bytes at s → r ≡ s }
    ensures one_fault { (bytes : List ℕ) (at : ℕ) (f g : WireFault) → IsWireFaultAt bytes at f → IsWireFaultAt bytes at g → f ≡ g }
{}

/// A byte string either is one list of records or has one first fault, and never both.
pub fn records_or_fault()
    ensures either { (bytes : List ℕ)
        → ((rs : List Record) × AreRecords bytes rs) ⊎ ((f : WireFault) × HasFirstFault bytes f) }
    ensures not_both { (bytes : List ℕ) (rs : List Record) (f : WireFault) → AreRecords bytes rs
        → HasFirstFault bytes f → ⊥ }
    ensures one_list { (bytes : List ℕ) (rs ss : List Record) → AreRecords bytes rs → AreRecords bytes ss → rs ≡ ss }
    ensures one_fault { (bytes : List ℕ) (f g : WireFault) → HasFirstFault bytes f → HasFirstFault bytes g → f ≡ g }
{}
