//! Laws of the definitions. These functions do nothing; their clauses are the laws.

ghost use Rattle.std.specs.Prelude.{◌≡◌, ◌-◌, ◌<◌, ◌^◌, ◌⊎◌, ◌++◌, ℕ, List, length, All};
ghost use Rattle.std.specs.List.{concat};
ghost use Rattle.mrpc_table.specs.Node.{Node, Item};
ghost use Rattle.mrpc_table.specs.Normal.{IsNormal, fields_of};
ghost use Rattle.mrpc_table.specs.Valid.{IsValid};
ghost use Rattle.mrpc_table.specs.declared.limits.TheConstants.{MAX_DEPTH};
ghost use Rattle.mrpc_table.specs.declared.table.Table.{Table};
ghost use Rattle.mrpc_table.specs.declared.table.Field.{Field};
ghost use Rattle.wire_base.specs.Encoding.{encoding};
ghost use Rattle.mrpc_table.specs.Ascending.{AreAllFieldsAscending};
ghost use Rattle.wire_decode.specs.Means.{Means};
ghost use Rattle.wire_decode.specs.MergedMessage.{IsMergedMessage};
ghost use Rattle.wire_decode.specs.FaultWalk.{IsFaultReached};
ghost use Rattle.wire_decode.specs.Joined.{AreRawMessages};
ghost use Rattle.wire_decode.specs.Merged.{join_fields, joined_messages, merged};
ghost use Rattle.wire_decode.specs.RawMessages.{IsRawMessage};
ghost use Rattle.wire_decode.specs.Faults.{IsFirstDecodeFault};
ghost use Rattle.wire_decode.specs.declared.fault.DecodeReason.{DecodeReason};

use mrpc_table::kept_entries_are_normal;
use wire_base::{payload_or_reason, record_or_fault, varint_is_read_back};

/// Bytes have at most one meaning.
pub fn meaning_is_unique()
    ensures { (T : Table) (msg : ℕ) (bytes : List ℕ) (t u : Node) → Means T msg bytes t → Means T msg bytes u → t ≡ u }
{
    payload_or_reason();
    record_or_fault();
}

/// Bytes mean a message or have a first fault, and never both.
pub fn meaning_or_fault()
    ensures either { (T : Table) (msg : ℕ) (bytes : List ℕ) → ((t : Node) × Means T msg bytes t)
        ⊎ ((reason : DecodeReason) × (place : ℕ) × IsFirstDecodeFault T msg bytes reason place) }
    ensures not_both { (T : Table) (msg : ℕ) (bytes : List ℕ) (t : Node) (reason : DecodeReason) (place : ℕ)
        → Means T msg bytes t
        → IsFirstDecodeFault T msg bytes reason place → ⊥ }
{
    payload_or_reason();
    record_or_fault();
}

/// Bytes have at most one first fault.
pub fn decode_fault_is_unique()
    ensures { (T : Table) (msg : ℕ) (bytes : List ℕ) (reason other : DecodeReason) (place at : ℕ)
        → IsFirstDecodeFault T msg bytes reason place
        → IsFirstDecodeFault T msg bytes other at → (reason ≡ other) × (place ≡ at) }
{
    payload_or_reason();
    record_or_fault();
}

/// Under a valid table, bytes mean only trees in normal form.
pub fn meaning_is_normal()
    ensures { (T : Table) (msg : ℕ) (bytes : List ℕ) (t : Node) → IsValid T → msg < length T.messages
        → All (λ b. b < 256) bytes
        → Means T msg bytes t → IsNormal T msg t }
{
    kept_entries_are_normal();
    rules_and_reader_agree();
}

/// The encoding of a tree in normal form means that tree. The bound is there because a length is a varint of 64 bits.
pub fn meaning_of_encoding()
    ensures { (T : Table) (msg : ℕ) (t : Node) → IsValid T → msg < length T.messages → IsNormal T msg t
        → length (encoding T msg t) < 2 ^ 64 → Means T msg (encoding T msg t) t }
{
    varint_is_read_back();
    rules_and_reader_agree();
}

/// Concatenated strings of whole records are whole records, with the contents of all strings in order. So the
/// concatenation means what the records of all strings mean in order.
pub fn meaning_of_joined_strings()
    ensures reads { (T : Table) (room : ℕ) (fs : List Field) (a b : List ℕ) (t u : Node) → IsRawMessage T room fs a 0 t
        → IsRawMessage T room fs b 0 u → IsRawMessage T room fs (a ++ b) 0 (join_fields t u) }
    ensures merges { (T : Table) (msg : ℕ) (a b : List ℕ) (t u : Node)
        → IsRawMessage T (MAX_DEPTH - 1) (fields_of T msg) a 0 t
        → IsRawMessage T (MAX_DEPTH - 1) (fields_of T msg) b 0 u
        → IsMergedMessage T msg (a ++ b) (merged T MAX_DEPTH msg (join_fields t u)) }
    ensures means { (T : Table) (msg : ℕ) (a b : List ℕ) (t u : Node) → AreAllFieldsAscending T
        → IsRawMessage T (MAX_DEPTH - 1) (fields_of T msg) a 0 t
        → IsRawMessage T (MAX_DEPTH - 1) (fields_of T msg) b 0 u
        → Means T msg (a ++ b) (merged T MAX_DEPTH msg (join_fields t u)) }

    // The payloads of a singular message mean together what their concatenation means.
    ensures payloads { (T : Table) (room : ℕ) (fs : List Field) (strings : List (List ℕ)) (messages : List Item)
        → AreRawMessages T room fs strings messages → IsRawMessage T room fs (concat strings) 0 (joined_messages messages) }
{
    rules_and_reader_agree();
}

/// The meaning of bytes, defined rule by rule, is what the reader finds. If the table's fields ascend, it is the
/// message that the records are merged to. The first fault is the one that a walk over the records reaches.
pub fn rules_and_reader_agree()
    ensures merged { (T : Table) (msg : ℕ) (bytes : List ℕ) (t : Node) → AreAllFieldsAscending T → Means T msg bytes t
        → IsMergedMessage T msg bytes t }
    ensures meant { (T : Table) (msg : ℕ) (bytes : List ℕ) (t : Node) → AreAllFieldsAscending T → IsMergedMessage T msg bytes t
        → Means T msg bytes t }
    ensures met { (T : Table) (msg : ℕ) (bytes : List ℕ) (reason : DecodeReason) (place : ℕ)
        → IsFirstDecodeFault T msg bytes reason place → IsFaultReached T (MAX_DEPTH - 1) (fields_of T msg) bytes 0 reason place }
    ensures first { (T : Table) (msg : ℕ) (bytes : List ℕ) (reason : DecodeReason) (place : ℕ)
        → IsFaultReached T (MAX_DEPTH - 1) (fields_of T msg) bytes 0 reason place → IsFirstDecodeFault T msg bytes reason place }
{
    payload_or_reason();
    record_or_fault();
}

// The records of bytes are merged to at most one message, and then have no fault.
pub(crate) fn merging_is_unique()
    ensures one { (T : Table) (msg : ℕ) (bytes : List ℕ) (t u : Node) → IsMergedMessage T msg bytes t → IsMergedMessage T msg bytes u
        → t ≡ u }
    ensures not_both { (T : Table) (msg : ℕ) (bytes : List ℕ) (t : Node) (reason : DecodeReason) (place : ℕ)
        → IsMergedMessage T msg bytes t → IsFaultReached T (MAX_DEPTH - 1) (fields_of T msg) bytes 0 reason place → ⊥ }
{
    payload_or_reason();
    record_or_fault();
}
