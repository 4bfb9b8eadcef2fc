//! Lines of accepted calls.

ghost use Rattle.std.specs.Prelude.{◌≡◌, ◌*◌, ◌<◌, ◌≤◌, ◌^◌, ℕ, [], ◌∷◌, Some, length, option_map, IfOk, IfSome};
ghost use Rattle.std.specs.Str.{bytes_eq};
ghost use Rattle.mrpc_table.specs.Calls.{message_at};
ghost use Rattle.mrpc_table.specs.Node.{Node};
ghost use Rattle.mrpc_table.specs.Normal.{IsNormal};
ghost use Rattle.mrpc_table.specs.Valid.{IsValid};
ghost use Rattle.wire_base.specs.Encoding.{encoding};
ghost use Rattle.call_history.specs.declared.happening.AcceptedCall.{AcceptedCall};
ghost use Rattle.audit_text.specs.Lines.{copy_words, hex_word};
ghost use Rattle.audit_text.specs.Writable.{IsWritableCall, IsWritableCopy};
ghost use Rattle.audit_text.specs.Copies.{read_call_numbers, read_malformed, read_reason, accepted_words, HasShortEncoding};
ghost use Rattle.audit_text.specs.Reading.{words_in, IsExactReading};

use crate::hexadecimal::read_bytes;
use crate::word::{Remainder, is_word, last64, next, number16, number32, number64};
use call_history::{AcceptedCall, TookCopy};
use graph_form::Reason;
use mrpc_table::{Memory, Table, Tree};
use std::alloc::Global;
use wire_decode::{DecodeFault, decode, meaning_of_encoding};
use wire_encode::{BackwardBuffer, encode_into};

// Copies of up to this many bytes are read into an array on the stack. Longer ones need an allocation.
const ROOM: usize = 128;

// The numbers of an accepted call, in the order of its line, before the copy.
#[derive(Clone, Copy)]
pub(crate) struct CallNumbers {
    pub seq: u32,
    pub method: u16,
    pub number: u32,
    pub addr: u64,
    pub after: u64,
    pub count: u64,
}

// Reads `SEQ METHOD NUMBER ADDR AFTER COUNT`, and returns the remainder too.
#[tactic(auto, unfolding(crate::specs::Copies::read_call_numbers))]
fn numbers(rest: Remainder<'_>) -> Option<(CallNumbers, Remainder<'_>)>
    ensures { option_map (λ p. (p.0, words_in p.1)) result ≡ read_call_numbers (words_in rest.entry) }
{
    let (seq, rest) = number32(rest)?;
    let (method, rest) = number16(rest)?;
    let (number, rest) = number32(rest)?;
    let (addr, rest) = number64(rest)?;
    let (after, rest) = number64(rest)?;
    let (count, rest) = number64(rest)?;
    let head = CallNumbers {
        seq,
        method,
        number,
        addr,
        after,
        count,
    };
    Some((head, rest))
}

// Returns the reason that a word names.
fn reason_of(word: &[u8]) -> Option<Reason>
    ensures { result ≡ read_reason word.now }
{
    if is_word(word, b"Address") {
        Some(Reason::Address)
    } else if is_word(word, b"Presence") {
        Some(Reason::Presence)
    } else if is_word(word, b"Case") {
        Some(Reason::Case)
    } else if is_word(word, b"Length") {
        Some(Reason::Length)
    } else if is_word(word, b"Utf8") {
        Some(Reason::Utf8)
    } else if is_word(word, b"Narrow") {
        Some(Reason::Narrow)
    } else if is_word(word, b"Depth") {
        Some(Reason::Depth)
    } else if is_word(word, b"Loads") {
        Some(Reason::Loads)
    } else if is_word(word, b"NoMethod") {
        Some(Reason::NoMethod)
    } else {
        None
    }
}

// `REASON PLACE VALUE`
#[tactic(auto, unfolding(crate::specs::Copies::read_malformed))]
fn malformed(rest: Remainder<'_>) -> Option<TookCopy>
    ensures { result ≡ read_malformed (words_in rest.entry) }
{
    let (word, rest) = next(rest)?;
    let reason = reason_of(word)?;
    let (place, rest) = number64(rest)?;
    let value = last64(rest)?;
    Some(TookCopy::Malformed {
        reason,
        place,
        value,
    })
}

// Returns the message whose encoding these bytes are. Encodes it again, into `out`, to reject bytes that decode to a
// message but aren't its encoding.
fn message_of_encoding(
    alloc: Global,
    out: &mut BackwardBuffer,
    bytes: &[u8],
    table: &Table,
    message: u32,
) -> Result<Option<Tree>, Memory>
    requires valid { IsValid table.now }
    requires known { message < length table.now.messages }
    ensures { IsExactReading (HasShortEncoding table.now message) (λ t. encoding table.now message t ∷ [])
        (bytes.now ∷ []) result }
{
    let Some(tree) = decoded(alloc, bytes, table, message)? else {
        return Ok(None);
    };
    if is_encoding(out, bytes, &tree, table, message)? {
        Ok(Some(tree))
    } else {
        Ok(None)
    }
}

// Decodes bytes; `None` if they have a decode fault.
fn decoded(alloc: Global, bytes: &[u8], table: &Table, message: u32) -> Result<Option<Tree>, Memory>
    requires valid { IsValid table.now }
    requires known { message < length table.now.messages }
    ensures normal { IfOk result (λ r. IfSome r (λ t. IsNormal table.now message t)) }
    ensures only { (t : Node) → HasShortEncoding table.now message t → bytes.now ≡ encoding table.now message t
        → IfOk result (λ r. r ≡ Some t) }
{
    meaning_of_encoding();
    match decode(alloc, bytes, table, message) {
        Ok(tree) => Ok(Some(tree)),
        Err(DecodeFault::Memory) => Err(Memory),
        Err(DecodeFault::At { .. }) => Ok(None),
    }
}

// Returns true if bytes are the encoding of a message.
fn is_encoding(
    out: &mut BackwardBuffer,
    bytes: &[u8],
    tree: &Tree,
    table: &Table,
    message: u32,
) -> Result<bool, Memory>
    requires valid { IsValid table.now }
    requires known { message < length table.now.messages }
    requires normal { IsNormal table.now message tree.now }
    ensures { IfOk result (λ same. same ≡ bytes_eq bytes.now (encoding table.now message tree.now)) }
{
    encode_into(out, tree, table, message)?;
    Ok(bytes == out.as_slice())
}

// Returns the message whose encoding a word spells in hexadecimal digits. `row` has room for its bytes.
fn message_in_row(
    alloc: Global,
    out: &mut BackwardBuffer,
    row: &mut [u8],
    word: &[u8],
    table: &Table,
    message: u32,
) -> Result<Option<Tree>, Memory>
    requires valid { IsValid table.now }
    requires known { message < length table.now.messages }
    requires room { length word.now ≤ 2 * length row.old }
    ensures { IsExactReading (HasShortEncoding table.now message) (λ t. hex_word (encoding table.now message t) ∷ [])
        (word.now ∷ []) result }
{
    match read_bytes(row, word) {
        Some(count) => message_of_encoding(alloc, out, &row[..count], table, message),
        None => Ok(None),
    }
}

// Returns the message whose encoding a word spells in hexadecimal digits.
fn message_of_word(
    alloc: Global,
    out: &mut BackwardBuffer,
    word: &[u8],
    table: &Table,
    message: u32,
) -> Result<Option<Tree>, Memory>
    requires valid { IsValid table.now }
    requires known { message < length table.now.messages }
    ensures { IsExactReading (HasShortEncoding table.now message) (λ t. hex_word (encoding table.now message t) ∷ [])
        (word.now ∷ []) result }
{
    if word.len() > 2 * ROOM {
        let mut longer = vec![in alloc; 0u8; word.len() / 2 + 1]?;
        return message_in_row(alloc, out, &mut longer, word, table, message);
    }
    let mut row = [0; ROOM];
    message_in_row(alloc, out, &mut row, word, table, message)
}

// Reads a copy as the last word. (The whole remainder may be passed as one word, since a space is no digit.)
fn copy_at(
    alloc: Global,
    out: &mut BackwardBuffer,
    rest: Remainder<'_>,
    table: &Table,
    message: u32,
) -> Result<Option<Tree>, Memory>
    requires valid { IsValid table.now }
    requires known { message < length table.now.messages }
    ensures { IsExactReading (HasShortEncoding table.now message) (λ t. hex_word (encoding table.now message t) ∷ [])
        (words_in rest.entry) result }
{
    match rest {
        None => Ok(None),
        Some(text) => message_of_word(alloc, out, text, table, message),
    }
}

// Reads the copy of an accepted call, or why it has none. A copy needs a method of the table.
fn copy(
    alloc: Global,
    out: &mut BackwardBuffer,
    rest: Remainder<'_>,
    table: &Table,
    method: u16,
    number: u32,
) -> Result<Option<TookCopy>, Memory>
    requires { IsValid table.now }
    ensures { (call : AcceptedCall) → call.method ≡ method → call.number ≡ number
        → IsExactReading (IsWritableCopy table.now call) (copy_words table.now (message_at table.now method number))
        (words_in rest.entry) result }
{
    let Some((word, rest)) = next(rest) else {
        return Ok(None);
    };
    if is_word(word, b"malformed") {
        return Ok(malformed(rest));
    }
    if !is_word(word, b"copy") || usize::from(method) >= table.methods.len() {
        return Ok(None);
    }
    let message = table.message_at(method, number);
    match copy_at(alloc, out, rest, table, message)? {
        None => Ok(None),
        Some(tree) => Ok(Some(TookCopy::Copy { tree })),
    }
}

// Reads an accepted call.
pub(crate) fn accepted_call(
    alloc: Global,
    out: &mut BackwardBuffer,
    rest: Remainder<'_>,
    table: &Table,
) -> Result<Option<AcceptedCall>, Memory>
    requires { IsValid table.now }
    ensures { IsExactReading (IsWritableCall table.now) (accepted_words table.now) (words_in rest.entry) result }
{
    let Some((head, rest)) = numbers(rest) else {
        return Ok(None);
    };
    match copy(alloc, out, rest, table, head.method, head.number)? {
        None => Ok(None),
        Some(copy) => Ok(Some(AcceptedCall {
            seq: head.seq,
            method: head.method,
            number: head.number,
            addr: head.addr,
            after: head.after,
            count: head.count,
            copy,
        })),
    }
}
