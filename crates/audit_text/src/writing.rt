//! Writes the lines of events and of pending calls.

ghost use Rattle.std.specs.Prelude.{◌≡◌, ◌∷◌, ◌++◌, [], codes, map, IfOk, OnOk};
ghost use Rattle.std.specs.Fmt.{decimal};
ghost use Rattle.mrpc_table.specs.Lines.{after_spaces};
ghost use Rattle.mrpc_table.specs.Text.{line};
ghost use Rattle.mrpc_table.specs.Valid.{IsValid};
ghost use Rattle.mrpc_table.specs.declared.table.Table.{Table};
ghost use Rattle.audit_text.specs.Lines.{audit_line, cause_words, encoding_of, hex_word, stands_line, step_words, IsEventOfTable, IsCopyOfTable};
ghost use Rattle.audit_text.specs.Pieces.{note_line, copy_words_of_encoding};
ghost use Rattle.call_history.specs.declared.happening.Happening.TheVariants.{Took};

use crate::holding::Holding;
use crate::row::{put_line, put_note, put_prefix};
use call_history::{AcceptedCall, Cause, ConnectionEvent, Happening, TookCopy};
use engine_core::Op;
use mrpc_table::{Bytes, Memory, Table};
use std::alloc::Global;
use wire_encode::{BackwardBuffer, encode_into};

// A line of up to this many bytes is made in an array and appended at once. A longer one is appended word by word.
const ROOM: usize = 128;

/// Returns the audit line of an event, with its line feed. The format is this project's own. The only error is
/// `Memory`.
pub fn audit_line(alloc: Global, happened: &ConnectionEvent, table: &Table) -> Result<Bytes, Memory>
    requires valid { IsValid table.now }
    requires fits { IsEventOfTable table.now happened.now.what }
    ensures { IfOk result (λ line. line ≡ audit_line table.now happened.now) }
{
    let mut out = Bytes::new(alloc);
    append_audit_line(alloc, &mut out, happened, table)?;
    Ok(out)
}

/// Appends the audit line of an event, with its line feed. The only error is `Memory`.
pub fn append_audit_line(
    alloc: Global,
    out: &mut Bytes,
    happened: &ConnectionEvent,
    table: &Table,
) -> Result<(), Memory>
    requires valid { IsValid table.now }
    requires fits { IsEventOfTable table.now happened.now.what }
    ensures { OnOk result (out.new ≡ out.old ++ audit_line table.now happened.now) }
{
    let conn = happened.conn;
    match &happened.what {
        Happening::Took(call) => {
            let mut encoding = BackwardBuffer::new(alloc)?;
            append_took(out, &mut encoding, conn, call, table)
        }
        Happening::Away {
            method,
            number,
            addr,
        } => append_away(out, conn, *method, *number, *addr),
        Happening::Op(step) => append_step(out, conn, step),
        Happening::Moment { ms } => append_numbers(out, b"moment", &[u64::from(conn), *ms]),
        Happening::Charged { seq, name, level } => {
            let numbers = [*level];
            append_note(out, b"charged", conn, *seq, name.as_slice(), &numbers)
        }
        Happening::Drawn {
            seq,
            name,
            window,
            ticket,
        } => {
            let numbers = [*window, *ticket];
            append_note(out, b"drawn", conn, *seq, name.as_slice(), &numbers)
        }
        Happening::Counted { seq, name } => {
            append_note(out, b"counted", conn, *seq, name.as_slice(), &[])
        }
        Happening::Redacted { seq, name, version } => {
            let numbers = [u64::from(*version)];
            append_note(out, b"redacted", conn, *seq, name.as_slice(), &numbers)
        }
        Happening::Sent { seq, bytes } => append_sent(out, conn, *seq, *bytes),
        Happening::Refused { seq, cause } => append_refusal(out, conn, *seq, cause),
    }
}

// Appends the line of an accepted call, whose copy it encodes into `encoding`.
pub(crate) fn append_took(
    out: &mut Bytes,
    encoding: &mut BackwardBuffer,
    conn: u32,
    call: &AcceptedCall,
    table: &Table,
) -> Result<(), Memory>
    requires valid { IsValid table.now }
    requires fits { IsCopyOfTable table.now call.now call.now.copy }
    ensures { OnOk result (out.new ≡ out.old ++ audit_line table.now (record { conn = conn; what = Took call.now })) }
{
    match &call.copy {
        TookCopy::Copy { tree } => {
            let message = table.message_at(call.method, call.number);
            encode_into(encoding, tree, table, message)?;
            append_took_line(out, conn, call, encoding.as_slice())
        }
        TookCopy::Malformed { .. } => append_took_line(out, conn, call, &[]),
    }
}

/// Appends the audit line of an accepted call, with its line feed. The caller passes the encoding of the call's copy,
/// for example from its frame, so that no tree is encoded twice. The only error is `Memory`.
pub fn append_took_line(
    out: &mut Bytes,
    conn: u32,
    call: &AcceptedCall,
    encoding: &[u8],
) -> Result<(), Memory>
    ensures { (T : Table) → encoding.now ≡ encoding_of T call.now call.now.copy
        → OnOk result (out.new ≡ out.old ++ audit_line T (record { conn = conn; what = Took call.now })) }
{
    let numbers = [
        u64::from(conn),
        u64::from(call.seq),
        u64::from(call.method),
        u64::from(call.number),
        call.addr,
        call.after,
        call.count,
    ];
    append_prefix(out, b"took", &numbers)?;
    append_copy(out, &call.copy, encoding)?;
    out.push(b'\n')
}

/// Appends the line of a pending call in the queue of an engine, with its line feed. It has the engine's position in
/// the chain, the engine's name, or `-` for the transport queue, and the level and cost if the call is held. The only
/// error is `Memory`.
pub fn append_stands_line(
    out: &mut Bytes,
    conn: u32,
    seq: u32,
    position: u32,
    name: &[u8],
    holding: Option<Holding>,
) -> Result<(), Memory>
    ensures { OnOk result (out.new ≡ out.old ++ stands_line conn seq position name.now holding) }
{
    let numbers = [u64::from(conn), u64::from(seq), u64::from(position)];
    append_prefix(out, b"stands", &numbers)?;
    out.append_spaced(name)?;
    if let Some(holding) = holding {
        append_prefix(out, b" held", &[holding.level, holding.cost])?;
    }
    out.push(b'\n')
}

/// Appends bytes as a further word of a line: in lower-case hexadecimal digits, or `-` if there are none. The only
/// error is `Memory`.
pub fn append_hex_word(out: &mut Bytes, bytes: &[u8]) -> Result<(), Memory>
    ensures { OnOk result (out.new ≡ out.old ++ 32 ∷ hex_word bytes.now) }
{
    out.push(b' ')?;
    if bytes.is_empty() {
        return out.push(b'-');
    }
    out.append_hex(bytes)
}

// Appends a prefix, and numbers after it.
pub(crate) fn append_prefix(out: &mut Bytes, front: &[u8], numbers: &[u64]) -> Result<(), Memory>
    ensures { OnOk result (out.new ≡ out.old ++ (front.now ++ after_spaces (map decimal numbers.now))) }
{
    let mut row = [0; ROOM];
    match put_prefix(&mut row, ROOM, front, numbers) {
        Some(start) => out.append(&row[start..]),
        None => out.append_row(front, numbers),
    }
}

// Appends a line of a word and numbers.
pub(crate) fn append_numbers(out: &mut Bytes, word: &[u8], numbers: &[u64]) -> Result<(), Memory>
    ensures { OnOk result (out.new ≡ out.old ++ line (word.now ∷ map decimal numbers.now)) }
{
    let mut row = [0; ROOM];
    match put_line(&mut row, word, numbers) {
        Some(start) => out.append(&row[start..]),
        None => append_numbers_by_words(out, word, numbers),
    }
}

// Like `append_numbers`, one word after another.
#[cold]
#[inline(never)]
fn append_numbers_by_words(out: &mut Bytes, word: &[u8], numbers: &[u64]) -> Result<(), Memory>
    ensures { OnOk result (out.new ≡ out.old ++ line (word.now ∷ map decimal numbers.now)) }
{
    out.append_row(word, numbers)?;
    out.push(b'\n')
}

// Appends the line of an entry's note on a call.
pub(crate) fn append_note(
    out: &mut Bytes,
    word: &[u8],
    conn: u32,
    seq: u32,
    name: &[u8],
    numbers: &[u64],
) -> Result<(), Memory>
    ensures { OnOk result (out.new ≡ out.old ++ note_line word.now conn seq name.now numbers.now) }
{
    let mut row = [0; ROOM];
    match put_note(&mut row, word, conn, seq, name, numbers) {
        Some(start) => out.append(&row[start..]),
        None => append_note_by_words(out, word, conn, seq, name, numbers),
    }
}

// Like `append_note`, one word after another.
#[cold]
#[inline(never)]
fn append_note_by_words(
    out: &mut Bytes,
    word: &[u8],
    conn: u32,
    seq: u32,
    name: &[u8],
    numbers: &[u64],
) -> Result<(), Memory>
    ensures { OnOk result (out.new ≡ out.old ++ note_line word.now conn seq name.now numbers.now) }
{
    out.append_row(word, &[u64::from(conn), u64::from(seq)])?;
    out.append_spaced(name)?;
    out.append_row(b"", numbers)?;
    out.push(b'\n')
}

// Appends the words of a call's copy, given its encoding, or the reason why it has none.
fn append_copy(out: &mut Bytes, copy: &TookCopy, encoding: &[u8]) -> Result<(), Memory>
    ensures { OnOk result (out.new ≡ out.old ++ after_spaces (copy_words_of_encoding encoding.now copy.now)) }
{
    match copy {
        TookCopy::Copy { .. } => {
            out.append(b" copy")?;
            append_hex_word(out, encoding)
        }
        TookCopy::Malformed {
            reason,
            place,
            value,
        } => {
            out.append(b" malformed ")?;
            append_prefix(out, reason.word().as_bytes(), &[*place, *value])
        }
    }
}

// Appends the line of a submission that was rejected because too many calls were pending.
pub(crate) fn append_away(
    out: &mut Bytes,
    conn: u32,
    method: u16,
    number: u32,
    addr: u64,
) -> Result<(), Memory>
    ensures { OnOk result (out.new ≡ out.old
        ++ line (codes "away" ∷ decimal conn ∷ decimal method ∷ decimal number ∷ decimal addr ∷ [])) }
{
    let numbers = [u64::from(conn), u64::from(method), u64::from(number), addr];
    append_numbers(out, b"away", &numbers)
}

// Appends the line of a sent call, with the size of its frame in bytes.
pub(crate) fn append_sent(out: &mut Bytes, conn: u32, seq: u32, bytes: u64) -> Result<(), Memory>
    ensures { OnOk result (out.new
        ≡ out.old ++ line (codes "sent" ∷ decimal conn ∷ decimal seq ∷ decimal bytes ∷ [])) }
{
    append_numbers(out, b"sent", &[u64::from(conn), u64::from(seq), bytes])
}

// Appends the line of an operation.
pub(crate) fn append_step(out: &mut Bytes, conn: u32, step: &Op) -> Result<(), Memory>
    ensures { OnOk result (out.new ≡ out.old ++ line (codes "op" ∷ decimal conn ∷ step_words step.now)) }
{
    append_prefix(out, b"op", &[u64::from(conn)])?;
    match step {
        Op::Attach {
            at,
            name,
            label,
            ..
        } => {
            append_prefix(out, b" attach", &[u64::from(*at)])?;
            out.append_spaced(name.as_slice())?;
            out.append_spaced(label.as_slice())?;
        }
        Op::Detach { name } => {
            out.append(b" detach")?;
            out.append_spaced(name.as_slice())?;
        }
        Op::Upgrade { name, label, .. } => {
            out.append(b" upgrade")?;
            out.append_spaced(name.as_slice())?;
            out.append_spaced(label.as_slice())?;
        }
    }
    out.push(b'\n')
}

// Appends the line of a refusal.
fn append_refusal(out: &mut Bytes, conn: u32, seq: u32, cause: &Cause) -> Result<(), Memory>
    ensures { OnOk result (out.new
        ≡ out.old ++ line (codes "refused" ∷ decimal conn ∷ decimal seq ∷ cause_words cause.now)) }
{
    append_prefix(out, b"refused", &[u64::from(conn), u64::from(seq)])?;
    match cause {
        Cause::Malformed => out.append(b" malformed")?,
        Cause::Access {
            name,
            version,
            rule,
        } => {
            append_cause(out, b" access", name.as_slice(), &[u64::from(*version)])?;
            out.append_spaced(rule.as_slice())?;
        }
        Cause::Rate { name, level, cost } => {
            append_cause(out, b" rate", name.as_slice(), &[*level, *cost])?
        }
        Cause::Quota { name, ticket, cap } => {
            append_cause(out, b" quota", name.as_slice(), &[*ticket, *cap])?
        }
        Cause::Transport => out.append(b" transport")?,
    }
    out.push(b'\n')
}

// Appends a cause that an entry gives: a space and its kind, the entry's name, and numbers.
pub(crate) fn append_cause(
    out: &mut Bytes,
    kind: &[u8],
    name: &[u8],
    numbers: &[u64],
) -> Result<(), Memory>
    ensures { OnOk result (out.new ≡ out.old ++ (kind.now ++ after_spaces (name.now ∷ map decimal numbers.now))) }
{
    out.append(kind)?;
    out.append_spaced(name)?;
    append_prefix(out, b"", numbers)
}
