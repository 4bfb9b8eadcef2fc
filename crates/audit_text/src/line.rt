//! Lines of an audit text.

ghost use Rattle.std.specs.Prelude.{◌≡◌, ◌++◌, ◌∷◌, ℕ, List, [], Some, IfOk, IfSome, MatchOption};
ghost use Rattle.mrpc_table.specs.Lines.{words_of};
ghost use Rattle.mrpc_table.specs.Valid.{IsValid};
ghost use Rattle.audit_text.specs.Writable.{CanBeWritten};
ghost use Rattle.audit_text.specs.LineWords.{line_kind_of, line_words, read_stands, read_holding, is_queue_name, tail_words};
ghost use Rattle.audit_text.specs.Reading.{words_in, IsExactReading};
ghost use Rattle.audit_text.specs.declared.line.AuditLine.{AuditLine};
ghost use Rattle.audit_text.specs.LineBytes.{bytes_of_line, IsWritableLine};

use crate::copy::accepted_call;
use crate::event_words::{
    LineKind, away, charged, counted, drawn, moment, redacted, refused, sent,
};
use crate::holding::Holding;
use crate::laws::{history_of_text_is_unique, line_splits_into_words, stands_line_determines_call};
use crate::operation::operation;
use crate::word::{Remainder, end, is_word, last64, next, number32, number64};
use call_history::{ConnectionEvent, Happening};
use mrpc_table::{Memory, Name, Table, is_name_form};
use policy_declarations::Declarations;
use std::alloc::Global;
use wire_encode::BackwardBuffer;

/// A line of an audit text.
#[derive(Drop)]
pub enum AuditLine {
    /// An event and its connection.
    Happened(ConnectionEvent),
    /// A pending call in the queue of an engine, or in the transport queue, whose name is `-`.
    Stands {
        /// The connection.
        conn: u32,
        /// The number of the call.
        seq: u32,
        /// The engine's position in the chain, counted from 0.
        position: u32,
        /// The name of the engine, or `-`.
        name: Name,
        /// The level and cost at which the call is held; `None` if it isn't held.
        holding: Option<Holding>,
    },
}

// Returns true if a word is the name of an engine or of the transport queue.
fn is_queue_name(word: &[u8]) -> bool
    ensures { result ≡ is_queue_name word.now }
{
    is_name_form(word) || is_word(word, b"-")
}

// Reads `held LEVEL COST`, or nothing.
#[tactic(auto, unfolding(crate::specs::LineWords::read_holding))]
fn holding(rest: Remainder<'_>) -> Option<Option<Holding>>
    ensures { result ≡ read_holding (words_in rest.entry) }
{
    let Some((word, rest)) = next(rest) else {
        return Some(None);
    };
    if !is_word(word, b"held") {
        return None;
    }
    let (level, rest) = number64(rest)?;
    let cost = last64(rest)?;
    Some(Some(Holding { level, cost }))
}

// Reads `SEQ POSITION NAME`, and whether the call is held.
#[tactic(auto, unfolding(crate::specs::LineWords::read_stands))]
fn stands(alloc: Global, conn: u32, rest: Remainder<'_>) -> Result<Option<AuditLine>, Memory>
    ensures { IfOk result (λ x. x ≡ read_stands conn (words_in rest.entry)) }
{
    let Some((seq, rest)) = number32(rest) else {
        return Ok(None);
    };
    let Some((position, rest)) = number32(rest) else {
        return Ok(None);
    };
    let Some((word, rest)) = next(rest) else {
        return Ok(None);
    };
    if !is_queue_name(word) {
        return Ok(None);
    }
    let Some(holding) = holding(rest) else {
        return Ok(None);
    };
    let name = Name::from_slice(alloc, word)?;
    Ok(Some(AuditLine::Stands {
        conn,
        seq,
        position,
        name,
        holding,
    }))
}

// Reads an event of a kind from the words after the connection.
fn event_of_kind(
    alloc: Global,
    encoding: &mut BackwardBuffer,
    kind: LineKind,
    rest: Remainder<'_>,
    table: &Table,
    declared: &Declarations,
) -> Result<Option<Happening>, Memory>
    requires { IsValid table.now }
    ensures { IsExactReading (λ x. CanBeWritten table.now declared.now x
        × (line_kind_of x ≡ kind)) (tail_words table.now)
        (words_in rest.entry) result }
{
    match kind {
        LineKind::Took => match accepted_call(alloc, encoding, rest, table)? {
            None => Ok(None),
            Some(call) => Ok(Some(Happening::Took(call))),
        },
        LineKind::Op => match operation(alloc, rest, declared)? {
            None => Ok(None),
            Some(step) => Ok(Some(Happening::Op(step))),
        },
        LineKind::Away => Ok(away(rest)),
        LineKind::Moment => Ok(moment(rest)),
        LineKind::Sent => Ok(sent(rest)),
        LineKind::Charged => charged(alloc, rest),
        LineKind::Drawn => drawn(alloc, rest),
        LineKind::Counted => counted(alloc, rest),
        LineKind::Redacted => redacted(alloc, rest),
        LineKind::Refused => refused(alloc, rest),
    }
}

// Reads a line from its words.
fn line_of(
    alloc: Global,
    encoding: &mut BackwardBuffer,
    text: &[u8],
    table: &Table,
    declared: &Declarations,
) -> Result<Option<AuditLine>, Memory>
    requires { IsValid table.now }
    ensures { IsExactReading (IsWritableLine table.now declared.now) (line_words table.now) (words_of text.now) result }
{
    let Some((word, rest)) = next(Some(text)) else {
        return Ok(None);
    };
    let Some((conn, rest)) = number32(rest) else {
        return Ok(None);
    };
    if is_word(word, b"stands") {
        return stands(alloc, conn, rest);
    }
    let Some(kind) = LineKind::of_word(word) else {
        return Ok(None);
    };
    match event_of_kind(alloc, encoding, kind, rest, table, declared)? {
        None => Ok(None),
        Some(what) => Ok(Some(AuditLine::Happened(ConnectionEvent { conn, what }))),
    }
}

// Returns the line without the line feed at its end.
pub(crate) fn before_feed(line: &[u8]) -> Option<&[u8]>
    ensures { MatchOption result ((front : List ℕ) → line.now ≡ front ++ 10 ∷ [] → ⊥)
        (λ text. line.now ≡ text.now ++ 10 ∷ []) }
{
    match line.split_last() {
        Some((last, text)) if *last == b'\n' => Some(text),
        _ => None,
    }
}

/// Reads a line, with its line feed, under a table and declared policies.
///
/// Returns `None` exactly if the bytes are no line that can be written. Hexadecimal digits are lower-case, and spell
/// the encoding of a normal tree of the method's message. Numbers are decimal, without sign or leading zero, and in the
/// ranges of their types. Names have the form of a name, and the label of an operation is a declared one. The only
/// error is `Memory`.
///
/// Copies are encoded into `encoding`, which is overwritten, so that many lines share one allocation.
pub fn read_line(
    alloc: Global,
    encoding: &mut BackwardBuffer,
    line: &[u8],
    table: &Table,
    declared: &Declarations,
) -> Result<Option<AuditLine>, Memory>
    requires { IsValid table.now }
    ensures told { IfOk result (λ r. IfSome r (λ x. line.now ≡ bytes_of_line table.now x)) }
    ensures writable { IfOk result (λ r. IfSome r (λ x. IsWritableLine table.now declared.now x)) }
    ensures only { (x : AuditLine) → IsWritableLine table.now declared.now x → line.now ≡ bytes_of_line table.now x
        → IfOk result (λ r. r ≡ Some x) }
{
    line_splits_into_words();
    stands_line_determines_call();
    history_of_text_is_unique();
    let Some(text) = before_feed(line) else {
        return Ok(None);
    };
    line_of(alloc, encoding, text, table, declared)
}
