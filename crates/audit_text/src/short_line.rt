//! Lines that are read without allocation: notes on a call, and sends. Most lines of an audit are of these kinds.

ghost use Rattle.std.specs.Prelude.{◌≡◌, ◌∷◌, ◌++◌, IfSome};
ghost use Rattle.mrpc_table.specs.declared.table.Table.{Table};
ghost use Rattle.policy_declarations.specs.Declarations.{Declared};
ghost use Rattle.audit_text.specs.HappeningRefs.{connection_event_of_ref};
ghost use Rattle.audit_text.specs.Prefixes.{IsEventPrefix};
ghost use Rattle.audit_text.specs.LineWords.{kind_word};
ghost use Rattle.audit_text.specs.Lines.{audit_line};
ghost use Rattle.audit_text.specs.Writable.{IsWritable};
ghost use Rattle.audit_text.specs.declared.event_words.LineKind.TheVariants as kinds;

use crate::event_words::LineKind;
use crate::prefix::{after_prefix, prefix_name, prefix_number32, prefix_number64};

/// A note on a call, or its send, as read from its line, with a borrowed name. Each corresponds to an event with an
/// owned name (`event_of_ref` of `specs/HappeningRefs.antt`).
#[derive(Clone, Copy)]
pub enum HappeningRef<'a> {
    /// An engine charged the call, and its bucket then has this level.
    Charged {
        seq: u32,
        name: &'a [u8],
        level: u64,
    },
    /// An engine drew a ticket for the call, in a window.
    Drawn {
        seq: u32,
        name: &'a [u8],
        window: u64,
        ticket: u64,
    },
    /// An engine counted the call.
    Counted {
        seq: u32,
        name: &'a [u8],
    },
    /// The call was sent in a frame of this many bytes.
    Sent {
        seq: u32,
        bytes: u64,
    },
}

/// A [`HappeningRef`] with its connection.
#[derive(Clone, Copy)]
pub struct HappenedRef<'a> {
    pub conn: u32,
    pub what: HappeningRef<'a>,
}

// Reads `SEQ NAME LEVEL`, and returns the remainder after the line too.
fn charged(text: &[u8]) -> Option<(HappeningRef<'_>, &[u8])>
    ensures { IfSome result (λ r. IsEventPrefix kinds.Charged text.now r.0 r.1.now) }
{
    let (seq, rest) = prefix_number32(text, b' ')?;
    let (name, rest) = prefix_name(rest, b' ')?;
    let (level, rest) = prefix_number64(rest, b'\n')?;
    Some((HappeningRef::Charged { seq, name, level }, rest))
}

// Like `charged`, for `SEQ NAME WINDOW TICKET`.
fn drawn(text: &[u8]) -> Option<(HappeningRef<'_>, &[u8])>
    ensures { IfSome result (λ r. IsEventPrefix kinds.Drawn text.now r.0 r.1.now) }
{
    let (seq, rest) = prefix_number32(text, b' ')?;
    let (name, rest) = prefix_name(rest, b' ')?;
    let (window, rest) = prefix_number64(rest, b' ')?;
    let (ticket, rest) = prefix_number64(rest, b'\n')?;
    let what = HappeningRef::Drawn {
        seq,
        name,
        window,
        ticket,
    };
    Some((what, rest))
}

// Like `charged`, for `SEQ NAME`.
fn counted(text: &[u8]) -> Option<(HappeningRef<'_>, &[u8])>
    ensures { IfSome result (λ r. IsEventPrefix kinds.Counted text.now r.0 r.1.now) }
{
    let (seq, rest) = prefix_number32(text, b' ')?;
    let (name, rest) = prefix_name(rest, b'\n')?;
    Some((HappeningRef::Counted { seq, name }, rest))
}

// Like `charged`, for `SEQ BYTES`.
fn sent(text: &[u8]) -> Option<(HappeningRef<'_>, &[u8])>
    ensures { IfSome result (λ r. IsEventPrefix kinds.Sent text.now r.0 r.1.now) }
{
    let (seq, rest) = prefix_number32(text, b' ')?;
    let (bytes, rest) = prefix_number64(rest, b'\n')?;
    Some((HappeningRef::Sent { seq, bytes }, rest))
}

// Reads the first word of a line and its space, if it names a kind that is read without allocation. Returns the kind
// and the remainder.
#[inline(always)]
fn prefix_kind(text: &[u8]) -> Option<(LineKind, &[u8])>
    ensures { IfSome result (λ r. text.now ≡ kind_word r.0 ++ 32 ∷ r.1.now) }
{
    if let Some(rest) = after_prefix(text, b"charged ") {
        return Some((LineKind::Charged, rest));
    }
    if let Some(rest) = after_prefix(text, b"drawn ") {
        return Some((LineKind::Drawn, rest));
    }
    if let Some(rest) = after_prefix(text, b"counted ") {
        return Some((LineKind::Counted, rest));
    }
    let rest = after_prefix(text, b"sent ")?;
    Some((LineKind::Sent, rest))
}

// Reads the words after the connection, if they are of a kind that is read without allocation.
fn read_of_kind(kind: LineKind, text: &[u8]) -> Option<(HappeningRef<'_>, &[u8])>
    ensures { IfSome result (λ r. IsEventPrefix kind text.now r.0 r.1.now) }
{
    match kind {
        LineKind::Charged => charged(text),
        LineKind::Drawn => drawn(text),
        LineKind::Counted => counted(text),
        LineKind::Sent => sent(text),
        LineKind::Took
        | LineKind::Away
        | LineKind::Op
        | LineKind::Moment
        | LineKind::Redacted
        | LineKind::Refused => None,
    }
}

/// Reads the first line of a text, if it is a note on a call or a send. Returns it with the remainder after its line
/// feed. It allocates no memory. `None` claims nothing of the line; use [`read_line`](crate::read_line) then.
pub fn read_happening_ref(text: &[u8]) -> Option<(HappenedRef<'_>, &[u8])>
    ensures told { IfSome result (λ r. (T : Table) (declared : Declared)
        → text.now ≡ audit_line T (connection_event_of_ref r.0) ++ r.1.now) }
    ensures writable { IfSome result (λ r. (T : Table) (declared : Declared)
        → IsWritable T declared (connection_event_of_ref r.0)) }
{
    let (kind, rest) = prefix_kind(text)?;
    let (conn, rest) = prefix_number32(rest, b' ')?;
    let (what, rest) = read_of_kind(kind, rest)?;
    Some((HappenedRef { conn, what }, rest))
}
