//! Reads lines that submit a request, give an engine a turn, or drain a connection, in one pass over their bytes.

ghost use Rattle.std.specs.Prelude.{◌≡◌, ◌∷◌, IfSome};
ghost use Rattle.script_grammar.specs.declared.form.LineForm.TheVariants.{Drain as DrainForm, Submit as SubmitForm, Turn as TurnForm};
ghost use Rattle.replay_script.specs.Stores.{drain_words, submit_words, turn_words, IsFirstLineOf};

use crate::store_line::{after_feed, after_space, prefix_number};
use mrpc_table::Decimal;

// The values of a `submit` line without the number of a request.
#[derive(Clone, Copy)]
pub(crate) struct SubmitLine {
    pub conn: u64,
    pub method: u64,
    pub addr: u64,
}

// The values of a `turn` line.
#[derive(Clone, Copy)]
pub(crate) struct TurnLine {
    pub conn: u64,
    pub at: Decimal,
}

// Returns the remainder after the first word of a `submit` line.
fn after_submit(text: &[u8]) -> Option<&[u8]>
    ensures { IfSome result (λ r. text.now ≡ 115 ∷ 117 ∷ 98 ∷ 109 ∷ 105 ∷ 116 ∷ 32 ∷ r.now) }
{
    match text {
        [b's', b'u', b'b', b'm', b'i', b't', b' ', rest @ ..] => Some(rest),
        _ => None,
    }
}

// Returns the remainder after the first word of a `turn` line.
fn after_turn_word(text: &[u8]) -> Option<&[u8]>
    ensures { IfSome result (λ r. text.now ≡ 116 ∷ 117 ∷ 114 ∷ 110 ∷ 32 ∷ r.now) }
{
    match text {
        [b't', b'u', b'r', b'n', b' ', rest @ ..] => Some(rest),
        _ => None,
    }
}

// Returns the remainder after the first word of a `drain` line.
fn after_drain(text: &[u8]) -> Option<&[u8]>
    ensures { IfSome result (λ r. text.now ≡ 100 ∷ 114 ∷ 97 ∷ 105 ∷ 110 ∷ 32 ∷ r.now) }
{
    match text {
        [b'd', b'r', b'a', b'i', b'n', b' ', rest @ ..] => Some(rest),
        _ => None,
    }
}

// Reads a request's `submit` line with short numbers at the start of a text. Returns its values and the remainder;
// `None` for each other line, which has to be read word by word.
pub(crate) fn prefix_submit(text: &[u8]) -> Option<(SubmitLine, &[u8])>
    ensures { IfSome result (λ r. IsFirstLineOf SubmitForm text.now (submit_words r.0) r.1.now) }
{
    let words = after_submit(text)?;
    let (conn, behind) = prefix_number(words)?;
    if conn < 1 || conn > 16 {
        return None;
    }
    let (method, behind) = prefix_number(after_space(behind)?)?;
    if method > 65535 {
        return None;
    }
    let (addr, behind) = prefix_number(after_space(behind)?)?;
    let left = after_feed(behind)?;
    Some((SubmitLine { conn, method, addr }, left))
}

// Like `prefix_submit`, for a `turn` line.
pub(crate) fn prefix_turn(text: &[u8]) -> Option<(TurnLine, &[u8])>
    ensures { IfSome result (λ r. IsFirstLineOf TurnForm text.now (turn_words r.0) r.1.now) }
{
    let words = after_turn_word(text)?;
    let (conn, behind) = prefix_number(words)?;
    if conn < 1 || conn > 16 {
        return None;
    }
    let (at, behind) = prefix_number(after_space(behind)?)?;
    let left = after_feed(behind)?;
    let turn = TurnLine {
        conn,
        at: Decimal::Small(at),
    };
    Some((turn, left))
}

// Like `prefix_submit`, for a `drain` line; returns the number of its connection.
pub(crate) fn prefix_drain(text: &[u8]) -> Option<(u64, &[u8])>
    ensures { IfSome result (λ r. IsFirstLineOf DrainForm text.now (drain_words r.0) r.1.now) }
{
    let words = after_drain(text)?;
    let (conn, behind) = prefix_number(words)?;
    if conn < 1 || conn > 16 {
        return None;
    }
    let left = after_feed(behind)?;
    Some((conn, left))
}
