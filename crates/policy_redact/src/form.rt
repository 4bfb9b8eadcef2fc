//! Parses lines by their form.

ghost use Rattle.std.specs.Prelude.{◌≡◌, IfOk};
ghost use Rattle.mrpc_table.specs.Lines.{words_of};
ghost use Rattle.policy_redact.specs.Lines.{with_path, after_index, clear_line_of};

use crate::line::ClearLine;
use mrpc_table::{CallKind, Decimal, Memory, PathWord, number_of, split_once};
use std::alloc::Global;

fn with_path(
    alloc: Global,
    index: Decimal,
    sort: CallKind,
    word: &[u8],
) -> Result<Option<ClearLine>, Memory>
    ensures { IfOk result (λ l. l ≡ with_path index sort word.now) }
{
    match PathWord::read(alloc, word)? {
        None => Ok(None),
        Some(path) => Ok(Some(ClearLine { index, sort, path })),
    }
}

// `[reply] PATH`
fn after_index(alloc: Global, index: Decimal, line: &[u8]) -> Result<Option<ClearLine>, Memory>
    ensures { IfOk result (λ l. l ≡ after_index index (words_of line.now)) }
{
    let Some((word, path)) = split_once(line, b' ') else {
        return with_path(alloc, index, CallKind::Request, line);
    };
    match split_once(path, b' ') {
        Some(_) => Ok(None),
        None if word == b"reply".as_slice() => with_path(alloc, index, CallKind::Reply, path),
        None => Ok(None),
    }
}

// A parsed line, or `None` if the line is malformed.
#[tactic(auto, unfolding(crate::specs::Lines::clear_line_of))]
pub(crate) fn clear_line_of(alloc: Global, line: &[u8]) -> Result<Option<ClearLine>, Memory>
    ensures { IfOk result (λ l. l ≡ clear_line_of line.now) }
{
    let Some((first, rest)) = split_once(line, b' ') else {
        return Ok(None);
    };
    let Some((second, rest)) = split_once(rest, b' ') else {
        return Ok(None);
    };
    let Some((index, rest)) = split_once(rest, b' ') else {
        return Ok(None);
    };
    if first != b"clear".as_slice() || second != b"method".as_slice() {
        return Ok(None);
    }
    match number_of(index) {
        None => Ok(None),
        Some(index) => after_index(alloc, index, rest),
    }
}
