//! The lines before the text of the table.

ghost use Rattle.std.specs.Prelude.{◌≡◌, ◌≤◌, ◌++◌, ℕ, List, length, IfOk, IfErr};
ghost use Rattle.script_grammar.specs.Preambles.{IsHead, IsFaultOfPreamble};
ghost use Rattle.script_grammar.specs.Limits.{HasLimit, IsLimitFault, within};

use crate::limits::USUAL_LOADS;
use crate::{ScriptFault, ScriptReason};
use mrpc_table::{Decimal, MAX_LOADS, number_of, split_once};

// The line before the table's text.
const TABLE_LINE: &[u8] = b"table\n";

// The prefix of the line that limits how many words are loaded for one call.
const LOADS: &[u8] = b"loads ";

// The lines before the table's text.
#[derive(Clone, Copy)]
pub(crate) struct PreambleHead<'a> {
    // The limit of words that are loaded for one call.
    pub loads: u64,
    // These lines.
    pub front: &'a [u8],
    // The remainder of the text.
    pub behind: &'a [u8],
}

// Reads the lines before the text of the table, up to `table`. `first` is the first line, with its line feed.
pub(crate) fn read_head<'a>(text: &'a [u8], first: &[u8]) -> Result<PreambleHead<'a>, ScriptFault>
    ensures head { IfOk result (λ h. IsHead first.now h.front.now h.loads
        × (text.now ≡ h.front.now ++ h.behind.now)) }
    ensures fault { IfErr result (IsFaultOfPreamble first.now text.now) }
{
    let Some(second) = text.strip_prefix(first) else {
        return Err(fault(1, ScriptReason::Header));
    };
    if let Some(behind) = second.strip_prefix(TABLE_LINE) {
        return Ok(head_before(text, USUAL_LOADS, behind));
    }
    let (loads, third) = match read_limit(second) {
        Ok(limit) => limit,
        Err(reason) => return Err(fault(2, reason)),
    };
    match third.strip_prefix(TABLE_LINE) {
        Some(behind) => Ok(head_before(text, loads, behind)),
        None => Err(fault(3, ScriptReason::Word)),
    }
}

// Makes the head of a text from the remainder after it.
fn head_before<'a>(text: &'a [u8], loads: u64, behind: &'a [u8]) -> PreambleHead<'a>
    requires { length behind.now ≤ length text.now }
    ensures front { (front : List ℕ) → text.now ≡ front ++ behind.now → result.front.now ≡ front }
    ensures behind { result.behind.now ≡ behind.now }
    ensures loads { result.loads ≡ loads }
{
    PreambleHead {
        loads,
        front: &text[..text.len() - behind.len()],
        behind,
    }
}

fn fault(line: u64, reason: ScriptReason) -> ScriptFault
    ensures { result ≡ ScriptFault.At line reason }
{
    ScriptFault::At { line, reason }
}

// Reads a `loads` line. Returns its limit, and the remainder after it.
fn read_limit(text: &[u8]) -> Result<(u64, &[u8]), ScriptReason>
    ensures limit { IfOk result (λ p. HasLimit text.now p.0 p.1.now) }
    ensures fault { IfErr result (IsLimitFault text.now) }
{
    let Some((line, behind)) = split_once(text, b'\n') else {
        return Err(ScriptReason::Word);
    };
    let Some(word) = line.strip_prefix(LOADS) else {
        return Err(ScriptReason::Word);
    };
    let Some(number) = number_of(word) else {
        return Err(ScriptReason::Word);
    };
    match within(1, MAX_LOADS, number) {
        Ok(loads) => Ok((loads, behind)),
        Err(reason) => Err(reason),
    }
}

// Returns the number if it is in range.
fn within(least: u64, most: u64, number: Decimal) -> Result<u64, ScriptReason>
    ensures { result ≡ within least most number }
{
    match number {
        Decimal::Small(number) if least <= number && number <= most => Ok(number),
        _ => Err(ScriptReason::Number),
    }
}
