//! Reads a script from its text.

ghost use Rattle.std.specs.Prelude.{◌≡◌, ◌≤◌, ◌+◌, ◌-◌, [], length, take, IfOk, IfErr, MatchResult};
ghost use Rattle.mrpc_table.specs.Valid.{IsValid};
ghost use Rattle.mrpc_table.specs.declared.limits.TheConstants.{MAX_LOADS};
ghost use Rattle.script_grammar.specs.declared.fault.ScriptFault.TheVariants.{Memory as OutOfMemory};
ghost use Rattle.replay_script.specs.Changes.{CanApply, IsBodyAfter, final_state};
ghost use Rattle.mrpc_table.specs.Lines.{line_count};
ghost use Rattle.replay_script.specs.Lines.{IsScript};
ghost use Rattle.replay_script.specs.Stopping.{IsScriptStop, stopped};
ghost use Rattle.replay_script.specs.Texts.{HasReached, IsScriptText, IsFaultOfScript};
ghost use Rattle.replay_script.specs.declared.script.Script.{Script as TheScript};

use crate::body::Body;
use crate::change::{Change, first_change, prefix_line, prefix_stored};
use crate::laws::{replay_script_or_fault, word_laws};
use crate::script::{Script, ScriptLines};
use mrpc_table::{Memory, Table, line_count};
use policy_declarations::Declarations;
use script_grammar::{Preamble, ScriptFault, ScriptReason, read_preamble};
use std::alloc::Global;

// The first line of each script, with its line feed.
const FIRST_LINE: &[u8] = b"mrpc-replay 1\n";

// The number of bytes in the shortest line that stores a word, `store 1 1 0` and its line feed. Capacity is reserved
// for as many lines as fit into the text: nearly all lines of a long script store a word. A text of line feeds alone
// gets no more.
const SHORTEST_STORE: usize = 12;

// Why reading the lines of a text ended early.
#[derive(Clone, Copy)]
enum ScriptStop {
    // A line with a fault, counted from 1 where this many bytes of the text remain.
    At {
        left: usize,
        line: u64,
        reason: ScriptReason,
    },
    // Out of memory.
    Memory,
}

/// Parses the script that a text is.
///
/// The format is this project's own (the manual's "Scripts"). A text starts with `mrpc-replay 1`, `loads N` unless the
/// limit of loads is 1024, and `table`. The canonical text of a table follows, then `end`, and lines that declare
/// something or are actions, the last of which is `close`. After the table, empty lines and lines that start with `#`
/// mean nothing. Each line ends with a line feed. Apart from the look-up of policies by their names, the time is linear
/// in the length of the text.
///
/// # Errors
///
/// [`ScriptFault::At`] has the first line with a fault, counted from 1, and its first reason in the order of
/// [`ScriptReason`]. [`ScriptFault::Memory`] means out of memory.
pub fn read_script(alloc: Global, text: &[u8]) -> Result<Script, ScriptFault>
    // The text, each byte of it, is the result's.
    ensures read { IfOk result (IsScriptText text.now) }
    // If the text is a script's, the call returns it, unless it runs out of memory.
    ensures only { (s : TheScript) → IsScriptText text.now s → MatchResult result (λ t. t ≡ s) (λ e. e ≡ OutOfMemory) }
    // A fault is the text's: the first line with a fault, and its first reason.
    ensures fault { IfErr result (IsFaultOfScript text.now) }
    // Properties of each script.
    ensures script { IfOk result IsScript }
{
    replay_script_or_fault();
    read_text(alloc, text)
}

fn read_text(alloc: Global, text: &[u8]) -> Result<Script, ScriptFault>
    ensures { MatchResult result (IsScriptText text.now) (IsFaultOfScript text.now) }
{
    word_laws();
    let Preamble {
        loads,
        table,
        behind,
    } = match read_preamble(alloc, text, FIRST_LINE) {
        Ok(front) => front,
        Err(fault) => return Err(fault),
    };
    match read_lines(alloc, loads, &table, behind) {
        Ok((declared, lines)) => Ok(Script {
            loads,
            table,
            declared,
            lines,
        }),
        Err(ScriptStop::At { left, line, reason }) => Err(fault_at(text, left, line, reason)),
        Err(ScriptStop::Memory) => Err(ScriptFault::Memory),
    }
}

// The fault of a line that is counted from 1 where this many bytes of the text remain.
fn fault_at(text: &[u8], left: usize, line: u64, reason: ScriptReason) -> ScriptFault
    requires within { left ≤ length text.now }
    requires line { line ≤ left + 2 }
    ensures { result ≡ ScriptFault.At (line_count (take (length text.now - left) text.now) + line) reason }
{
    ScriptFault::At {
        line: line_count(&text[..text.len() - left]) as u64 + line,
        reason,
    }
}

// Reads the lines of a text up to its end, with `close` among them.
fn read_lines(
    alloc: Global,
    loads: u64,
    table: &Table,
    text: &[u8],
) -> Result<(Declarations, ScriptLines), ScriptStop>
    requires table { IsValid table.now }
    requires some { 1 ≤ loads }
    requires small { loads ≤ MAX_LOADS }
    ensures { MatchResult result (λ r. HasReached loads table.now text.now (final_state r.0 r.1) [])
        (IsScriptStop loads table.now text.now) }
{
    let mut declared = Declarations::new(alloc);
    let mut body = match Body::with_room(alloc, text.len() / SHORTEST_STORE) {
        Ok(body) => body,
        Err(Memory) => return Err(ScriptStop::Memory),
    };
    let mut rest = text;
    while !rest.is_empty() {
        if let Some((line, behind)) = prefix_stored(loads, &declared, &body, rest) {
            match body.add(alloc, &declared, line) {
                Ok(()) => {}
                Err(Memory) => return Err(ScriptStop::Memory),
            }
            rest = behind;
            continue;
        }
        if let Some((line, behind)) = prefix_line(loads, &declared, &body, rest) {
            match body.add(alloc, &declared, line) {
                Ok(()) => {}
                Err(Memory) => return Err(ScriptStop::Memory),
            }
            rest = behind;
            continue;
        }
        let (change, left) = match first_change(alloc, loads, table, &declared, &body, rest) {
            Ok(change) => change,
            Err(fault) => return Err(stopped(rest, fault)),
        };
        declared = match changed(alloc, declared, &mut body, change) {
            Ok(declared) => declared,
            Err(Memory) => return Err(ScriptStop::Memory),
        };
        rest = left;
    }
    if !body.closed {
        let reason = ScriptReason::Close;
        return Err(stopped(rest, ScriptFault::At { line: 1, reason }));
    }
    Ok((declared, body.lines))
}

// Applies a change to the declarations and the lines so far.
fn changed(
    alloc: Global,
    declared: Declarations,
    body: &mut Body,
    change: Change,
) -> Result<Declarations, Memory>
    requires { CanApply declared body.old change }
    ensures { IfOk result (λ d. IsBodyAfter declared body.old change d body.new) }
{
    match change {
        Change::Nothing => {}
        Change::Close => body.closed = true,
        Change::Line(line) => body.add(alloc, &declared, line)?,
        Change::Item(item) => return declared.with(alloc, item),
    }
    Ok(declared)
}

// The stop for a fault of the remainder.
fn stopped(rest: &[u8], fault: ScriptFault) -> ScriptStop
    ensures { result ≡ stopped rest.now fault }
{
    match fault {
        ScriptFault::At { line, reason } => ScriptStop::At {
            left: rest.len(),
            line,
            reason,
        },
        ScriptFault::Memory => ScriptStop::Memory,
    }
}
