//! The lines of a policy between its first line and its `end`.

ghost use Rattle.std.specs.Prelude.{◌≡◌, ◌+◌, ◌≤◌, length, is_some, IfOk};
ghost use Rattle.std.specs.Str.{bytes_eq};
ghost use Rattle.mrpc_table.specs.Lines.{whole_lines};
ghost use Rattle.policy_declarations.specs.Blocks.{end_line, is_skipped, is_kept, kept_lines, line_number};
ghost use Rattle.policy_declarations.specs.Reading.{inner_lines, IsRemainder, declaration_fault};

use mrpc_table::{Bytes, Lines, Memory, RuleFault, line_count, split_once};
use script_grammar::{ScriptFault, ScriptReason};
use std::alloc::Global;

// The line that ends a policy.
const END: &[u8] = b"end";

// The lines that define a policy, and the remainder after its `end`; `None` if it has no `end`.
#[derive(Drop)]
pub(crate) struct PolicyBlock<'a> {
    pub lines: Lines,
    pub rest: Option<&'a [u8]>,
}

/// Returns true if a line is empty or starts with `#`.
pub fn is_skipped(line: &[u8]) -> bool
    ensures { result ≡ is_skipped line.now }
{
    matches!(line, [] | [b'#', ..])
}

// Returns true for the line that ends a policy.
fn is_end(line: &[u8]) -> bool
    ensures { result ≡ bytes_eq line.now end_line }
{
    line == END
}

// Returns true if the line is one of the policy's own: all lines are, or all but those that `is_skipped` accepts.
fn is_kept(skips: bool, line: &[u8]) -> bool
    ensures { result ≡ is_kept skips line.now }
{
    !(skips && is_skipped(line))
}

// Reads the lines of a text before its first line `end`, or all lines. If `skips` is true, it leaves out empty lines
// and lines that start with `#`.
pub(crate) fn read_block<'a>(
    alloc: Global,
    text: &'a [u8],
    skips: bool,
) -> Result<PolicyBlock<'a>, Memory>
    ensures lines { IfOk result (λ b. b.lines ≡ kept_lines skips (inner_lines text.now)) }
    ensures rest { IfOk result (λ b. IsRemainder text.now b.rest) }
{
    let mut lines = Lines::new(alloc);
    let mut rest = text;
    while let Some((line, behind)) = split_once(rest, b'\n') {
        if is_end(line) {
            return Ok(PolicyBlock {
                lines,
                rest: Some(behind),
            });
        }
        if is_kept(skips, line) {
            lines.push(Bytes::from_slice(alloc, line)?)?;
        }
        rest = behind;
    }
    Ok(PolicyBlock { lines, rest: None })
}

// Maps the number of a kept line to its number among all lines of the block, both counted from 1.
fn line_number(text: &[u8], skips: bool, number: u64) -> u64
    ensures line { result ≡ line_number skips (inner_lines text.now) number }
    ensures small { result ≤ length text.now + 1 }
{
    let mut rest = text;
    let mut line = 1;
    let mut left = number;
    while let Some((one, behind)) = split_once(rest, b'\n') {
        if is_end(one) {
            return line;
        }
        if is_kept(skips, one) {
            if left == 1 {
                return line;
            }
            left = left.saturating_sub(1);
        }
        line += 1;
        rest = behind;
    }
    line
}

// The fault of a declaration, from the fault of its policy's lines. `text` is the remainder after its first line.
pub(crate) fn declaration_fault(
    block: &PolicyBlock<'_>,
    text: &[u8],
    skips: bool,
    fault: RuleFault,
) -> ScriptFault
    requires lines { block.now.lines ≡ kept_lines skips (inner_lines text.now) }
    requires rest { IsRemainder text.now block.now.rest }
    ensures { result ≡ declaration_fault skips (inner_lines text.now) (is_some block.now.rest) fault }
{
    match fault {
        RuleFault::Memory => ScriptFault::Memory,
        RuleFault::At { line, reason } => {
            if block.rest.is_some() || line <= block.lines.len() as u64 {
                ScriptFault::At {
                    line: 1 + line_number(text, skips, line),
                    reason: ScriptReason::of_rule(reason),
                }
            } else {
                missing_end_fault(text)
            }
        }
    }
}

// The fault of a declaration that lacks its `end`. `text` is the remainder after its first line.
pub(crate) fn missing_end_fault(text: &[u8]) -> ScriptFault
    ensures { result ≡ ScriptFault.At (length (whole_lines text.now) + 2) ScriptReason.Word }
{
    ScriptFault::At {
        line: line_count(text) as u64 + 2,
        reason: ScriptReason::Word,
    }
}
