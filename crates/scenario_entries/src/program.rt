//! Programs of applications.

ghost use Rattle.std.specs.Prelude.{◌≡◌, ◌≤◌, IfOk, MatchResult, Some, length, map};
ghost use Rattle.scenario.specs.Applications.{role_submits};
ghost use Rattle.scenario.specs.Lines.{is_submit_form, submit_line_count};
ghost use Rattle.scenario_lines.specs.Lines.{line_form_of};
ghost use Rattle.scenario_lines.specs.Programs.{IsProgramFault, IsProgramMeaning};
ghost use Rattle.scenario_lines.specs.Reasons.{IsFirstLineReason};
ghost use Rattle.scenario_lines.specs.declared.form.ProgramRole.TheVariants as of;

use app_program::Program;
use mrpc_table::{Memory, is_word, split_once};
use scenario::RoleWord;
use scenario_lines::{LineReason, ProgramReader, ProgramRole};
use std::alloc::Global;

/// The program of the lines for a role and a heap with this many words, or the first reason of their faults.
pub fn read_program(
    alloc: Global,
    role: ProgramRole,
    heap: u32,
    lines: &[&[u8]],
) -> Result<Result<Program, LineReason>, Memory>
    ensures { IfOk result (λ r. MatchResult r (IsProgramMeaning role heap (map (λ t. t.now) lines.now))
        (IsFirstLineReason (IsProgramFault role heap (map (λ t. t.now) lines.now)))) }
{
    let mut reader = ProgramReader::new(alloc, role, heap);
    for line in lines {
        reader.read(line)?;
    }
    Ok(reader.finish())
}

// Whether a line of a client has the form of a submission.
fn is_submission(line: &[u8]) -> bool
    ensures { result ≡ is_submit_form (line_form_of of.Client line.now) }
{
    match split_once(line, b' ') {
        Some((word, _)) => is_word(word, b"submit"),
        None => is_word(line, b"submit"),
    }
}

// The number of a client's lines that have the form of a submission.
fn submissions_in(lines: &[&[u8]]) -> u64
    ensures count { result ≡ submit_line_count (map (λ t. t.now) lines.now) }
    ensures few { result ≤ length lines.now }
{
    let mut count = 0;
    for line in lines {
        if is_submission(line) {
            count += 1;
        }
    }
    count
}

/// The number of calls that an application's lines submit.
pub fn submissions(role: RoleWord, lines: &[&[u8]]) -> u64
    ensures count { result ≡ role_submits (Some role) (map (λ t. t.now) lines.now) }
    ensures few { result ≤ length lines.now }
{
    match role {
        RoleWord::Client => submissions_in(lines),
        RoleWord::Server | RoleWord::Echo => 0,
    }
}
