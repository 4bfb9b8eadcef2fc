//! A reader of a program, line by line.

ghost use Rattle.std.specs.Prelude.{◌≡◌, ◌≤◌, ◌++◌, ◌∷◌, ℕ, List, [], MatchResult, OnErr, OnOk};
ghost use Rattle.scenario_lines.specs.Programs.{IsProgramFault, IsProgramMeaning, is_reply, most_stores};
ghost use Rattle.scenario_lines.specs.declared.form.ProgramRole.{ProgramRole as TheRole};
ghost use Rattle.scenario_lines.specs.Reasons.{IsFirstLineReason};
ghost use Rattle.scenario_lines.specs.Reading.{HasRead};
ghost use Rattle.scenario_lines.specs.LineReading.{HasTakenLine, added_stores, earlier_line_reason, first_reason, is_too_long, kept, lacks_reply, store_count, with_reply_noted, line_reason_if};

use crate::form::ProgramRole;
use crate::program_line::read_line;
use crate::reason::LineReason;
use app_program::{MAX_LINES, MAX_REQUEST_STORES, MAX_STORES, Program, ProgramLine};
use mrpc_table::{Memory, is_word};
use script_grammar::{first_word, meanings_or_reason};
use std::alloc::Global;

/// The state of reading a program: the lines without a fault, and the first reason of the others.
#[derive(Drop)]
pub struct ProgramReader {
    role: ProgramRole,
    // The size of the application's heap in words.
    heap: u32,
    lines: Program,
    first: Option<LineReason>,
    // How often the lines store. Once it exceeds the limit, it is no longer counted.
    stores: u64,
    // Whether a line has the form of a reply.
    replied: bool,
    // Whether the last line has it, and no other.
    ends: bool,
}

// Whether a line has the form of a reply.
fn is_reply(line: &[u8]) -> bool
    ensures { result ≡ is_reply line.now }
{
    let (word, _) = first_word(line);
    is_word(word, b"reply")
}

// How often a line stores.
fn store_count(line: ProgramLine) -> u64
    ensures stores { result ≡ store_count line }
    ensures few { result ≤ 8589934590 }
{
    match line {
        ProgramLine::Store { .. } => 1,
        ProgramLine::Spin { times, .. } => 2 * u64::from(times),
        _ => 0,
    }
}

// The number of stores, plus those of a line. Saturates once it exceeds the limit of programs.
fn added_stores(stores: u64, line: ProgramLine) -> u64
    ensures { result ≡ added_stores stores line }
{
    if stores > MAX_STORES {
        stores
    } else {
        stores + store_count(line)
    }
}

// The first of two reasons.
fn earlier_line_reason(one: Option<LineReason>, other: Option<LineReason>) -> Option<LineReason>
    ensures { result ≡ earlier_line_reason one other }
{
    match (one, other) {
        (Some(one), Some(other)) => Some(if one.order() <= other.order() {
            one
        } else {
            other
        }),
        (Some(one), None) => Some(one),
        (None, other) => other,
    }
}

impl ProgramReader {
    /// A reader that hasn't read a line of a program yet, for a role and a heap size in words. Doesn't allocate.
    pub fn new(alloc: Global, role: ProgramRole, heap: u32) -> ProgramReader
        ensures { HasRead role heap [] result }
    {
        ProgramReader {
            role,
            heap,
            lines: Program::new(alloc),
            first: None,
            stores: 0,
            replied: false,
            ends: false,
        }
    }

    // Keeps what a line means.
    fn keep(&mut self, said: ProgramLine) -> Result<(), Memory>
        ensures kept { OnOk result (self.new ≡ kept self.old said) }
        ensures refused { OnErr result (self.new ≡ self.old) }
    {
        self.lines.push(said)?;
        self.stores = added_stores(self.stores, said);
        Ok(())
    }

    // Keeps what a line means, or the first reason of its faults.
    fn take(&mut self, line: &[u8]) -> Result<(), Memory>
        ensures taken { OnOk result (HasTakenLine self.old line.now self.new) }
        ensures refused { OnErr result (self.new ≡ self.old) }
    {
        match read_line(self.role, self.heap, line) {
            Ok(said) => self.keep(said),
            Err(reason) => {
                self.first = earlier_line_reason(self.first, Some(reason));
                Ok(())
            }
        }
    }

    // Notes whether one more line has the form of a reply.
    fn note_reply(&mut self, replies: bool)
        ensures { self.new ≡ with_reply_noted self.old replies }
    {
        self.ends = !self.replied && replies;
        self.replied = self.replied || replies;
    }

    /// Reads one more line.
    ///
    /// # Errors
    ///
    /// `Memory`: the line wasn't read, and the reader is unchanged.
    pub fn read(&mut self, line: &[u8]) -> Result<(), Memory>
        ensures read { OnOk result ((role : TheRole) (heap : ℕ) (lines : List (List ℕ)) → HasRead role heap lines self.old
            → HasRead role heap (lines ++ line.now ∷ []) self.new) }
        ensures refused { OnErr result (self.new ≡ self.old) }
    {
        meanings_or_reason();
        match self.take(line) {
            Ok(_) => {
                self.note_reply(is_reply(line));
                Ok(())
            }
            Err(memory) => Err(memory),
        }
    }

    // Whether the lines store too often, or are too many.
    fn is_too_long(&self) -> bool
        ensures { result ≡ is_too_long self.now }
    {
        self.stores > self.role.most_stores() || self.lines.len() as u64 > MAX_LINES
    }

    // Whether the lines are a server's, and their last one isn't their only reply.
    fn lacks_reply(&self) -> bool
        ensures { result ≡ lacks_reply self.now.role self.now.ends }
    {
        match self.role {
            ProgramRole::Client => false,
            ProgramRole::Server => !self.ends,
        }
    }

    // The first reason of all faults of the lines.
    fn first_reason(&self) -> Option<LineReason>
        ensures { result ≡ first_reason self.now }
    {
        let counted = earlier_line_reason(
            self.first,
            line_reason_if(self.is_too_long(), LineReason::Number),
        );
        earlier_line_reason(
            counted,
            line_reason_if(self.lacks_reply(), LineReason::Word),
        )
    }

    /// The program of the lines, or the first reason of their faults.
    pub fn finish(self) -> Result<Program, LineReason>
        ensures { (role : TheRole) (heap : ℕ) (lines : List (List ℕ)) → HasRead role heap lines self
            → MatchResult result (IsProgramMeaning role heap lines) (IsFirstLineReason (IsProgramFault role heap lines)) }
    {
        meanings_or_reason();
        match self.first_reason() {
            None => Ok(self.lines),
            Some(reason) => Err(reason),
        }
    }
}

// The reason, if it holds.
fn line_reason_if(holds: bool, reason: LineReason) -> Option<LineReason>
    ensures { result ≡ line_reason_if holds reason }
{
    if holds { Some(reason) } else { None }
}

impl ProgramRole {
    // The maximum number of stores of its program.
    fn most_stores(self) -> u64
        ensures { result ≡ most_stores self }
    {
        match self {
            ProgramRole::Client => MAX_STORES,
            ProgramRole::Server => MAX_REQUEST_STORES,
        }
    }
}
