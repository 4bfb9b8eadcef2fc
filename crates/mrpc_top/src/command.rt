//! The commands that run no connections: from the words of a command line and the whole input to the output.

ghost use Rattle.std.specs.Prelude.{◌≡◌, ◌≢◌, ◌↔◌, ◌≤◌, ◌⊎◌, List, ℕ, length, IfSome, IfNone, Some};
ghost use Rattle.mrpc_base.specs.Failures.{HasCause, HasRisen};
ghost use Rattle.mrpc_top.specs.Command.{command_word, IsNamedCommand, IsReplay, IsCommand, IsSuccess, IsRejected, IsFailedReplay, IsCutShort, HasInputFault, HasTextFault, HasWorkedOn, HasRejected, HasStoppedOn};
ghost use Rattle.mrpc_top.specs.Replaying.{HasReplayedText, HasReplayedToFailure, HasStoppedReplay, HasRejectedScript, HasScriptFault};
ghost use Rattle.replay_run.specs.Running.{IsBrokenRun, IsFullRun, IsStoppedRun};
ghost use Rattle.replay_script.specs.Lines.{IsScript};

use crate::discard;
use crate::replay::replay_is_unique;
use mrpc_base::{InputResult, MAX_INPUT, Sink, Source, read_input};
use replay_run::{ReplayError, run_script};
use replay_script::{Script, read_script, replay_script_or_fault};
use script_grammar::ScriptFault;
use std::alloc::Global;
use text_commands::{
    DONE, FAULTY_INPUT, INPUT_FAILED, NO_COMMAND, NO_MEMORY, OUTPUT_FAILED, WIRE_FAILED,
    audit_answer_is_unique, audit_to, check_to, checked_table_is_unique, decode_to,
    decoding_is_unique, write_fault,
};

/// Runs the command that the words name, and returns its exit status.
///
/// `replay` reads a script from `input` and runs it. It writes the audit to `out`, line by line, and the
/// frames to `wire`; last come the lines of the calls that are pending at the end. If the text is no script
/// (see `replay_script`), its first fault is written to `out` as one line `fault LINE REASON`. If a frame can't
/// be written, the calls pending on its connection are refused, it writes the lines of the calls still
/// pending, and the later lines of the script do nothing. If `out` fails after that, the status is
/// `OUTPUT_FAILED`.
///
/// `decode` reads the line `mrpc-decode 1`, the line `table`, the canonical text of a table and the line
/// `end`, and after them frames to the end of the input. For each frame it writes a line to `out`:
/// `frame KIND METHOD CONN NUMBER HEX`, where HEX is the encoding of the message that the payload means (`-`
/// if it is empty), or `hello CONN LENGTH`. A fault of the text is written as one line `fault LINE REASON`. A
/// fault of the frames is written as `fault PLACE REASON` after the lines of the frames before it; PLACE is
/// the offset from the first byte after the `end` line.
///
/// `check` reads a proto file, and writes the canonical text of its table to `out`. If the text is no proto
/// file, or its names and numbers violate a rule of schemas (see `proto_schema` and `schema_validation`), its
/// first fault is written as one line `fault LINE REASON`; reasons of the first kind count before those of
/// the second. For a set of files (see `proto_set`) it writes the table of the first file and of all files
/// that it imports, directly or not (`schema_files`), or one line `fault FILE REASON` or
/// `fault FILE:LINE REASON`.
///
/// `audit` reads a table, tenants and policies, and after the line `audit` the text of an audit (see
/// `audit_check` and `audit_text`). It writes one line to `out`. The line is `legal HAPPENINGS STANDS` if the
/// history is legal and its lines of pending calls, if there are any, list exactly the pending calls.
/// Otherwise it is `illegal LINE RULE`, with the first line of the input that makes it fail and the first
/// rule that is broken there (`audit_check`). If the input isn't valid, its first fault is written as one
/// line `fault LINE REASON`, even if an earlier line is illegal.
///
/// For an input of more than 16777216 bytes each command writes `fault 16777216 Input`, and nothing else. If
/// a command runs out of memory, it ends with `NO_MEMORY`, and its output so far is kept.
pub fn run_still<S: Source, K: Sink, W: Sink>(
    alloc: Global,
    words: &Vec<String>,
    input: &mut S,
    out: &mut K,
    wire: &mut W,
) -> u8
    ensures statuses { result ≤ WIRE_FAILED }

    // Which words are a command. For all others nothing is read or written.
    ensures words { (result ≡ NO_COMMAND) ↔ (IsCommand words.now.items → ⊥) }
    ensures untouched { result ≡ NO_COMMAND → (input.new ≡ input.old) × (out.new ≡ out.old) × (wire.new ≡ wire.old) }

    // What a finished command has done: its input is valid, and its result was written.
    ensures done { (command : Command) → IsNamedCommand words.now.items command → result ≡ DONE → IsSuccess command
        (S.left input.old) (K.written out.old) (K.written out.new) (W.written wire.old) (W.written wire.new) }
    // A faulty input: its first fault was written, and besides it only the lines of the frames before it.
    ensures faulty { (command : Command) → IsNamedCommand words.now.items command → result ≡ FAULTY_INPUT
        → IsRejected command
        (S.left input.old) (S.left input.new) (K.written out.old) (K.written out.new) }
    // No work is done on an input that has a fault.
    ensures refused { (command : Command) (text : List ℕ) → IsNamedCommand words.now.items command
        → S.left input.old ≡ Some text
        → HasInputFault command text → (result ≢ DONE) × (result ≢ WIRE_FAILED) }

    // An input without a fault is worked on, unless a device fails or it runs out of memory.
    ensures complete { (command : Command) (text : List ℕ) → IsNamedCommand words.now.items command
        → S.left input.old ≡ Some text → (HasInputFault command text → ⊥)
        → (HasRisen (S.failures input.old) (S.failures input.new) → ⊥)
        → (HasRisen (K.failures out.old) (K.failures out.new) → ⊥)
        → (HasRisen (W.failures wire.old) (W.failures wire.new) → ⊥) → (result ≡ DONE) ⊎ (result ≡ NO_MEMORY) }

    // Only a replay sends frames, and none for an input that has a fault, whatever else fails.
    ensures unsent { (result ≡ FAULTY_INPUT) ⊎ (IsReplay words.now.items → ⊥) → wire.new ≡ wire.old }
    ensures sound_alone { (text : List ℕ) → IsReplay words.now.items → S.left input.old ≡ Some text
        → HasInputFault Command.Replay text → wire.new ≡ wire.old }

    // If a replay's frame can't be written, the replay is one up to the failed send.
    ensures broken { result ≡ WIRE_FAILED → IsReplay words.now.items × IsFailedReplay (S.left input.old)
        (K.written out.old) (K.written out.new) (W.written wire.old) (W.written wire.new) }
    // If a command ends early, its output is a prefix of what it may write.
    ensures cut_short { (command : Command) → IsNamedCommand words.now.items command
        → (result ≡ NO_MEMORY) ⊎ (result ≡ OUTPUT_FAILED) → IsCutShort command (S.left input.old) (S.left input.new)
        (K.written out.old) (K.written out.new) (W.written wire.old) (W.written wire.new) }

    // Each device's failure has its own status. After a frame that couldn't be written, the output may also
    // fail, or it may run out of memory.
    ensures input_cause { HasCause (result ≡ INPUT_FAILED) (S.failures input.old) (S.failures input.new) }
    ensures out_cause { HasCause (result ≡ OUTPUT_FAILED) (K.failures out.old) (K.failures out.new) }
    ensures wire_rose { result ≡ WIRE_FAILED → HasRisen (W.failures wire.old) (W.failures wire.new) }
    ensures wire_same { result ≡ DONE → W.failures wire.new ≡ W.failures wire.old }
    ensures wire_never_falls { W.failures wire.old ≤ W.failures wire.new }
    ensures unread { result ≡ INPUT_FAILED → (out.new ≡ out.old) × (wire.new ≡ wire.old) }
{
    match command_of(words) {
        Some(command) => match read_input(alloc, input) {
            InputResult::Whole(text) => run(alloc, command, &text, out, wire),
            InputResult::TooLong => write_fault(alloc, MAX_INPUT as u64, b"Input", out),
            InputResult::Failed => INPUT_FAILED,
            InputResult::Memory => NO_MEMORY,
        },
        None => NO_COMMAND,
    }
}

// A command of the program.
#[derive(Clone, Copy)]
enum Command {
    Replay,
    Decode,
    Check,
    Audit,
}

// Runs the command on the text of its input.
fn run<K: Sink, W: Sink>(
    alloc: Global,
    command: Command,
    text: &[u8],
    out: &mut K,
    wire: &mut W,
) -> u8
    requires short { length text.now ≤ MAX_INPUT }
    ensures statuses { result ≤ WIRE_FAILED }
    ensures some { (result ≢ NO_COMMAND) × (result ≢ INPUT_FAILED) }
    ensures done { result ≡ DONE → HasWorkedOn command text.now
        (K.written out.old) (K.written out.new) (W.written wire.old) (W.written wire.new) }
    ensures faulty { result ≡ FAULTY_INPUT → HasRejected command text.now (K.written out.old) (K.written out.new) }
    ensures refused { HasTextFault command text.now → (result ≢ DONE) × (result ≢ WIRE_FAILED) }
    ensures unsent { (result ≡ FAULTY_INPUT) ⊎ (command ≢ Command.Replay) → wire.new ≡ wire.old }
    ensures sound_alone { command ≡ Command.Replay → HasTextFault Command.Replay text.now → wire.new ≡ wire.old }
    ensures broken { result ≡ WIRE_FAILED → (command ≡ Command.Replay) × HasReplayedToFailure text.now
        (K.written out.old) (K.written out.new) (W.written wire.old) (W.written wire.new) }
    ensures cut_short { (result ≡ NO_MEMORY) ⊎ (result ≡ OUTPUT_FAILED) → HasStoppedOn command text.now
        (K.written out.old) (K.written out.new) (W.written wire.old) (W.written wire.new) }
    ensures out_cause { HasCause (result ≡ OUTPUT_FAILED) (K.failures out.old) (K.failures out.new) }
    ensures wire_rose { result ≡ WIRE_FAILED → HasRisen (W.failures wire.old) (W.failures wire.new) }
    ensures wire_same { result ≡ DONE → W.failures wire.new ≡ W.failures wire.old }
    ensures wire_never_falls { W.failures wire.old ≤ W.failures wire.new }
{
    replay_is_unique();
    decoding_is_unique();
    checked_table_is_unique();
    audit_answer_is_unique();
    match command {
        Command::Replay => replay_text(alloc, text, out, wire),
        Command::Decode => decode_to(alloc, text, out),
        Command::Check => check_to(alloc, text, out),
        Command::Audit => audit_to(alloc, text, out),
    }
}

// The command that the words name; `None` if they name none.
fn command_of(words: &[String]) -> Option<Command>
    ensures some { IfSome result (λ command. IsNamedCommand words.now command) }
    ensures none { IfNone result (IsCommand words.now → ⊥) }
{
    match words {
        [word] => command_named(word.as_str()),
        _ => None,
    }
}

fn command_named(word: &str) -> Option<Command>
    ensures some { IfSome result (λ command. word.now ≡ command_word command) }
    ensures none { IfNone result ((command : Command) → word.now ≢ command_word command) }
{
    if word == "replay" {
        Some(Command::Replay)
    } else if word == "decode" {
        Some(Command::Decode)
    } else if word == "check" {
        Some(Command::Check)
    } else if word == "audit" {
        Some(Command::Audit)
    } else {
        None
    }
}

// Reads a script and runs it.
fn replay_text<K: Sink, W: Sink>(alloc: Global, text: &[u8], out: &mut K, wire: &mut W) -> u8
    ensures statuses { result ≤ WIRE_FAILED }
    ensures some { (result ≢ NO_COMMAND) × (result ≢ INPUT_FAILED) }
    ensures done { result ≡ DONE → HasReplayedText text.now
        (K.written out.old) (K.written out.new) (W.written wire.old) (W.written wire.new) }
    ensures faulty { result ≡ FAULTY_INPUT → HasRejectedScript text.now (K.written out.old) (K.written out.new) }
    ensures broken { result ≡ WIRE_FAILED → HasReplayedToFailure text.now
        (K.written out.old) (K.written out.new) (W.written wire.old) (W.written wire.new) }
    ensures cut_short { (result ≡ NO_MEMORY) ⊎ (result ≡ OUTPUT_FAILED) → HasStoppedReplay text.now
        (K.written out.old) (K.written out.new) (W.written wire.old) (W.written wire.new) }
    ensures unsent { (result ≡ FAULTY_INPUT) ⊎ HasScriptFault text.now → wire.new ≡ wire.old }
    ensures out_cause { HasCause (result ≡ OUTPUT_FAILED) (K.failures out.old) (K.failures out.new) }
    ensures wire_rose { result ≡ WIRE_FAILED → HasRisen (W.failures wire.old) (W.failures wire.new) }
    ensures wire_same { result ≡ DONE → W.failures wire.new ≡ W.failures wire.old }
    ensures wire_never_falls { W.failures wire.old ≤ W.failures wire.new }
{
    replay_script_or_fault();
    match read_script(alloc, text) {
        Ok(script) => {
            let status = replay(alloc, &script, out, wire);
            discard(script);
            status
        }
        Err(ScriptFault::At { line, reason }) => {
            write_fault(alloc, line, reason.word().as_bytes(), out)
        }
        Err(ScriptFault::Memory) => NO_MEMORY,
    }
}

// Runs a script.
fn replay<K: Sink, W: Sink>(alloc: Global, script: &Script, out: &mut K, wire: &mut W) -> u8
    requires script { IsScript script.now }
    ensures statuses { result ≤ WIRE_FAILED }
    ensures some { (result ≢ NO_COMMAND) × (result ≢ INPUT_FAILED) }
    ensures sound { result ≢ FAULTY_INPUT }
    ensures done { result ≡ DONE → IsFullRun script.now (K.written out.old) (K.written out.new)
        (W.written wire.old) (W.written wire.new) }
    ensures broken { result ≡ WIRE_FAILED → IsBrokenRun script.now (K.written out.old) (K.written out.new)
        (W.written wire.old) (W.written wire.new) }
    ensures stopped { (result ≡ NO_MEMORY) ⊎ (result ≡ OUTPUT_FAILED) → IsStoppedRun script.now
        (K.written out.old) (K.written out.new) (W.written wire.old) (W.written wire.new) }
    ensures out_cause { HasCause (result ≡ OUTPUT_FAILED) (K.failures out.old) (K.failures out.new) }
    ensures wire_rose { result ≡ WIRE_FAILED → HasRisen (W.failures wire.old) (W.failures wire.new) }
    ensures wire_same { result ≡ DONE → W.failures wire.new ≡ W.failures wire.old }
    ensures wire_never_falls { W.failures wire.old ≤ W.failures wire.new }
{
    match run_script(alloc, script, out, wire) {
        Ok(()) => DONE,
        Err(ReplayError::Memory) => NO_MEMORY,
        Err(ReplayError::Out) => OUTPUT_FAILED,
        Err(ReplayError::Wire) => WIRE_FAILED,
    }
}
