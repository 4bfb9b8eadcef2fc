//! The top call: from the words of a command line to their effects.

ghost use Rattle.std.specs.Prelude.{◌≡◌, ◌≢◌, ◌↔◌, ◌⊎◌, ◌≤◌, List, ℕ, Some, true, false};
ghost use Rattle.mrpc_base.specs.Failures.{HasCause, HasRisen};
ghost use Rattle.mrpc_top.specs.Command.{HasInputFault, IsFailedReplay, IsCommand, IsCutShort, IsSuccess, IsRejected, IsReplay, IsNamedCommand};
ghost use Rattle.mrpc_top.specs.Runs.{HasPlan, HasRunFault, IsRunCommand, IsNamedRun, HasStoppedRun, HasWrittenFault, HasWrittenReport};
ghost use Rattle.mrpc_top.specs.declared.command.Command.{Command};
ghost use Rattle.mrpc_top.specs.declared.command.Command.TheVariants.{Replay};
ghost use Rattle.mrpc_top.specs.declared.run.RunTarget.{RunTarget};
ghost use Rattle.mrpc_top.specs.declared.run.RunTarget.TheVariants.{Drill};

use crate::command::run_still;
use crate::run::{FABRIC_FAILED, LINK_FAILED, run_named, run_target_of};
use mrpc_base::{Clock, Fabric, Gate, Sink, Source};
use std::alloc::Global;
use std::sync::Wait;
use std::thread::Threads;
use text_commands::{
    DONE, FAULTY_INPUT, INPUT_FAILED, NO_COMMAND, NO_MEMORY, OUTPUT_FAILED, WIRE_FAILED,
};

/// Runs the command that the words name, and returns its exit status.
///
/// `run` reads a scenario from `input` and runs it over links of `fabric`. `drill N` runs the drill in which
/// each of four clients submits N calls, 1 to 2048, and reads nothing. Other words are those of
/// [`run_still`].
pub fn run_command<
    R: Threads + Wait + Sync,
    S: Source,
    K: Sink,
    W: Sink,
    F: Fabric,
    C: Clock,
    G: Gate,
>(
    rt: &R,
    alloc: Global,
    words: &Vec<String>,
    input: &mut S,
    out: &mut K,
    wire: &mut W,
    fabric: &mut F,
    clock: &C,
    gate: &G,
) -> u8
    ensures statuses { result ≤ FABRIC_FAILED }

    // Which words are a command. For all others nothing is read or written.
    ensures words { (result ≡ NO_COMMAND) ↔ ((IsCommand words.now.items ⊎ IsRunCommand words.now.items) → ⊥) }
    ensures untouched { result ≡ NO_COMMAND → (input.new ≡ input.old) × (out.new ≡ out.old) × (wire.new ≡ wire.old) }

    // A command that runs no connections: its input is valid or has a fault, and its result was written.
    ensures done { (command : Command) → IsNamedCommand words.now.items command → result ≡ DONE → IsSuccess command
        (S.left input.old) (K.written out.old) (K.written out.new) (W.written wire.old) (W.written wire.new) }
    ensures faulty { (command : Command) → IsNamedCommand words.now.items command → result ≡ FAULTY_INPUT
        → IsRejected command
        (S.left input.old) (S.left input.new) (K.written out.old) (K.written out.new) }
    ensures refused { (command : Command) (text : List ℕ) → IsNamedCommand words.now.items command
        → S.left input.old ≡ Some text
        → HasInputFault command text → (result ≢ DONE) × (result ≢ WIRE_FAILED) }

    // An input of such a command without a fault is worked on, unless a device fails or it runs out of
    // memory.
    ensures complete { (command : Command) (text : List ℕ) → IsNamedCommand words.now.items command
        → S.left input.old ≡ Some text → (HasInputFault command text → ⊥)
        → (HasRisen (S.failures input.old) (S.failures input.new) → ⊥)
        → (HasRisen (K.failures out.old) (K.failures out.new) → ⊥)
        → (HasRisen (W.failures wire.old) (W.failures wire.new) → ⊥) → (result ≡ DONE) ⊎ (result ≡ NO_MEMORY) }

    // Only a replay sends frames on the wire, and none for an input that has a fault.
    ensures unsent { (result ≡ FAULTY_INPUT) ⊎ (IsReplay words.now.items → ⊥) → wire.new ≡ wire.old }
    ensures sound_alone { (text : List ℕ) → IsReplay words.now.items → S.left input.old ≡ Some text
        → HasInputFault Replay text → wire.new ≡ wire.old }
    ensures broken { IsCommand words.now.items → result ≡ WIRE_FAILED → IsReplay words.now.items × IsFailedReplay
        (S.left input.old) (K.written out.old) (K.written out.new) (W.written wire.old) (W.written wire.new) }

    // If a command ends early, because it is out of memory or the output failed, its output is a prefix of
    // what it may write.
    ensures cut_short { (command : Command) → IsNamedCommand words.now.items command
        → (result ≡ NO_MEMORY) ⊎ (result ≡ OUTPUT_FAILED) → IsCutShort command (S.left input.old) (S.left input.new)
        (K.written out.old) (K.written out.new) (W.written wire.old) (W.written wire.new) }

    // The run did what a run does, and wrote its report: at `DONE` no link failed, at `LINK_FAILED` one did.
    ensures ran { (running : RunTarget) → IsNamedRun words.now.items running → result ≡ DONE
        → HasWrittenReport C.Clock F.L.Link
        F.pair clock.now (F.back fabric.old) (F.back fabric.new) false running (S.left input.old)
        (K.written out.old) (K.written out.new) }
    ensures ran_on { (running : RunTarget) → IsNamedRun words.now.items running → result ≡ LINK_FAILED
        → HasWrittenReport C.Clock
        F.L.Link F.pair clock.now (F.back fabric.old) (F.back fabric.new) true running (S.left input.old)
        (K.written out.old) (K.written out.new) }
    // An input that has a fault isn't run, and only its first fault is written.
    ensures not_run { (running : RunTarget) → IsNamedRun words.now.items running → result ≡ FAULTY_INPUT
        → HasWrittenFault running (S.left input.old) (S.left input.new) (K.written out.old) (K.written out.new) }
    ensures never_run { (running : RunTarget) (text : List ℕ) → IsNamedRun words.now.items running
        → S.left input.old ≡ Some text → HasRunFault running text
        → (result ≢ DONE) × (result ≢ LINK_FAILED) × (result ≢ FABRIC_FAILED) × (fabric.new ≡ fabric.old) }
    // If a run ends early, its output is a prefix of what it may write.
    ensures stopped { (running : RunTarget) → IsNamedRun words.now.items running
        → (result ≡ NO_MEMORY) ⊎ (result ≡ OUTPUT_FAILED) → HasStoppedRun C.Clock F.L.Link F.pair clock.now
        (F.back fabric.old) (F.back fabric.new) running (S.left input.old) (S.left input.new)
        (K.written out.old) (K.written out.new) }
    // If a link couldn't be opened, nothing is written.
    ensures unopened { (running : RunTarget) → IsNamedRun words.now.items running → result ≡ FABRIC_FAILED
        → HasPlan running (S.left input.old) × (out.new ≡ out.old) }
    ensures drilled { (calls : ℕ) → IsNamedRun words.now.items (Drill calls) → input.new ≡ input.old }

    // Only a run touches the fabric, and only if its input has no fault. A run that ended returned all links
    // that it opened.
    ensures unrun { ((result ≡ FAULTY_INPUT) ⊎ (result ≡ INPUT_FAILED)) ⊎ (IsRunCommand words.now.items → ⊥)
        → fabric.new ≡ fabric.old }
    ensures away { (result ≡ DONE) ⊎ (result ≡ LINK_FAILED) → F.away fabric.new ≡ F.away fabric.old }

    // Each device's failure has its own status.
    ensures input_cause { HasCause (result ≡ INPUT_FAILED) (S.failures input.old) (S.failures input.new) }
    ensures out_cause { HasCause (result ≡ OUTPUT_FAILED) (K.failures out.old) (K.failures out.new) }
    ensures wire_rose { IsCommand words.now.items → result ≡ WIRE_FAILED
        → HasRisen (W.failures wire.old) (W.failures wire.new) }
    ensures wire_same { result ≡ DONE → W.failures wire.new ≡ W.failures wire.old }
    ensures wire_never_falls { W.failures wire.old ≤ W.failures wire.new }
    ensures fabric_cause { HasCause (result ≡ FABRIC_FAILED) (F.failures fabric.old) (F.failures fabric.new) }
    ensures unread { result ≡ INPUT_FAILED → (out.new ≡ out.old) × (wire.new ≡ wire.old) }
{
    match run_target_of(words) {
        Some(running) => run_named(rt, alloc, running, input, out, fabric, clock, gate),
        None => run_still(alloc, words, input, out, wire),
    }
}
