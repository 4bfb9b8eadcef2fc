//! `run` and `drill`: plans that run over the links of a fabric.

ghost use Rattle.std.specs.Prelude.{◌≡◌, ◌≢◌, ◌⊎◌, ◌≤◌, ◌++◌, ◌∷◌, List, ℕ, Option, Some, true, false, codes, decimal, IfOk, IfSome, IfNone, IsTrue, OnOk};
ghost use Rattle.std.specs.List.{concat};
ghost use Rattle.std.specs.Io.KnownBytes.{Appends};
ghost use Rattle.mrpc_base.specs.Failures.{HasCause};
ghost use Rattle.run_plan.specs.Plans.{IsPlan};
ghost use Rattle.run_plan.specs.declared.plan.Plan.{Plan as ThePlan};
ghost use Rattle.scenario.specs.Scenarios.{HasFault, IsTextOf};
ghost use Rattle.scenario.specs.declared.fault.FaultyEntry.{FaultyEntry};
ghost use Rattle.scenario.specs.declared.fault.ScenarioReason.{ScenarioReason};
ghost use Rattle.telemetry.specs.Totals.{IsTotals, sums_of};
ghost use Rattle.mrpc_base.specs.WholeInput.{IsInput};
ghost use Rattle.text_commands.specs.FaultLines.{HasWrittenPrefix};
ghost use Rattle.mrpc_top.specs.Runs.{HasPlan, HasRunFault, IsCallCount, IsNamedRun, HasStoppedRun, HasWrittenFault, HasWrittenReport, drill_line};
ghost use Rattle.mrpc_top.specs.RunPlans.{IsPlanOf, HasWrittenLine, HasWrittenLinePrefix};

use crate::discard;
use drill::{MAX_CALLS, drill_plan, drills_add_up, drills_are_bound};
use mrpc_base::{Clock, Fabric, Gate, InputResult, MAX_INPUT, Sink, Source, read_input, write_all};
use mrpc_table::{Bytes, Decimal, Memory, number_of};
use run_driver::{RunCounts, RunReport, count_plan, serve_plan};
use run_plan::Plan;
use scenario::ScenarioFault;
use scenario_laws::{parsed_plan_is_valid, scenario_is_unique};
use scenario_reader::read_scenario;
use service::ServeFault;
use std::alloc::Global;
use std::sync::Wait;
use std::thread::Threads;
use telemetry::{Totals, totals_are_counts};
use text_commands::{
    DONE, FAULTY_INPUT, INPUT_FAILED, NO_COMMAND, NO_MEMORY, OUTPUT_FAILED, WIRE_FAILED,
    write_fault,
};

/// A link failed during the run.
pub const LINK_FAILED: u8 = WIRE_FAILED;

/// The fabric failed to open a link.
pub const FABRIC_FAILED: u8 = 7;

// What to run.
#[derive(Clone, Copy)]
pub(crate) enum RunTarget {
    // The scenario of the input.
    Scenario,
    // The drill, with this number of calls of each client.
    Drill(u64),
}

// What the words name to run; `None` if they name neither a run nor a drill.
pub(crate) fn run_target_of(words: &[String]) -> Option<RunTarget>
    ensures some { IfSome result (λ running. IsNamedRun words.now running) }
    ensures none { IfNone result ((running : RunTarget) → IsNamedRun words.now running → ⊥) }
{
    match words {
        [word] => scenario_of(word.as_str()),
        [word, number] => drill_of(word.as_str(), number.as_str()),
        _ => None,
    }
}

fn scenario_of(word: &str) -> Option<RunTarget>
    ensures some { IfSome result (λ running. (running ≡ RunTarget.Scenario) × (word.now ≡ codes "run")) }
    ensures none { IfNone result (word.now ≢ codes "run") }
{
    if word == "run" {
        return Some(RunTarget::Scenario);
    }
    None
}

fn drill_of(word: &str, number: &str) -> Option<RunTarget>
    ensures some { IfSome result (λ running. (calls : ℕ) × (running ≡ RunTarget.Drill calls)
        × (word.now ≡ codes "drill") × IsCallCount number.now calls) }
    ensures none { IfNone result ((calls : ℕ) → word.now ≡ codes "drill" → IsCallCount number.now calls → ⊥) }
{
    if word != "drill" {
        return None;
    }
    match calls_of(number) {
        Some(calls) => Some(RunTarget::Drill(calls)),
        None => None,
    }
}

// The number of calls that a word spells.
fn calls_of(number: &str) -> Option<u64>
    ensures some { IfSome result (λ calls. IsCallCount number.now calls) }
    ensures none { IfNone result ((calls : ℕ) → IsCallCount number.now calls → ⊥) }
{
    match number_of(number.as_bytes()) {
        Some(Decimal::Small(calls)) => {
            if calls == 0 || calls > MAX_CALLS {
                return None;
            }
            Some(calls)
        }
        _ => None,
    }
}

// Runs what is named, and returns the status.
pub(crate) fn run_named<R: Threads + Wait + Sync, S: Source, K: Sink, F: Fabric, C: Clock, G: Gate>(
    rt: &R,
    alloc: Global,
    running: RunTarget,
    input: &mut S,
    out: &mut K,
    fabric: &mut F,
    clock: &C,
    gate: &G,
) -> u8
    requires few { (calls : ℕ) → running ≡ RunTarget.Drill calls → calls ≤ MAX_CALLS }
    ensures statuses { result ≤ FABRIC_FAILED }
    ensures some { result ≢ NO_COMMAND }
    ensures done { result ≡ DONE → HasWrittenReport C.Clock F.L.Link F.pair clock.now (F.back fabric.old)
        (F.back fabric.new)
        false running (S.left input.old) (K.written out.old) (K.written out.new) }
    ensures link { result ≡ LINK_FAILED → HasWrittenReport C.Clock F.L.Link F.pair clock.now (F.back fabric.old)
        (F.back fabric.new) true running (S.left input.old) (K.written out.old) (K.written out.new) }
    ensures faulty { result ≡ FAULTY_INPUT → HasWrittenFault running (S.left input.old) (S.left input.new)
        (K.written out.old) (K.written out.new) }
    ensures refused { (text : List ℕ) → S.left input.old ≡ Some text → HasRunFault running text
        → (result ≢ DONE) × (result ≢ LINK_FAILED) × (result ≢ FABRIC_FAILED) × (fabric.new ≡ fabric.old) }
    ensures cut_short { (result ≡ NO_MEMORY) ⊎ (result ≡ OUTPUT_FAILED)
        → HasStoppedRun C.Clock F.L.Link F.pair clock.now
        (F.back fabric.old) (F.back fabric.new) running (S.left input.old) (S.left input.new)
        (K.written out.old) (K.written out.new) }
    ensures unopened { result ≡ FABRIC_FAILED → HasPlan running (S.left input.old) × (out.new ≡ out.old) }
    ensures unread { result ≡ INPUT_FAILED → out.new ≡ out.old }
    ensures unrun { (result ≡ FAULTY_INPUT) ⊎ (result ≡ INPUT_FAILED) → fabric.new ≡ fabric.old }
    ensures away { (result ≡ DONE) ⊎ (result ≡ LINK_FAILED) → F.away fabric.new ≡ F.away fabric.old }
    ensures drilled { (calls : ℕ) → running ≡ RunTarget.Drill calls → input.new ≡ input.old }
    ensures input_cause { HasCause (result ≡ INPUT_FAILED) (S.failures input.old) (S.failures input.new) }
    ensures out_cause { HasCause (result ≡ OUTPUT_FAILED) (K.failures out.old) (K.failures out.new) }
    ensures fabric_cause { HasCause (result ≡ FABRIC_FAILED) (F.failures fabric.old) (F.failures fabric.new) }
{
    match running {
        RunTarget::Scenario => run_input(rt, alloc, input, out, fabric, clock, gate),
        RunTarget::Drill(calls) => run_drill(rt, alloc, calls, out, fabric, clock, gate),
    }
}

// Runs the scenario of an input.
fn run_input<R: Threads + Wait + Sync, S: Source, K: Sink, F: Fabric, C: Clock, G: Gate>(
    rt: &R,
    alloc: Global,
    input: &mut S,
    out: &mut K,
    fabric: &mut F,
    clock: &C,
    gate: &G,
) -> u8
    ensures statuses { result ≤ FABRIC_FAILED }
    ensures some { result ≢ NO_COMMAND }
    ensures done { result ≡ DONE → HasWrittenReport C.Clock F.L.Link F.pair clock.now (F.back fabric.old)
        (F.back fabric.new)
        false RunTarget.Scenario (S.left input.old) (K.written out.old) (K.written out.new) }
    ensures link { result ≡ LINK_FAILED → HasWrittenReport C.Clock F.L.Link F.pair clock.now (F.back fabric.old)
        (F.back fabric.new) true RunTarget.Scenario (S.left input.old) (K.written out.old) (K.written out.new) }
    ensures faulty { result ≡ FAULTY_INPUT → HasWrittenFault RunTarget.Scenario (S.left input.old) (S.left input.new)
        (K.written out.old) (K.written out.new) }
    ensures refused { (text : List ℕ) → S.left input.old ≡ Some text → HasRunFault RunTarget.Scenario text
        → (result ≢ DONE) × (result ≢ LINK_FAILED) × (result ≢ FABRIC_FAILED) × (fabric.new ≡ fabric.old) }
    ensures cut_short { (result ≡ NO_MEMORY) ⊎ (result ≡ OUTPUT_FAILED)
        → HasStoppedRun C.Clock F.L.Link F.pair clock.now
        (F.back fabric.old) (F.back fabric.new) RunTarget.Scenario (S.left input.old) (S.left input.new)
        (K.written out.old) (K.written out.new) }
    ensures unopened { result ≡ FABRIC_FAILED → HasPlan RunTarget.Scenario (S.left input.old) × (out.new ≡ out.old) }
    ensures unread { result ≡ INPUT_FAILED → out.new ≡ out.old }
    ensures unrun { (result ≡ FAULTY_INPUT) ⊎ (result ≡ INPUT_FAILED) → fabric.new ≡ fabric.old }
    ensures away { (result ≡ DONE) ⊎ (result ≡ LINK_FAILED) → F.away fabric.new ≡ F.away fabric.old }
    ensures input_cause { HasCause (result ≡ INPUT_FAILED) (S.failures input.old) (S.failures input.new) }
    ensures out_cause { HasCause (result ≡ OUTPUT_FAILED) (K.failures out.old) (K.failures out.new) }
    ensures fabric_cause { HasCause (result ≡ FABRIC_FAILED) (F.failures fabric.old) (F.failures fabric.new) }
{
    match read_input(alloc, input) {
        InputResult::Whole(text) => run_scenario(rt, alloc, &text, out, fabric, clock, gate),
        InputResult::TooLong => write_fault(alloc, MAX_INPUT as u64, b"Input", out),
        InputResult::Failed => INPUT_FAILED,
        InputResult::Memory => NO_MEMORY,
    }
}

// Runs the scenario of a text.
fn run_scenario<R: Threads + Wait + Sync, K: Sink, F: Fabric, C: Clock, G: Gate>(
    rt: &R,
    alloc: Global,
    text: &[u8],
    out: &mut K,
    fabric: &mut F,
    clock: &C,
    gate: &G,
) -> u8
    ensures statuses { result ≤ FABRIC_FAILED }
    ensures some { (result ≢ NO_COMMAND) × (result ≢ INPUT_FAILED) }
    ensures done { (left : Option (List ℕ)) → IsInput left text.now → result ≡ DONE
        → HasWrittenReport C.Clock F.L.Link F.pair
        clock.now (F.back fabric.old) (F.back fabric.new) false RunTarget.Scenario left
        (K.written out.old) (K.written out.new) }
    ensures link { (left : Option (List ℕ)) → IsInput left text.now → result ≡ LINK_FAILED
        → HasWrittenReport C.Clock F.L.Link
        F.pair clock.now (F.back fabric.old) (F.back fabric.new) true RunTarget.Scenario left
        (K.written out.old) (K.written out.new) }
    ensures faulty { (left left' : Option (List ℕ)) → IsInput left text.now → result ≡ FAULTY_INPUT
        → HasWrittenFault RunTarget.Scenario left left' (K.written out.old) (K.written out.new) }
    ensures refused { (at : FaultyEntry) (reason : ScenarioReason) → HasFault text.now at reason
        → (result ≢ DONE) × (result ≢ LINK_FAILED) × (result ≢ FABRIC_FAILED) × (fabric.new ≡ fabric.old) }
    ensures cut_short { (left left' : Option (List ℕ)) → IsInput left text.now
        → (result ≡ NO_MEMORY) ⊎ (result ≡ OUTPUT_FAILED) → HasStoppedRun C.Clock F.L.Link F.pair clock.now
        (F.back fabric.old) (F.back fabric.new) RunTarget.Scenario left left' (K.written out.old) (K.written out.new) }
    ensures unopened { result ≡ FABRIC_FAILED → ((plan : ThePlan) × IsTextOf text.now plan) × (out.new ≡ out.old) }
    ensures unrun { result ≡ FAULTY_INPUT → fabric.new ≡ fabric.old }
    ensures away { (result ≡ DONE) ⊎ (result ≡ LINK_FAILED) → F.away fabric.new ≡ F.away fabric.old }
    ensures out_cause { HasCause (result ≡ OUTPUT_FAILED) (K.failures out.old) (K.failures out.new) }
    ensures fabric_cause { HasCause (result ≡ FABRIC_FAILED) (F.failures fabric.old) (F.failures fabric.new) }
{
    parsed_plan_is_valid();
    scenario_is_unique();
    match read_scenario(alloc, text) {
        Ok(plan) => {
            let status = run_and_report(
                rt,
                alloc,
                RunTarget::Scenario,
                &plan,
                out,
                fabric,
                clock,
                gate,
            );
            discard(plan);
            status
        }
        Err(ScenarioFault::At { entry, reason }) => {
            write_fault(alloc, entry.number(), reason.word().as_bytes(), out)
        }
        Err(ScenarioFault::Memory) => NO_MEMORY,
    }
}

// Runs the drill with this number of calls of each client.
fn run_drill<R: Threads + Wait + Sync, K: Sink, F: Fabric, C: Clock, G: Gate>(
    rt: &R,
    alloc: Global,
    calls: u64,
    out: &mut K,
    fabric: &mut F,
    clock: &C,
    gate: &G,
) -> u8
    requires { calls ≤ MAX_CALLS }
    ensures statuses { result ≤ FABRIC_FAILED }
    ensures some { (result ≢ NO_COMMAND) × (result ≢ FAULTY_INPUT) × (result ≢ INPUT_FAILED) }
    ensures done { (left : Option (List ℕ)) → result ≡ DONE → HasWrittenReport C.Clock F.L.Link F.pair clock.now
        (F.back fabric.old) (F.back fabric.new) false (RunTarget.Drill calls) left
        (K.written out.old) (K.written out.new) }
    ensures link { (left : Option (List ℕ)) → result ≡ LINK_FAILED → HasWrittenReport C.Clock F.L.Link F.pair clock.now
        (F.back fabric.old) (F.back fabric.new) true (RunTarget.Drill calls) left
        (K.written out.old) (K.written out.new) }
    ensures cut_short { (left left' : Option (List ℕ)) → (result ≡ NO_MEMORY) ⊎ (result ≡ OUTPUT_FAILED)
        → HasStoppedRun C.Clock F.L.Link F.pair clock.now (F.back fabric.old) (F.back fabric.new)
        (RunTarget.Drill calls)
        left left' (K.written out.old) (K.written out.new) }
    ensures unopened { result ≡ FABRIC_FAILED → out.new ≡ out.old }
    ensures away { (result ≡ DONE) ⊎ (result ≡ LINK_FAILED) → F.away fabric.new ≡ F.away fabric.old }
    ensures out_cause { HasCause (result ≡ OUTPUT_FAILED) (K.failures out.old) (K.failures out.new) }
    ensures fabric_cause { HasCause (result ≡ FABRIC_FAILED) (F.failures fabric.old) (F.failures fabric.new) }
{
    match drill_plan(alloc, calls) {
        Ok(plan) => {
            let status = run_and_report(
                rt,
                alloc,
                RunTarget::Drill(calls),
                &plan,
                out,
                fabric,
                clock,
                gate,
            );
            discard(plan);
            status
        }
        Err(Memory) => NO_MEMORY,
    }
}

// Runs a plan, and writes its report.
fn run_and_report<R: Threads + Wait + Sync, K: Sink, F: Fabric, C: Clock, G: Gate>(
    rt: &R,
    alloc: Global,
    running: RunTarget,
    plan: &Plan,
    out: &mut K,
    fabric: &mut F,
    clock: &C,
    gate: &G,
) -> u8
    requires plan { IsPlan plan.now }
    ensures statuses { result ≤ FABRIC_FAILED }
    ensures some { (result ≢ NO_COMMAND) × (result ≢ FAULTY_INPUT) × (result ≢ INPUT_FAILED) }
    ensures done { (left : Option (List ℕ)) → IsPlanOf running left plan.now → result ≡ DONE → HasWrittenReport C.Clock
        F.L.Link F.pair clock.now (F.back fabric.old) (F.back fabric.new) false running left
        (K.written out.old) (K.written out.new) }
    ensures link { (left : Option (List ℕ)) → IsPlanOf running left plan.now → result ≡ LINK_FAILED
        → HasWrittenReport C.Clock
        F.L.Link F.pair clock.now (F.back fabric.old) (F.back fabric.new) true running left
        (K.written out.old) (K.written out.new) }
    ensures cut_short { (left left' : Option (List ℕ)) → IsPlanOf running left plan.now
        → (result ≡ NO_MEMORY) ⊎ (result ≡ OUTPUT_FAILED) → HasStoppedRun C.Clock F.L.Link F.pair clock.now
        (F.back fabric.old) (F.back fabric.new) running left left' (K.written out.old) (K.written out.new) }
    ensures unopened { result ≡ FABRIC_FAILED → out.new ≡ out.old }
    ensures away { (result ≡ DONE) ⊎ (result ≡ LINK_FAILED) → F.away fabric.new ≡ F.away fabric.old }
    ensures out_cause { HasCause (result ≡ OUTPUT_FAILED) (K.failures out.old) (K.failures out.new) }
    ensures fabric_cause { HasCause (result ≡ FABRIC_FAILED) (F.failures fabric.old) (F.failures fabric.new) }
{
    totals_are_counts();
    drills_add_up::<C, F::L>();
    drills_are_bound::<C, F::L>();
    match running {
        RunTarget::Scenario => match serve_plan(rt, alloc, plan, fabric, clock, gate) {
            Ok(run) => {
                let status = write_report(&run, out);
                discard(run);
                status
            }
            Err(fault) => status_of(fault),
        },
        RunTarget::Drill(calls) => match count_plan(rt, alloc, plan, fabric, clock, gate) {
            Ok(counted) => {
                let status = write_drill_line(alloc, calls, &counted, out);
                discard(counted);
                status
            }
            Err(fault) => status_of(fault),
        },
    }
}

// Writes the report of a run.
fn write_report<K: Sink>(run: &RunReport, out: &mut K) -> u8
    ensures statuses { result ≤ WIRE_FAILED }
    ensures some { (result ≢ NO_COMMAND) × (result ≢ FAULTY_INPUT) × (result ≢ INPUT_FAILED) }
    ensures memory { result ≢ NO_MEMORY }
    ensures done { result ≡ DONE → (run.now.failed ≡ false)
        × Appends (K.written out.old) (K.written out.new) (concat run.now.parts.items) }
    ensures link { result ≡ LINK_FAILED → (run.now.failed ≡ true)
        × Appends (K.written out.old) (K.written out.new) (concat run.now.parts.items) }
    ensures front { result ≡ OUTPUT_FAILED
        → HasWrittenPrefix (K.written out.old) (K.written out.new) (concat run.now.parts.items) }
    ensures cause { HasCause (result ≡ OUTPUT_FAILED) (K.failures out.old) (K.failures out.new) }
{
    report_status(write_parts(out, run.parts.as_slice()), run.failed)
}

// Writes the line of a drill.
fn write_drill_line<K: Sink>(alloc: Global, calls: u64, counted: &RunCounts, out: &mut K) -> u8
    ensures statuses { result ≤ WIRE_FAILED }
    ensures some { (result ≢ NO_COMMAND) × (result ≢ FAULTY_INPUT) × (result ≢ INPUT_FAILED) }
    ensures done { result ≡ DONE → (counted.now.failed ≡ false)
        × HasWrittenLine calls counted.now.totals (K.written out.old) (K.written out.new) }
    ensures link { result ≡ LINK_FAILED → (counted.now.failed ≡ true)
        × HasWrittenLine calls counted.now.totals (K.written out.old) (K.written out.new) }
    ensures front { result ≡ OUTPUT_FAILED
        → HasWrittenLinePrefix calls counted.now.totals (K.written out.old) (K.written out.new) }
    ensures silent { result ≡ NO_MEMORY → out.new ≡ out.old }
    ensures cause { HasCause (result ≡ OUTPUT_FAILED) (K.failures out.old) (K.failures out.new) }
{
    match drill_line(alloc, calls, &counted.totals) {
        Ok(line) => report_status(write_all(out, line.as_slice()), counted.failed),
        Err(Memory) => NO_MEMORY,
    }
}

// The line of a drill: `drill N took T sent S refused R stands D`.
fn drill_line(alloc: Global, calls: u64, totals: &Totals) -> Result<Bytes, Memory>
    ensures line { IfOk result (λ line. line ≡ drill_line calls (sums_of totals.now)) }
    ensures totals { IsTotals totals.now }
{
    let mut line = Bytes::new(alloc);
    append_drill(&mut line, calls, totals)?;
    Ok(line)
}

fn append_drill(line: &mut Bytes, calls: u64, totals: &Totals) -> Result<(), Memory>
    ensures line { OnOk result (line.new ≡ line.old ++ drill_line calls (sums_of totals.now)) }
    ensures totals { IsTotals totals.now }
{
    let (took, sent, refused, standing) = totals.sums();
    line.append(b"drill")?;
    line.append_word(calls)?;
    append_count(line, b" took", took)?;
    append_count(line, b" sent", sent)?;
    append_count(line, b" refused", refused)?;
    append_count(line, b" stands", standing)?;
    line.append(b"\n")
}

// Appends a word and a count.
fn append_count(line: &mut Bytes, word: &[u8], count: u64) -> Result<(), Memory>
    ensures { OnOk result (line.new ≡ line.old ++ (word.now ++ 32 ∷ decimal count)) }
{
    line.append(word)?;
    line.append_word(count)
}

// Writes the parts of a report in order, and returns whether the sink took them.
fn write_parts<K: Sink>(out: &mut K, parts: &[Bytes]) -> bool
    ensures done { IsTrue result → Appends (K.written out.old) (K.written out.new) (concat parts.now) }
    ensures front { result ≡ false → HasWrittenPrefix (K.written out.old) (K.written out.new) (concat parts.now) }
    ensures cause { HasCause (result ≡ false) (K.failures out.old) (K.failures out.new) }
{
    for part in parts {
        if !write_all(out, part.as_slice()) {
            return false;
        }
    }
    true
}

// The status of a run, given whether its whole report was written and whether a link failed.
fn report_status(whole: bool, failed: bool) -> u8
    ensures statuses { (result ≡ DONE) ⊎ ((result ≡ LINK_FAILED) ⊎ (result ≡ OUTPUT_FAILED)) }
    ensures done { result ≡ DONE → (whole ≡ true) × (failed ≡ false) }
    ensures link { result ≡ LINK_FAILED → (whole ≡ true) × (failed ≡ true) }
    ensures out { result ≡ OUTPUT_FAILED → whole ≡ false }
    ensures whole { result ≢ OUTPUT_FAILED → whole ≡ true }
{
    if !whole {
        return OUTPUT_FAILED;
    }
    if failed { LINK_FAILED } else { DONE }
}

// The status of a run that returned no report.
fn status_of(fault: ServeFault) -> u8
    ensures fabric { fault ≡ ServeFault.Fabric → result ≡ FABRIC_FAILED }
    ensures memory { fault ≢ ServeFault.Fabric → result ≡ NO_MEMORY }
{
    match fault {
        ServeFault::Fabric => FABRIC_FAILED,
        ServeFault::Memory => NO_MEMORY,
    }
}
