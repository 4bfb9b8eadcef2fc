//! The lines of an operator.

ghost use Rattle.std.specs.Prelude.{◌≡◌, ◌≤◌, ◌<◌, ◌++◌, ◌∷◌, [], ℕ, List, Some, IfOk, OnOk, filter_map, map};
ghost use Rattle.std.specs.Option.{option_copied};
ghost use Rattle.scenario.specs.Lines.{count_in, step_policy};
ghost use Rattle.scenario.specs.Reasons.{lower_ranked};
ghost use Rattle.scenario.specs.declared.fault.ScenarioReason.TheVariants.{Number};
ghost use Rattle.scenario_reader.specs.StepLinesReading.{HasReadLines};

use mrpc_table::Memory;
use scenario::{ScenarioReason, earlier, reason_of_line};
use scenario_lines::{StepText, read_step};
use script_grammar::meanings_or_reason;
use std::alloc::Global;

// What the lines of an operator mean so far.
#[derive(Drop)]
pub(crate) struct StepLinesReader<'a> {
    // What the lines without a fault mean, in order.
    pub told: Vec<StepText<'a>>,
    // The largest count among them.
    pub most: u64,
    // The first reason of faults in the lines.
    pub first: Option<ScenarioReason>,
}

/// The number of calls that the connection has taken when a step is due.
pub fn count_in(step: &StepText<'_>) -> u64
    ensures { result ≡ count_in step.now }
{
    match step {
        StepText::Attach { count, .. }
        | StepText::Detach { count, .. }
        | StepText::Upgrade { count, .. } => *count,
    }
}

// The policy that a step names, if any.
fn step_policy<'a>(step: &StepText<'a>) -> Option<&'a [u8]>
    ensures { option_copied result ≡ step_policy step.now }
{
    match step {
        StepText::Attach { policy, .. } | StepText::Upgrade { policy, .. } => Some(*policy),
        StepText::Detach { .. } => None,
    }
}

impl<'a> StepLinesReader<'a> {
    // Appends what a line means. A count that is less than an earlier one is a fault of the lines.
    fn keep(&mut self, step: StepText<'a>) -> Result<(), Memory>
        ensures told { OnOk result (self.new.told.items ≡ self.old.told.items ++ step.entry ∷ []) }
        ensures more { OnOk result (self.old.most ≤ count_in step.entry
            → (self.new.most ≡ count_in step.entry) × (self.new.first ≡ self.old.first)) }
        ensures less { OnOk result (count_in step.entry < self.old.most
            → (self.new.most ≡ self.old.most) × (self.new.first ≡ lower_ranked self.old.first (Some Number))) }
    {
        let count = count_in(&step);
        self.told.push(step)?;
        if count < self.most {
            self.first = earlier(self.first, Some(ScenarioReason::Number));
        } else {
            self.most = count;
        }
        Ok(())
    }

    // Reads one more line.
    fn read(&mut self, line: &'a [u8]) -> Result<(), Memory>
        ensures { OnOk result ((lines : List (List ℕ))
            → HasReadLines lines self.old.told.items self.old.most self.old.first
            → HasReadLines (lines ++ line.entry.now ∷ []) self.new.told.items self.new.most self.new.first) }
    {
        meanings_or_reason();
        match read_step(line) {
            Ok(step) => self.keep(step),
            Err(reason) => {
                self.first = earlier(self.first, Some(reason_of_line(reason)));
                Ok(())
            }
        }
    }
}

// What the lines of an operator mean, and the first reason of their faults.
pub(crate) fn read_steps<'a>(
    alloc: Global,
    lines: &[&'a [u8]],
) -> Result<StepLinesReader<'a>, Memory>
    ensures { IfOk result (λ s. HasReadLines (map (λ l. l.now) lines.now) s.told.items s.most s.first) }
{
    let mut steps = StepLinesReader {
        told: Vec::new(alloc),
        most: 0,
        first: None,
    };
    for line in lines {
        steps.read(line)?;
    }
    Ok(steps)
}

// Appends the policies that the steps name.
pub(crate) fn add_names<'a>(names: &mut Vec<&'a [u8]>, told: &[StepText<'a>]) -> Result<(), Memory>
    ensures { OnOk result (map (λ n. n.now) names.new.items
        ≡ map (λ n. n.now) names.old.items ++ filter_map step_policy told.now) }
{
    for step in told {
        if let Some(name) = step_policy(step) {
            names.push(name)?;
        }
    }
    Ok(())
}
