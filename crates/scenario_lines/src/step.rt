//! One line of an operator.

ghost use Rattle.std.specs.Prelude.{◌≡◌, MatchResult};
ghost use Rattle.script_grammar.specs.Meanings.{meanings_of};
ghost use Rattle.scenario_lines.specs.Reasons.{IsFirstLineReason};
ghost use Rattle.scenario_lines.specs.StepLines.{IsStepFormMeaning, IsStepTextFault, IsStepTextMeaning};

use crate::form::StepForm;
use crate::reason::LineReason;
use crate::words::judge_words;
use mrpc_table::Decimal;
use script_grammar::{WordValue, first_word, name_at, number_at, unbounded_at};

/// What a line of an operator means, with its names as in the text. A step is due once the connection has taken
/// `count` calls.
#[derive(Clone, Copy)]
pub enum StepText<'a> {
    /// Attaches the policy at a position of the chain, of any size, under a name.
    Attach {
        count: u64,
        at: Decimal,
        name: &'a [u8],
        policy: &'a [u8],
    },
    /// Removes the entry with a name from the chain.
    Detach {
        count: u64,
        name: &'a [u8],
    },
    /// Replaces the policy of the entry with a name.
    Upgrade {
        count: u64,
        name: &'a [u8],
        policy: &'a [u8],
    },
}

// What the words of a form mean.
fn step_of_form<'a>(form: StepForm, words: &[WordValue<'a>]) -> StepText<'a>
    ensures { IsStepFormMeaning form (meanings_of words.now) result }
{
    match form {
        StepForm::Attach => StepText::Attach {
            count: number_at(words, 0),
            at: unbounded_at(words, 2),
            name: name_at(words, 3),
            policy: name_at(words, 4),
        },
        StepForm::Detach => StepText::Detach {
            count: number_at(words, 0),
            name: name_at(words, 2),
        },
        StepForm::Upgrade => StepText::Upgrade {
            count: number_at(words, 0),
            name: name_at(words, 2),
            policy: name_at(words, 3),
        },
    }
}

/// What a line of an operator means, or the first reason of its faults. Doesn't allocate, and takes time in
/// proportion to the line.
pub fn read_step<'a>(line: &'a [u8]) -> Result<StepText<'a>, LineReason>
    ensures { MatchResult result (IsStepTextMeaning line.now) (IsFirstLineReason (IsStepTextFault line.now)) }
{
    let (_, rest) = first_word(line);
    let Some(behind) = rest else {
        return Err(LineReason::Word);
    };
    let (word, _) = first_word(behind);
    let Some(form) = StepForm::of(word) else {
        return Err(LineReason::Word);
    };
    let words = judge_words(form.word_kinds(), line)?;
    Ok(step_of_form(form, words.as_slice()))
}
