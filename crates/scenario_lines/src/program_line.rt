//! One line of a program.

ghost use Rattle.std.specs.Prelude.{◌≡◌, ◌≤◌, MatchOption, MatchResult, Some};
ghost use Rattle.app_program.specs.Programs.{IsStorePlace};
ghost use Rattle.mrpc_table.specs.declared.words.Decimal.TheVariants.{Small};
ghost use Rattle.script_grammar.specs.Meanings.{meanings_of};
ghost use Rattle.scenario_lines.specs.Deciding.{AreNumbersInRange};
ghost use Rattle.scenario_lines.specs.Lines.{IsFormMeaning, IsNoPlace, IsProgramLineFault, IsProgramLineMeaning, line_place};
ghost use Rattle.scenario_lines.specs.Reasons.{IsFirstLineReason};

use crate::form::{ProgramForm, ProgramRole};
use crate::reason::LineReason;
use crate::words::judge_words;
use app_program::ProgramLine;
use mrpc_table::Decimal;
use script_grammar::{WordValue, first_word, meanings_or_reason, number_at, unbounded_at};

// A place of a heap with this many words.
fn line_place(heap: u32, place: Decimal) -> Option<u32>
    ensures { MatchOption result (IsNoPlace heap (Some place))
        (λ p. (place ≡ Small p) × IsStorePlace heap p) }
{
    match place {
        Decimal::Small(place) => {
            if 1 <= place && place < u64::from(heap) {
                Some(place as u32)
            } else {
                None
            }
        }
        Decimal::Large => None,
    }
}

// What the words of a form mean for a heap with this many words; `None` if they name no place of it.
fn program_line_of_form(
    heap: u32,
    form: ProgramForm,
    words: &[WordValue<'_>],
) -> Option<ProgramLine>
    requires fits { AreNumbersInRange form (meanings_of words.now) }
    ensures { MatchOption result (IsNoPlace heap (line_place form (meanings_of words.now)))
        (IsFormMeaning heap form (meanings_of words.now)) }
{
    match form {
        ProgramForm::Store => Some(ProgramLine::Store {
            place: line_place(heap, unbounded_at(words, 0))?,
            value: number_at(words, 1),
        }),
        ProgramForm::Spin => Some(ProgramLine::Spin {
            times: number_at(words, 0) as u32,
            place: line_place(heap, unbounded_at(words, 1))?,
            first: number_at(words, 2),
            second: number_at(words, 3),
        }),
        ProgramForm::Submit => Some(ProgramLine::Submit {
            method: number_at(words, 0) as u16,
            addr: number_at(words, 1),
        }),
        ProgramForm::Reclaim => Some(ProgramLine::Reclaim {
            block: number_at(words, 0),
        }),
        ProgramForm::Reply => Some(ProgramLine::Reply {
            addr: number_at(words, 0),
        }),
    }
}

/// What a line of a program means, for an application's role and a heap with this many words, or the first reason of
/// its faults. Doesn't allocate, and takes time in proportion to the line.
pub fn read_line(role: ProgramRole, heap: u32, line: &[u8]) -> Result<ProgramLine, LineReason>
    ensures { MatchResult result (IsProgramLineMeaning role heap line.now) (IsFirstLineReason (IsProgramLineFault role heap line.now)) }
{
    meanings_or_reason();
    let (word, rest) = first_word(line);
    let Some(form) = ProgramForm::of(role, word) else {
        return Err(LineReason::Word);
    };
    let Some(behind) = rest else {
        return Err(LineReason::Word);
    };
    let words = judge_words(form.word_kinds(), behind)?;
    match program_line_of_form(heap, form, words.as_slice()) {
        Some(said) => Ok(said),
        None => Err(LineReason::Place),
    }
}
