//! The forms of lines, by the word that names the action.

ghost use Rattle.std.specs.Prelude.{◌≡◌, ◌≤◌, length};
ghost use Rattle.scenario_lines.specs.Forms.{line_form, first_word, forms_of, line_sorts, step_form, step_sorts, step_word};

use app_program::MAX_STORES;
use script_grammar::{Keyword, WordKind};

/// The role whose program a line belongs to.
#[derive(Clone, Copy)]
pub enum ProgramRole {
    Client,
    Server,
}

// A line of a program.
#[derive(Clone, Copy)]
pub enum ProgramForm {
    // `store PLACE VALUE`
    Store,
    // `spin N PLACE V W`
    Spin,
    // `submit METHOD ADDR`
    Submit,
    // `reclaim BLOCK`
    Reclaim,
    // `reply ADDR`
    Reply,
}

// A line of an operator.
#[derive(Clone, Copy)]
pub enum StepForm {
    // `COUNT attach AT NAME POLICY`
    Attach,
    // `COUNT detach NAME`
    Detach,
    // `COUNT upgrade NAME POLICY`
    Upgrade,
}

// Any number of 64 bits.
const ANY: WordKind = WordKind::Number {
    least: 0,
    most: u64::MAX,
};

// How often a line may store two values.
const TIMES: WordKind = WordKind::Number {
    least: 0,
    most: MAX_STORES / 2,
};

const METHOD: WordKind = WordKind::Number {
    least: 0,
    most: 65535,
};

// The number of a block.
const BLOCK: WordKind = WordKind::Number {
    least: 1,
    most: 1 << 63,
};

impl ProgramRole {
    // The forms of its lines.
    fn forms(self) -> &'static [ProgramForm]
        ensures { result.now ≡ forms_of self }
    {
        match self {
            ProgramRole::Client => &[
                ProgramForm::Store,
                ProgramForm::Spin,
                ProgramForm::Submit,
                ProgramForm::Reclaim,
            ],
            ProgramRole::Server => &[ProgramForm::Store, ProgramForm::Spin, ProgramForm::Reply],
        }
    }
}

impl ProgramForm {
    // The first word.
    fn first_word(self) -> &'static [u8]
        ensures { result.now ≡ first_word self }
    {
        match self {
            ProgramForm::Store => b"store",
            ProgramForm::Spin => b"spin",
            ProgramForm::Submit => b"submit",
            ProgramForm::Reclaim => b"reclaim",
            ProgramForm::Reply => b"reply",
        }
    }

    // The form of a role's line with this first word; `None` if no form has it.
    pub(crate) fn of(role: ProgramRole, word: &[u8]) -> Option<ProgramForm>
        ensures { result ≡ line_form role word.now }
    {
        role.forms()
            .iter()
            .copied()
            .find(|form| word == form.first_word())
    }

    // The sorts of the words after the first one.
    pub(crate) fn word_kinds(self) -> &'static [WordKind]
        ensures sorts { result.now ≡ line_sorts self }
        ensures few { length result.now ≤ 9 }
    {
        match self {
            ProgramForm::Store => &[WordKind::Unbounded, WordKind::Value],
            ProgramForm::Spin => &[TIMES, WordKind::Unbounded, WordKind::Value, WordKind::Value],
            ProgramForm::Submit => &[METHOD, ANY],
            ProgramForm::Reclaim => &[BLOCK],
            ProgramForm::Reply => &[ANY],
        }
    }
}

const STEP_FORMS: [StepForm; 3] = [StepForm::Attach, StepForm::Detach, StepForm::Upgrade];

impl StepForm {
    // The second word.
    fn step_word(self) -> Keyword
        ensures { result ≡ step_word self }
    {
        match self {
            StepForm::Attach => Keyword::Attach,
            StepForm::Detach => Keyword::Detach,
            StepForm::Upgrade => Keyword::Upgrade,
        }
    }

    // The form of a line with this second word; `None` if no form has it.
    pub(crate) fn of(word: &[u8]) -> Option<StepForm>
        ensures { result ≡ step_form word.now }
    {
        STEP_FORMS
            .iter()
            .copied()
            .find(|form| word == form.step_word().spelling())
    }

    // The sorts of its words.
    pub(crate) fn word_kinds(self) -> &'static [WordKind]
        ensures sorts { result.now ≡ step_sorts self }
        ensures few { length result.now ≤ 9 }
    {
        match self {
            StepForm::Attach => &[
                ANY,
                WordKind::Key(Keyword::Attach),
                WordKind::Unbounded,
                WordKind::Name,
                WordKind::Name,
            ],
            StepForm::Detach => &[ANY, WordKind::Key(Keyword::Detach), WordKind::Name],
            StepForm::Upgrade => &[
                ANY,
                WordKind::Key(Keyword::Upgrade),
                WordKind::Name,
                WordKind::Name,
            ],
        }
    }
}
