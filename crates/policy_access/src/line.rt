//! The content of a policy's line, by its form alone.

ghost use Rattle.std.specs.Prelude.{◌≡◌};
ghost use Rattle.policy_access.specs.Texts.{with_selector};

use crate::rule::{CallSelector, Comparison, Rule};
use mrpc_table::{Bytes, CallKind, Decimal, PathWord};

// A line of valid form.
#[derive(Drop)]
pub(crate) enum PolicyLine {
    // `rule NAME allow|deny ..`
    Rule(RuleLine),
    // `default allow|deny`; true if it allows.
    Default(bool),
}

// `rule NAME allow|deny [method INDEX [reply] [where ..]]`
pub(crate) struct RuleLine {
    // The word at the name's position.
    pub name: Bytes,
    pub allow: bool,
    pub about: SelectorLine,
}

// Written by hand, so that a drop is one call instead of one for each field.
impl Drop for RuleLine {
    fn drop(self) {
        let RuleLine {
            name: _name,
            allow: _,
            about: _about,
        } = self;
    }
}

impl RuleLine {
    // The rule of the line, with its resolved call selector.
    pub(crate) fn with_selector(self, about: CallSelector) -> Rule
        ensures { result ≡ with_selector self about }
    {
        let RuleLine {
            name,
            allow,
            about: _,
        } = self;
        Rule { name, allow, about }
    }
}

// The calls that a rule selects, as its line gives them.
#[derive(Drop)]
pub(crate) enum SelectorLine {
    // Nothing follows: every call.
    Every,
    // `method INDEX [reply] [where ..]`
    Calls(CallsLine),
}

// `method INDEX [reply] [where ..]`
pub(crate) struct CallsLine {
    pub index: Decimal,
    pub sort: CallKind,
    pub test: Option<TestLine>,
}

// Written by hand, so that a drop is one call instead of one for each field.
impl Drop for CallsLine {
    fn drop(self) {
        let CallsLine {
            index: _,
            sort: _,
            test: _test,
        } = self;
    }
}

// `where PATH OP [VALUE]`
pub(crate) struct TestLine {
    pub path: PathWord,
    pub condition: ConditionLine,
}

// Written by hand, so that a drop is one call instead of one for each field.
impl Drop for TestLine {
    fn drop(self) {
        let TestLine {
            path: _path,
            condition: _condition,
        } = self;
    }
}

// `OP [VALUE]`
#[derive(Drop)]
pub(crate) enum ConditionLine {
    // `present`
    Present,
    // Another OP, and the bytes of VALUE.
    Compares(Comparison, Bytes),
}
