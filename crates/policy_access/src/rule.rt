//! A rule.

use mrpc_table::{Bytes, CallKind, Name, Path};

// A rule of a policy.
pub(crate) struct Rule {
    pub name: Name,
    // Whether a matching call is allowed; otherwise it is denied.
    pub allow: bool,
    pub about: CallSelector,
}

// Written by hand, so that a drop is one call instead of one for each field.
impl Drop for Rule {
    fn drop(self) {
        let Rule {
            name: _name,
            allow: _,
            about: _about,
        } = self;
    }
}

// The calls that a rule matches.
pub(crate) enum CallSelector {
    // Every call.
    Every,
    // The requests or the replies of a method.
    Calls(Calls),
}

// Written by hand, so that a drop is one call instead of one for each field.
impl Drop for CallSelector {
    fn drop(self) {
        match self {
            CallSelector::Every => {}
            CallSelector::Calls(_a) => {}
        }
    }
}

// The requests or the replies of a method, with an optional test.
pub(crate) struct Calls {
    // The index of the method in the table.
    pub method: u16,
    // Whether the rule matches requests or replies.
    pub sort: CallKind,
    pub test: Option<Test>,
}

// Written by hand, so that a drop is one call instead of one for each field.
impl Drop for Calls {
    fn drop(self) {
        let Calls {
            method: _,
            sort: _,
            test: _test,
        } = self;
    }
}

// The condition on a call's tree for a rule to match.
pub(crate) struct Test {
    pub path: Path,
    pub condition: Condition,
}

// Written by hand, so that a drop is one call instead of one for each field.
impl Drop for Test {
    fn drop(self) {
        let Test {
            path: _path,
            condition: _condition,
        } = self;
    }
}

// The condition on the field at the end of a path.
pub(crate) enum Condition {
    // `present`: the tree has the field.
    Present,
    // The field has a value that passes the comparison with this operand.
    Compares(Comparison, Operand),
}

// Written by hand, so that a drop is one call instead of one for each field.
impl Drop for Condition {
    fn drop(self) {
        match self {
            Condition::Present => {}
            Condition::Compares(_a, _b) => {}
        }
    }
}

// How a value is compared with that of a rule.
#[derive(Clone, Copy, PartialEq, Eq)]
pub(crate) enum Comparison {
    // `eq`: it is equal.
    Equal,
    // `ne`: it is different.
    NotEqual,
    // `lt`: it is a smaller number.
    Less,
    // `gt`: it is a greater number.
    Greater,
    // `starts`: the bytes of the rule are a prefix of its bytes.
    Starts,
}

// A value that a rule compares with.
pub(crate) enum Operand {
    // A number, a truth value or an enum's value, in the word form of its kind.
    Number(u64),
    // The bytes of a string or of bytes.
    Run(Bytes),
}

// Written by hand, so that a drop is one call instead of one for each field.
impl Drop for Operand {
    fn drop(self) {
        match self {
            Operand::Number(_) => {}
            Operand::Run(_a) => {}
        }
    }
}
