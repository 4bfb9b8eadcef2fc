//! Copies of policies and calls in memory of their own.

ghost use Rattle.std.specs.Prelude.{◌≡◌, IfOk, map, take};

use crate::rule::{CallSelector, Calls, Condition, Operand, Rule, Test};
use mrpc_table::{Memory, Sequence};
use std::alloc::Global;

impl Rule {
    // An equal rule.
    pub(crate) fn copied(&self, alloc: Global) -> Result<Rule, Memory>
        ensures { IfOk result (λ r. r ≡ self.now) }
    {
        Ok(Rule {
            name: self.name.copied(alloc)?,
            allow: self.allow,
            about: self.about.copied(alloc)?,
        })
    }
}

impl CallSelector {
    fn copied(&self, alloc: Global) -> Result<CallSelector, Memory>
        ensures { IfOk result (λ r. r ≡ self.now) }
    {
        match self {
            CallSelector::Every => Ok(CallSelector::Every),
            CallSelector::Calls(calls) => Ok(CallSelector::Calls(calls.copied(alloc)?)),
        }
    }
}

impl Calls {
    fn copied(&self, alloc: Global) -> Result<Calls, Memory>
        ensures { IfOk result (λ r. r ≡ self.now) }
    {
        let test = match &self.test {
            None => None,
            Some(test) => Some(test.copied(alloc)?),
        };
        Ok(Calls {
            method: self.method,
            sort: self.sort,
            test,
        })
    }
}

impl Test {
    fn copied(&self, alloc: Global) -> Result<Test, Memory>
        ensures { IfOk result (λ r. r ≡ self.now) }
    {
        Ok(Test {
            path: self.path.copied(alloc)?,
            condition: self.condition.copied(alloc)?,
        })
    }
}

impl Condition {
    fn copied(&self, alloc: Global) -> Result<Condition, Memory>
        ensures { IfOk result (λ r. r ≡ self.now) }
    {
        match self {
            Condition::Present => Ok(Condition::Present),
            Condition::Compares(comparison, operand) => {
                Ok(Condition::Compares(*comparison, operand.copied(alloc)?))
            }
        }
    }
}

impl Operand {
    fn copied(&self, alloc: Global) -> Result<Operand, Memory>
        ensures { IfOk result (λ r. r ≡ self.now) }
    {
        match self {
            Operand::Number(word) => Ok(Operand::Number(*word)),
            Operand::Run(bytes) => Ok(Operand::Run(bytes.copied(alloc)?)),
        }
    }
}

// Equal rules, in order.
pub(crate) fn copied_rules(alloc: Global, rules: &[Rule]) -> Result<Sequence<Rule>, Memory>
    ensures { IfOk result (λ r. r ≡ rules.now) }
{
    let mut copies = Vec::with_capacity(alloc, rules.len())?;
    for rule in rules {
        copies.push(rule.copied(alloc)?)?;
    }
    Ok(Sequence::from_vec(copies))
}
