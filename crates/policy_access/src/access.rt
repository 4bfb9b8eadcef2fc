//! An access policy after reading.

ghost use Rattle.std.specs.Prelude.{◌≡◌, ◌≤◌, length, IfOk};
ghost use Rattle.policy_access.specs.declared.limits.TheConstants.{MAX_RULES};

use crate::condition::first_match;
use crate::copied::copied_rules;
use crate::rule::Rule;
use crate::verdict::Verdict;
use mrpc_table::{Bytes, Call, Memory, Name, Sequence, Table, normal_ascends};
use std::alloc::Global;
use std::marker::Model;

/// An access policy: up to 64 rules, and the default for a call that no rule matches.
pub struct Access {
    rules: Sequence<Rule>,
    allow: bool,
    default_name: Name,
}

// Written by hand, so that a drop is one call instead of one for each field.
impl Drop for Access {
    fn drop(self) {
        let Access {
            rules: _rules,
            allow: _,
            default_name: _default_name,
        } = self;
    }
}

impl Model for Access {
    ghost use Rattle.std.specs.Prelude.{◌≡◌, ◌≤◌, length, codes};
    ghost use Rattle.policy_access.specs.Verdict.{AccessPolicy};
    ghost use Rattle.policy_access.specs.declared.limits.TheConstants.{MAX_RULES};

    ghost Value = { AccessPolicy };

    ghost view = { λ a. record { rules = a.rules; allow = a.allow } };

    ghost invariant = { λ a. (length a.rules ≤ MAX_RULES) × (a.default_name ≡ codes "default") };
}

impl Access {
    ghost use Rattle.mrpc_table.specs.Calls.{IsCallOf};
    ghost use Rattle.policy_access.specs.Verdict.{verdict, rule_name};

    // The policy of these rules, with this default.
    pub(crate) fn new(alloc: Global, rules: Vec<Rule>, allow: bool) -> Result<Access, Memory>
        requires { length rules.items ≤ MAX_RULES }
        ensures { IfOk result (λ a. (a.rules ≡ rules.items) × (a.allow ≡ allow)) }
    {
        let default_name = Bytes::from_slice(alloc, b"default")?;
        let rules = Sequence::from_vec(rules);
        Ok(Access {
            rules,
            allow,
            default_name,
        })
    }

    /// The verdict on a call: the first rule that matches decides, otherwise the default. It allocates nothing.
    pub fn judge(&self, call: &Call, table: &Table) -> Verdict
        requires { IsCallOf table.now call.now }
        ensures verdict { result ≡ verdict self.now call.now }
        ensures within { result.rule ≤ length self.now.rules }
    {
        prove!((call.method as usize) < table.methods.len());
        normal_ascends();
        let rules = self.rules.as_slice();
        match first_match(rules, call) {
            Some(place) => Verdict {
                allow: rules[place].allow,
                rule: place as u32,
            },
            None => Verdict {
                allow: self.allow,
                rule: rules.len() as u32,
            },
        }
    }

    /// The name of the rule at an index. The number of rules means the default, whose name is `default`.
    pub fn rule_name(&self, rule: u32) -> &Name
        requires { rule ≤ length self.now.rules }
        ensures { result.now ≡ rule_name self.now rule }
    {
        match self.rules.as_slice().get(rule as usize) {
            Some(rule) => &rule.name,
            None => &self.default_name,
        }
    }

    /// An equal policy.
    pub fn copied(&self, alloc: Global) -> Result<Access, Memory>
        ensures { IfOk result (λ a. a ≡ self.now) }
    {
        Ok(Access {
            rules: copied_rules(alloc, self.rules.as_slice())?,
            allow: self.allow,
            default_name: self.default_name.copied(alloc)?,
        })
    }
}
