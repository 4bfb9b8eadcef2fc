//! The operations that each connection's chain gets.

ghost use Rattle.std.specs.Prelude.{◌≡◌, Some, IfOk, IsSome};
ghost use Rattle.std.specs.Option.{option_copied};
ghost use Rattle.run_plan.specs.Chains.{access_in, attachment_of, inbound_of, policy_name_at, op_of, policy_at, app_policy, app_table, steps_on};

use crate::application::Application;
use crate::operator::{OperatorStep, StepLine};
use crate::plan::Plan;
use engine_core::{Op, Policy};
use mrpc_table::{Memory, Name, Table};
use policy_access::Access;
use std::alloc::Global;

impl Plan {
    /// The table by which an application of this plan binds, and by which its connection copies and judges.
    pub fn table_of<'a>(&'a self, app: &'a Application) -> &'a Table
        ensures { result.now ≡ app_table self.now app.now }
    {
        match &app.own {
            None => &self.table,
            Some(own) => &own.table,
        }
    }

    /// The name of the declared policy at an index, from 0; `None` past the last policy.
    pub fn label(&self, place: usize) -> Option<&Name>
        ensures { option_copied result ≡ policy_name_at self.now.declared.policies place }
    {
        self.declared
            .policies()
            .get(place)
            .map(|policy| &policy.name)
    }

    /// The policy at an index, as it judges on the connection of an application; `None` if there is none. Takes time
    /// in proportion to the policies of the application's own schema.
    pub fn policy_of<'a>(&'a self, app: &'a Application, place: usize) -> Option<&'a Policy>
        ensures { option_copied result ≡ app_policy self.now app.now place }
    {
        match &app.own {
            None => self.shared_policy(place),
            Some(own) => match own.policy(place) {
                None => None,
                Some(policy) => Some(&policy.policy),
            },
        }
    }

    // The policy at an index, as read under the plan's table.
    fn shared_policy(&self, place: usize) -> Option<&Policy>
        ensures { option_copied result ≡ policy_at self.now.declared.policies place }
    {
        self.declared
            .policies()
            .get(place)
            .map(|policy| &policy.policy)
    }

    /// The access policy that judges messages delivered to an application; `None` if it has none. Takes as much time
    /// as [`Plan::policy_of`].
    pub fn inbound_of<'a>(&'a self, app: &'a Application) -> Option<&'a Access>
        ensures { option_copied result ≡ inbound_of self.now app.now }
    {
        match app.inbound {
            None => None,
            Some(place) => access_in(self.policy_of(app, place)),
        }
    }

    /// The steps of operators for a connection, in order.
    pub fn steps(&self, conn: u32) -> &[OperatorStep]
        ensures { result.now ≡ steps_on self.now.operators conn }
    {
        match self.operator(conn) {
            None => &[],
            Some(operator) => operator.steps.as_slice(),
        }
    }

    /// The operation that a line means on the connection of an application. A plan has the policies that its lines
    /// name.
    pub fn step(&self, alloc: Global, app: &Application, line: &StepLine) -> Result<Op, Memory>
        requires { IsSome (op_of self.now app.now line.now) }
        ensures { IfOk result (λ op. op_of self.now app.now line.now ≡ Some op) }
    {
        match line {
            StepLine::Attach { at, name, policy } => {
                let (label, policy) = self.named(alloc, app, *policy)?;
                Ok(Op::Attach {
                    at: *at,
                    name: name.copied(alloc)?,
                    label,
                    policy,
                })
            }
            StepLine::Detach { name } => Ok(Op::Detach {
                name: name.copied(alloc)?,
            }),
            StepLine::Upgrade { name, policy } => {
                let (label, policy) = self.named(alloc, app, *policy)?;
                Ok(Op::Upgrade {
                    name: name.copied(alloc)?,
                    label,
                    policy,
                })
            }
        }
    }

    // The name and the policy at an index, for an application.
    fn named(
        &self,
        alloc: Global,
        app: &Application,
        place: usize,
    ) -> Result<(Name, Policy), Memory>
        requires label { IsSome (policy_name_at self.now.declared.policies place) }
        requires policy { IsSome (app_policy self.now app.now place) }
        ensures label { IfOk result (λ r. policy_name_at self.now.declared.policies place ≡ Some r.0) }
        ensures policy { IfOk result (λ r. app_policy self.now app.now place ≡ Some r.1) }
    {
        let Some(label) = self.label(place) else {
            unreachable!()
        };
        let Some(policy) = self.policy_of(app, place) else {
            unreachable!()
        };
        Ok((label.copied(alloc)?, policy.copied(alloc)?))
    }

    /// The operation that attaches the policy at a position of an application's initial chain. A plan has the
    /// policies that its chains name.
    pub fn attachment(&self, alloc: Global, app: &Application, at: u32) -> Result<Op, Memory>
        requires { IsSome (attachment_of self.now app.now at) }
        ensures { IfOk result (λ op. attachment_of self.now app.now at ≡ Some op) }
    {
        let Some(place) = app.chain.as_slice().get(at as usize) else {
            unreachable!()
        };
        let (label, policy) = self.named(alloc, app, *place)?;
        let name = label.copied(alloc)?;
        Ok(Op::Attach {
            at,
            name,
            label,
            policy,
        })
    }
}

// The access policy; `None` for a policy of another kind.
fn access_in<'a>(policy: Option<&'a Policy>) -> Option<&'a Access>
    ensures { option_copied result ≡ access_in (option_copied policy.entry) }
{
    match policy {
        Some(Policy::Access(access)) => Some(access),
        _ => None,
    }
}
