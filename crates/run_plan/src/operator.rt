//! What operators do to the chains of connections during a run.

use mrpc_table::{Name, Sequence};

/// What a step does to a chain. Policies are given by their index among those of the plan, from 0.
pub enum StepLine {
    /// Attaches a policy at a position of the chain, from 0, under a name.
    Attach { at: u32, name: Name, policy: usize },
    /// Removes the entry with a name from the chain.
    Detach { name: Name },
    /// Replaces the policy of the entry with a name by another one of the same kind.
    Upgrade { name: Name, policy: usize },
}

// Written by hand so that a drop is one call, not a drop of each field.
impl Drop for StepLine {
    fn drop(self) {
        match self {
            StepLine::Attach {
                at: _,
                name: _name,
                policy: _,
            } => {}
            StepLine::Detach { name: _name } => {}
            StepLine::Upgrade {
                name: _name,
                policy: _,
            } => {}
        }
    }
}

/// A step, due once the connection has taken `count` calls and before it takes another.
pub struct OperatorStep {
    pub count: u64,
    pub line: StepLine,
}

// Written by hand so that a drop is one call, not a drop of each field.
impl Drop for OperatorStep {
    fn drop(self) {
        let OperatorStep {
            count: _,
            line: _line,
        } = self;
    }
}

/// The steps for one connection, in order of non-decreasing counts.
pub struct Operator {
    pub conn: u32,
    pub steps: Sequence<OperatorStep>,
}

// Written by hand so that a drop is one call, not a drop of each field.
impl Drop for Operator {
    fn drop(self) {
        let Operator {
            conn: _,
            steps: _steps,
        } = self;
    }
}
