//! The applications of a run and what belongs to their connections.

ghost use Rattle.std.specs.Prelude.{◌≡◌};
ghost use Rattle.std.specs.Option.{option_copied};
ghost use Rattle.run_plan.specs.Chains.{own_policy_in};

use app_program::Program;
use engine_core::Policy;
use mrpc_table::{Sequence, Table};

/// What an application does.
pub enum Role {
    /// Runs the lines of its program, once.
    Client(Program),
    /// Runs the lines of its program for each request delivered to it.
    Server(Program),
    /// Replies to requests with their own messages, where these can be replies.
    Echo,
}

// Written by hand so that a drop is one call, not a drop of each field.
impl Drop for Role {
    fn drop(self) {
        match self {
            Role::Client(_a) => {}
            Role::Server(_a) => {}
            Role::Echo => {}
        }
    }
}

/// A policy of the plan, by its index, as read under the table of an application.
pub struct OwnPolicy {
    pub place: usize,
    pub policy: Policy,
}

// Written by hand so that a drop is one call, not a drop of each field.
impl Drop for OwnPolicy {
    fn drop(self) {
        let OwnPolicy {
            place: _,
            policy: _policy,
        } = self;
    }
}

/// The schema of an application that doesn't bind by the plan's schema.
pub struct OwnSchema {
    pub table: Table,
    /// The policies that its connection uses, each as read under `table`.
    pub policies: Sequence<OwnPolicy>,
}

// Written by hand so that a drop is one call, not a drop of each field.
impl Drop for OwnSchema {
    fn drop(self) {
        let OwnSchema {
            table: _table,
            policies: _policies,
        } = self;
    }
}

/// An application and its connection. Policies are given by their index among those of the plan, from 0.
pub struct Application {
    /// The number of its connection, 1 to 16.
    pub conn: u32,
    pub role: Role,
    /// The size of its heap in words, 4 to 65536.
    pub heap: u64,
    /// The size of the heap for messages delivered to it, in words, 4 to 65536.
    pub receive: u64,
    /// The capacity of its rings in items, 1 to 1024.
    pub ring: u64,
    /// Its weight in the order of ready connections, 1 to 100.
    pub weight: u64,
    /// The policies attached before its first call, in order, each under the name it is declared by.
    pub chain: Sequence<usize>,
    /// The access policy that judges messages delivered to it, if any.
    pub inbound: Option<usize>,
    /// Its own schema; `None` if it binds by the plan's.
    pub own: Option<OwnSchema>,
}

// Written by hand so that a drop is one call, not a drop of each field.
impl Drop for Application {
    fn drop(self) {
        let Application {
            conn: _,
            role: _,
            heap: _,
            receive: _,
            ring: _,
            weight: _,
            chain: _chain,
            inbound: _,
            own: _own,
        } = self;
    }
}

impl OwnSchema {
    /// The policy with an index among the plan's; `None` if the connection doesn't use it.
    pub fn policy(&self, place: usize) -> Option<&OwnPolicy>
        ensures { option_copied result ≡ own_policy_in self.now.policies place }
    {
        self.policies
            .as_slice()
            .iter()
            .find(|policy| policy.place == place)
    }
}
