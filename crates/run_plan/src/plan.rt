//! Plans and look-ups in them.

ghost use Rattle.std.specs.Prelude.{◌≡◌};
ghost use Rattle.std.specs.Option.{option_copied};
ghost use Rattle.run_plan.specs.Chains.{operator_in};
ghost use Rattle.run_plan.specs.Links.{application_in, link_in, other_end, peer_in};

use crate::application::Application;
use crate::operator::Operator;
use mrpc_table::{Name, Sequence, Table};
use policy_declarations::Declarations;

/// Two connections that talk to each other.
#[derive(Clone, Copy)]
pub struct LinkPlan {
    pub a: u32,
    pub b: u32,
}

/// The whole configuration of a run.
pub struct Plan {
    /// The full name of the service to which all connections bind.
    pub service: Name,
    /// The maximum number of loads of one copy, 1 to 16384.
    pub loads: u64,
    /// The number of threads that serve the connections, 1 to 8.
    pub workers: u64,
    /// Whether ready connections get rounds by their weights.
    pub weighted: bool,
    /// The table of the plan's schema.
    pub table: Table,
    /// The tenants, and the policies as read under `table`.
    pub declared: Declarations,
    pub applications: Sequence<Application>,
    pub links: Sequence<LinkPlan>,
    /// At most one for each connection.
    pub operators: Sequence<Operator>,
}

// Written by hand so that a drop is one call, not a drop of each field.
impl Drop for Plan {
    fn drop(self) {
        let Plan {
            service: _service,
            loads: _,
            workers: _,
            weighted: _,
            table: _table,
            declared: _declared,
            applications: _applications,
            links: _links,
            operators: _operators,
        } = self;
    }
}

impl Plan {
    /// The application on a connection; `None` if no application has it.
    pub fn application(&self, conn: u32) -> Option<&Application>
        ensures { option_copied result ≡ application_in self.now.applications conn }
    {
        self.applications
            .as_slice()
            .iter()
            .find(|app| app.conn == conn)
    }

    /// The link of a connection; `None` if it is in no link.
    pub fn link(&self, conn: u32) -> Option<&LinkPlan>
        ensures { option_copied result ≡ link_in self.now.links conn }
    {
        self.links
            .as_slice()
            .iter()
            .find(|link| link.a == conn || link.b == conn)
    }

    /// The connection at the other end of the link; `None` if `conn` is in no link.
    pub fn peer(&self, conn: u32) -> Option<u32>
        ensures { result ≡ peer_in self.now.links conn }
    {
        match self.link(conn) {
            None => None,
            Some(link) => Some(link.other_end(conn)),
        }
    }

    /// The operator of a connection; `None` if it has none.
    pub fn operator(&self, conn: u32) -> Option<&Operator>
        ensures { option_copied result ≡ operator_in self.now.operators conn }
    {
        self.operators
            .as_slice()
            .iter()
            .find(|operator| operator.conn == conn)
    }
}

impl LinkPlan {
    /// The end other than `conn`.
    pub fn other_end(&self, conn: u32) -> u32
        ensures { result ≡ other_end conn self.now }
    {
        if self.a == conn { self.b } else { self.a }
    }
}
