//! What the applications of a scenario depend on, and the results of those that were read.

use mrpc_table::Sequence;
use policy_declarations::Declarations;
use run_plan::Application;
use scenario_entries::{AppConnection, ChainOutline};
use toml::Table;

// What is read before the applications, or needed beside them.
#[derive(Clone, Copy)]
pub(crate) struct AppContext<'a, 'o, 'e> {
    pub declared: &'a Declarations,
    // The entries of the policies, as many as are declared.
    pub policies: &'a [&'a Table],
    // The entries of the operators, which aren't checked yet.
    pub operators: &'o [&'a Table],
    // The ends of all links.
    pub ends: &'e [u64],
    // The maximum number of loads of one call.
    pub loads: u64,
}

// An application without a fault.
#[derive(Drop)]
pub(crate) struct JoinedApplication<'a> {
    pub port: AppConnection,
    pub app: Application,
    // The chain after its attachments.
    pub chain: ChainOutline<'a>,
    // The number of calls that the clients up to this one submit.
    pub submitted: u64,
}

// The applications that were read, each at the same index of these lists.
#[derive(Drop)]
pub(crate) struct Apps<'a> {
    pub ports: Vec<AppConnection>,
    pub applications: Sequence<Application>,
    pub chains: Vec<ChainOutline<'a>>,
}
