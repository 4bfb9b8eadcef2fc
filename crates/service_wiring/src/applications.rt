//! The applications of a run.

ghost use Rattle.service_wiring.specs.Applications.{IsEndOf, IsAppTask};

use app_stub::{AppEnd, AppPort, client, echo, server};
use mrpc_table::Table;
use polling::RunFlag;
use run_plan::Role;
use std::alloc::Global;
use std::sync::Wait;

/// An application that is ready to run.
#[derive(Drop)]
pub struct AppTask<'t> {
    pub role: &'t Role,
    /// The table by which it binds.
    pub table: &'t Table,
    pub port: AppPort<RunFlag>,
}

/// Runs an application to its end, or until the run is stopped.
pub fn run_application<R: Wait>(rt: &R, alloc: Global, job: AppTask) -> AppEnd
    requires { IsAppTask job }
    ensures { IsEndOf job.entry result }
{
    let AppTask { role, table, port } = job;
    match role {
        Role::Client(program) => client(rt, program, port),
        Role::Server(program) => server(rt, program, port),
        Role::Echo => echo(rt, alloc, table, port),
    }
}
