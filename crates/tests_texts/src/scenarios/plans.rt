//! The defaults of a scenario.

use crate::discard;
use run_plan::{Application, Plan, Role};
use scenario_reader::read_scenario;
use std::process::Abort;

const SCENARIO: &[u8] = b"mrpc = 1\nservice = \"S\"\nschema = 'syntax = \"proto3\";\
    message M { uint64 a = 1; } service S { rpc Get (M) returns (M); }'\n\
    app = [{conn = 1, role = \"client\", program = [\"submit 0 2\"]}, {conn = 2, role = \"echo\"}]\n\
    link = [{a = 1, b = 2}]\n";

fn has_defaults(rt: &impl Abort, plan: &Plan) {
    assert!(rt; plan.loads == 1024);
    assert!(rt; plan.workers == 2);
    assert!(rt; !plan.weighted);
    let applications = plan.applications.as_slice();
    assert!(rt; applications.len() == 2);
    is_client_by_default(rt, &applications[0]);
}

fn is_client_by_default(rt: &impl Abort, client: &Application) {
    assert!(rt; matches!(client.role, Role::Client(_)));
    assert!(rt; client.heap == 64);
    assert!(rt; client.receive == 1024);
    assert!(rt; client.ring == 4);
    assert!(rt; client.weight == 1);
    assert!(rt; client.own.is_none());
}

// No command prints these numbers.
#[test]
fn numbers_that_a_scenario_leaves_out_have_their_defaults(rt: HostRuntime) {
    let plan = read_scenario(rt.alloc(), SCENARIO)
        .ok()
        .expect(&rt, "a plan");
    has_defaults(&rt, &plan);
    discard(plan);
}
