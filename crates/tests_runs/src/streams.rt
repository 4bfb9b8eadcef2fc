//! The bytes that a peer sends.
ghost use Rattle.run_plan.specs.Plans.{IsPlan};

use frame_transport::frame;
use mrpc_table::is_full_name;
use run_plan::Plan;
use schema_binding::hello;
use std::alloc::Global;
use std::process::Abort;

// The most bytes of a payload.
pub(crate) const MAX_PAYLOAD: usize = 262_144;

// The hello of connection 2 with the table of the plan and a version.
pub(crate) fn hello_of(rt: &impl Abort, alloc: Global, plan: &Plan, version: u8) -> Vec<u8>
    requires { IsPlan plan.now }
{
    assert!(rt; is_full_name(plan.service.as_slice()));
    let frame = hello(alloc, 2, &plan.table, &plan.service).expect(rt, "memory");
    let mut bytes = frame.as_slice().to_vec(alloc).expect(rt, "memory");
    assert!(rt; bytes.len() > 5);
    bytes[5] = version;
    bytes
}

// Appends a request of method 0.
pub(crate) fn push_request(
    rt: &impl Abort,
    alloc: Global,
    bytes: &mut Vec<u8>,
    number: u32,
    payload: &[u8],
) {
    assert!(rt; payload.len() <= MAX_PAYLOAD);
    let request = frame(alloc, 1, 0, 2, number, payload).expect(rt, "memory");
    bytes
        .extend_from_slice(request.as_slice())
        .expect(rt, "memory");
}

// A message in field 2 of a message, and so on, 33 in all; the last one is empty.
pub(crate) fn nested(rt: &impl Abort, alloc: Global) -> Vec<u8> {
    let mut bytes = Vec::new(alloc);
    for inner in 0..32_u8 {
        bytes.push(18).expect(rt, "memory");
        bytes.push(62 - 2 * inner).expect(rt, "memory");
    }
    bytes
}

// The longest payload, of zeros.
pub(crate) fn longest(rt: &impl Abort, alloc: Global) -> Vec<u8> {
    let mut bytes = Vec::new(alloc);
    for _ in 0..MAX_PAYLOAD {
        bytes.push(0).expect(rt, "memory");
    }
    bytes
}
