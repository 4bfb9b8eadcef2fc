//! A chain by itself, with a call and a policy.

ghost use Rattle.std.specs.Prelude.{◌≡◌, []};

use crate::discard;
use crate::given::{bytes_of, with_number};
use chain_upgrade::Chain;
use engine_core::{Policy, Standing};
use mrpc_table::Call;
use std::alloc::Global;
use std::process::Abort;

// A request, number 1.
fn request(rt: &impl Abort, alloc: Global) -> Standing
    ensures { result.marks ≡ [] }
{
    Standing::new(Call {
        conn: 1,
        seq: 1,
        method: 0,
        number: 0,
        tree: with_number(rt, alloc, 150),
    })
}

// A chain with a call, at whose position a policy is attached.
fn chain_of_one(rt: &impl Abort, alloc: Global) -> Chain {
    let mut chain = Chain::open(alloc).expect(rt, "memory");
    assert!(rt; chain.push(request(rt, alloc)).is_ok());
    let name = bytes_of(rt, alloc, b"c");
    assert!(rt; chain.attach(0, name, Policy::Count, 0).is_ok());
    chain
}

fn assert_pending(rt: &impl Abort, chain: &Chain) {
    assert!(rt; chain.calls().len() == 1);
    assert!(rt; chain.engines() == 1);
    assert!(rt; chain.cut(0) == 1);
    assert!(rt; chain.cut(1) == 0);
    assert!(rt; matches!(chain.standing(0), Some((1, 0))));
    assert!(rt; chain.standing(1).is_none());
}

#[test]
fn a_call_is_pending_at_the_policy_that_is_attached(rt: HostRuntime) {
    let chain = chain_of_one(&rt, rt.alloc());
    assert_pending(&rt, &chain);
    discard(chain);
}
