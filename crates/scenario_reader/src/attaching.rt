//! The initial chain of an application's connection.

ghost use Rattle.std.specs.Prelude.{◌≡◌, ℕ, List, IfOk, MatchResult, map};
ghost use Rattle.engine_core.specs.declared.op.Op.{Op};
ghost use Rattle.run_plan.specs.Chains.{empty_chain};
ghost use Rattle.scenario_reader.specs.Walking.{AreOpsOf, IsRefusedFor, IsWalkedTo};

use crate::walk::named_in;
use engine_core::{change_or_rejection, change_preserves_chain};
use mrpc_table::{Decimal, Memory};
use policy_declarations::Declarations;
use scenario::ScenarioReason;
use scenario_entries::ChainOutline;
use std::alloc::Global;

// The chain after the declared policies with these names are attached, each under its own name, or the reason of the
// first refusal.
pub(crate) fn attach_all<'a>(
    alloc: Global,
    declared: &'a Declarations,
    names: &[&'a [u8]],
) -> Result<Result<ChainOutline<'a>, ScenarioReason>, Memory>
    ensures { (ops : List Op) → AreOpsOf declared.now 0 (map (λ n. n.now) names.now) ops
        → IfOk result (λ r. MatchResult r (λ chain. IsWalkedTo empty_chain ops chain.entries.items)
        (IsRefusedFor empty_chain ops)) }
{
    change_or_rejection();
    change_preserves_chain();
    let mut chain = ChainOutline::new(alloc);
    let mut at = 0;
    for name in names {
        let Some(named) = named_in(declared, name) else {
            return Ok(Err(ScenarioReason::Unknown));
        };
        if let Some(reason) = chain.attach(Decimal::Small(at), name, &named.policy)? {
            return Ok(Err(reason));
        }
        at += 1;
    }
    Ok(Ok(chain))
}
