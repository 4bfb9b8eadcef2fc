//! Checks of an attachment.

ghost use Rattle.std.specs.Prelude.{◌≡◌, ◌<◌, ◌≤◌, ℕ, List, IfErr, IfOk, IsSomeAnd, OnOk, length, map};
ghost use Rattle.engine_core.specs.Chains.{IsReasonToReject, Refusal, IsRejection};
ghost use Rattle.engine_core.specs.declared.policy.Policy.{Policy};
ghost use Rattle.engine_core.specs.declared.op.Op.{Op};
ghost use Rattle.chain_upgrade.specs.Chains.{refusal_in};

use crate::fault::ChainFault;
use engine_core::{Engine, MAX_ENGINES, position_of};
use mrpc_table::Name;

// Returns the name if there is no reason to reject an attachment.
pub(crate) fn may_attach(engines: &[Engine], at: u32, name: Name) -> Result<Name, ChainFault>
    requires { length engines.now ≤ 8 }
    ensures refused { IfErr result (λ fault. (attached : ℕ) (label : List ℕ) (policy : Policy)
        → IsSomeAnd (refusal_in fault) (λ refusal. IsRejection
        (record { entries = map (λ e. e.entry) engines.now; attached = attached })
        (Op.Attach at name label policy) refusal)) }
    ensures free { OnOk result ((label : List ℕ) (policy : Policy) (refusal : Refusal)
        → IsReasonToReject (map (λ e. e.entry) engines.now) (Op.Attach at name label policy) refusal → ⊥) }
    ensures room { OnOk result ((at ≤ length engines.now) × (length engines.now < 8)) }
    ensures name { IfOk result (λ n. n ≡ name) }
{
    if position_of(engines, &name).is_some() {
        return Err(ChainFault::Taken { name });
    }
    if at as usize > engines.len() {
        return Err(ChainFault::At { position: at });
    }
    if engines.len() == MAX_ENGINES {
        return Err(ChainFault::ChainFull {
            engines: engines.len() as u32,
        });
    }
    Ok(name)
}
