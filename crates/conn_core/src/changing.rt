//! Changes of the chain, and of the list of operations that set the policies of its engines.

ghost use Rattle.std.specs.Prelude.{◌≡◌, ◌≢◌, ◌+◌, ◌<◌, ◌≤◌, ◌^◌, ℕ, All, List, IfErr, IsSomeAnd, OnErr, OnOk, insert, length, remove, set, vec_capacity};
ghost use Rattle.engine_core.specs.Chains.{IsRejection};
ghost use Rattle.engine_core.specs.Moves.{position_of as place_in};
ghost use Rattle.engine_core.specs.Policies.{IsPolicy};
ghost use Rattle.engine_core.specs.declared.op.Op.TheVariants.{Attach, Detach, Upgrade};
ghost use Rattle.chain_upgrade.specs.Chains.{chain_of_state, refusal_in};
ghost use Rattle.conn_core.specs.Invariant.{IsChanged, op_indices_after};
ghost use Rattle.conn_core.specs.ConnectionSteps.{IfPolicy};

use call_history::History;
use chain_upgrade::{Chain, ChainFault};
use engine_core::{Op, Policy};
use mrpc_table::{Memory, Name};
use std::alloc::Global;

// Reserves capacity for an operation, for `records` records, and for one more operation index.
pub(crate) fn reserve(
    history: &mut History,
    steps: &mut Vec<usize>,
    records: usize,
) -> Result<(), Memory>
    ensures room { OnOk result (records ≤ history.new.room) }
    ensures never_falls { history.old.room ≤ history.new.room }
    ensures step_room { OnOk result (1 ≤ history.new.step_room) }
    ensures place_room { OnOk result (length steps.new.items < vec_capacity steps.new) }
    ensures history_steps { history.new.steps ≡ history.old.steps }
    ensures happenings { history.new.happenings ≡ history.old.happenings }
    ensures steps { steps.new.items ≡ steps.old.items }
{
    history.reserve(records)?;
    history.reserve_step()?;
    Ok(steps.reserve(1)?)
}

// Applies an operation to the chain at a timestamp; `place` is its index among the operations. `steps` has, by
// position, the index of the operation that set each engine's policy, and capacity for one more. After an error
// both are unchanged.
pub(crate) fn change(
    alloc: Global,
    chain: &mut Chain,
    steps: &mut Vec<usize>,
    step: &Op,
    place: usize,
    now: u64,
) -> Result<(), ChainFault>
    requires ranges { IfPolicy step.now IsPolicy }
    requires attachments { chain.old.attached + 1 < 2 ^ 32 }
    requires versions { All (λ e. e.entry.version + 1 < 2 ^ 32) chain.old.engines }
    requires aligned { length steps.old.items ≡ length chain.old.engines }
    requires room { length steps.old.items < vec_capacity steps.old }
    ensures refused { IfErr result (λ fault. fault ≢ ChainFault.Memory
        → IsSomeAnd (refusal_in fault) (IsRejection (chain_of_state chain.old) step.now)) }
    ensures as_before { OnErr result (chain.new ≡ chain.old) }
    ensures steps_as_before { OnErr result (steps.new.items ≡ steps.old.items) }
    ensures changed { OnOk result (IsChanged step.now now chain.old chain.new) }
    ensures steps { OnOk result (steps.new.items
        ≡ op_indices_after step.now (chain_of_state chain.old).entries place steps.old.items) }
{
    match step {
        Op::Attach {
            at,
            name,
            policy,
            ..
        } => attach(alloc, chain, steps, *at, name, policy, place, now),
        Op::Detach { name } => detach(alloc, chain, steps, name, now),
        Op::Upgrade { name, policy, .. } => {
            upgrade(alloc, chain, steps, name, policy, place, now)
        }
    }
}

fn attach(
    alloc: Global,
    chain: &mut Chain,
    steps: &mut Vec<usize>,
    at: u32,
    name: &Name,
    policy: &Policy,
    place: usize,
    now: u64,
) -> Result<(), ChainFault>
    requires ranges { IsPolicy policy.now }
    requires attachments { chain.old.attached + 1 < 2 ^ 32 }
    requires aligned { length steps.old.items ≡ length chain.old.engines }
    requires room { length steps.old.items < vec_capacity steps.old }
    ensures refused { IfErr result (λ fault. (label : List ℕ) → fault ≢ ChainFault.Memory
        → IsSomeAnd (refusal_in fault) (IsRejection (chain_of_state chain.old) (Attach at name.now label policy.now))) }
    ensures as_before { OnErr result (chain.new ≡ chain.old) }
    ensures steps_as_before { OnErr result (steps.new.items ≡ steps.old.items) }
    ensures changed { OnOk result ((label : List ℕ)
        → IsChanged (Attach at name.now label policy.now) now chain.old chain.new) }
    ensures steps { OnOk result (steps.new.items ≡ insert steps.old.items at place) }
{
    let (name, policy) = match (name.copied(alloc), policy.copied(alloc)) {
        (Ok(name), Ok(policy)) => (name, policy),
        _ => return Err(ChainFault::Memory),
    };
    chain.attach(at, name, policy, now)?;
    put(steps, at as usize, place);
    Ok(())
}

fn detach(
    alloc: Global,
    chain: &mut Chain,
    steps: &mut Vec<usize>,
    name: &Name,
    now: u64,
) -> Result<(), ChainFault>
    requires aligned { length steps.old.items ≡ length chain.old.engines }
    ensures refused { IfErr result (λ fault. fault ≢ ChainFault.Memory
        → IsSomeAnd (refusal_in fault) (IsRejection (chain_of_state chain.old) (Detach name.now))) }
    ensures as_before { OnErr result (chain.new ≡ chain.old) }
    ensures steps_as_before { OnErr result (steps.new.items ≡ steps.old.items) }
    ensures changed { OnOk result (IsChanged (Detach name.now) now chain.old chain.new) }
    ensures steps { OnOk result (steps.new.items
        ≡ remove steps.old.items (place_in name.now (chain_of_state chain.old).entries)) }
{
    let at = place_of(chain, name);
    let Ok(name) = name.copied(alloc) else {
        return Err(ChainFault::Memory);
    };
    chain.detach(name)?;
    let _ = steps.remove(at);
    Ok(())
}

fn upgrade(
    alloc: Global,
    chain: &mut Chain,
    steps: &mut Vec<usize>,
    name: &Name,
    policy: &Policy,
    place: usize,
    now: u64,
) -> Result<(), ChainFault>
    requires ranges { IsPolicy policy.now }
    requires versions { All (λ e. e.entry.version + 1 < 2 ^ 32) chain.old.engines }
    requires aligned { length steps.old.items ≡ length chain.old.engines }
    ensures refused { IfErr result (λ fault. (label : List ℕ) → fault ≢ ChainFault.Memory
        → IsSomeAnd (refusal_in fault) (IsRejection (chain_of_state chain.old) (Upgrade name.now label policy.now))) }
    ensures as_before { OnErr result (chain.new ≡ chain.old) }
    ensures steps_as_before { OnErr result (steps.new.items ≡ steps.old.items) }
    ensures changed { OnOk result ((label : List ℕ)
        → IsChanged (Upgrade name.now label policy.now) now chain.old chain.new) }
    ensures steps { OnOk result (steps.new.items
        ≡ set steps.old.items (place_in name.now (chain_of_state chain.old).entries) place) }
{
    let at = place_of(chain, name);
    let (name, policy) = match (name.copied(alloc), policy.copied(alloc)) {
        (Ok(name), Ok(policy)) => (name, policy),
        _ => return Err(ChainFault::Memory),
    };
    chain.upgrade(name, policy)?;
    steps[at] = place;
    Ok(())
}

// The position of the engine with a name, or the number of engines if there is none.
fn place_of(chain: &Chain, name: &Name) -> usize
    ensures { result ≡ place_in name.now (chain_of_state chain.now).entries }
{
    for at in 0..chain.engines() {
        if chain.engine(at).name().as_slice() == name.as_slice() {
            return at as usize;
        }
    }
    chain.engines() as usize
}

// Inserts the index of an operation at a position. There is capacity for it.
fn put(steps: &mut Vec<usize>, at: usize, place: usize)
    requires at { at ≤ length steps.old.items }
    requires room { length steps.old.items < vec_capacity steps.old }
    ensures { steps.new.items ≡ insert steps.old.items at place }
{
    match steps.insert(at, place) {
        Ok(()) => {}
        Err(_) => unreachable!(),
    }
}
