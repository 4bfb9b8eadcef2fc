//! The chain of a connection, as operations change it.

ghost use Rattle.std.specs.Prelude.{◌≡◌, ◌<◌, ◌≤◌, [], ℕ, List, IfOk, IfSome, MatchOption, position};
ghost use Rattle.std.specs.Str.{bytes_eq};
ghost use Rattle.mrpc_table.specs.Lines.{in_64_bits};
ghost use Rattle.engine_core.specs.Chains.{Chain as TheChain, IsChain};
ghost use Rattle.engine_core.specs.declared.op.Op.TheVariants as op;
ghost use Rattle.scenario_entries.specs.ChainEntries.{IsChangeOrRefusal, AreEntriesOf};

use engine_core::{MAX_ENGINES, Policy};
use mrpc_table::{Decimal, Memory};
use scenario::ScenarioReason;
use std::alloc::Global;

// An entry, with the policy as read under the scenario's table.
#[derive(Clone, Copy)]
pub(crate) struct ChainEntry<'a> {
    name: &'a [u8],
    policy: &'a Policy,
}

/// The entries of a chain, in the order in which they judge.
#[derive(Drop)]
pub struct ChainOutline<'a> {
    entries: Vec<ChainEntry<'a>>,
}

// The position as an index into a chain with `entries` entries; `None` if it is out of range.
fn chain_position(position: Decimal, entries: usize) -> Option<usize>
    ensures place { (at : ℕ) → position ≡ in_64_bits at
        → MatchOption result (entries < at) (λ p. (p ≡ at) × (at ≤ entries)) }
    ensures within { IfSome result (λ p. p ≤ entries) }
{
    match position {
        Decimal::Small(position) => {
            if position <= entries as u64 {
                Some(position as usize)
            } else {
                None
            }
        }
        Decimal::Large => None,
    }
}

impl<'a> ChainOutline<'a> {
    /// An empty chain.
    pub fn new(alloc: Global) -> ChainOutline<'a>
        ensures { result.entries.items ≡ [] }
    {
        ChainOutline {
            entries: Vec::new(alloc),
        }
    }

    /// A copy of the chain.
    pub fn copied(&self, alloc: Global) -> Result<ChainOutline<'a>, Memory>
        ensures { IfOk result (λ chain. chain.entries.items ≡ self.now.entries.items) }
    {
        Ok(ChainOutline {
            entries: Vec::from_slice(alloc, self.entries.as_slice())?,
        })
    }

    // The position of the entry with a name.
    fn position(&self, name: &[u8]) -> Option<usize>
        ensures { result ≡ position (λ e. bytes_eq e.name.now name.now) self.now.entries.items }
    {
        self.entries.iter().position(|entry| entry.name == name)
    }

    /// Attaches a policy at a position. If the chain refuses it, returns the reason and leaves the chain unchanged.
    pub fn attach(
        &mut self,
        position: Decimal,
        name: &'a [u8],
        policy: &'a Policy,
    ) -> Result<Option<ScenarioReason>, Memory>
        ensures { (chain : TheChain) (at : ℕ) (label : List ℕ) → IsChain chain → AreEntriesOf self.old.entries.items chain
            → position ≡ in_64_bits at
            → IfOk result (IsChangeOrRefusal chain (op.Attach at name.entry.now label policy.entry.now) self.new.entries.items) }
    {
        if self.position(name).is_some() {
            return Ok(Some(ScenarioReason::Taken));
        }
        let count = self.entries.len();
        let Some(at) = chain_position(position, count) else {
            return Ok(Some(ScenarioReason::At));
        };
        if MAX_ENGINES <= count {
            return Ok(Some(ScenarioReason::ChainFull));
        }
        self.entries.insert(at, ChainEntry { name, policy })?;
        Ok(None)
    }

    /// Removes the entry with a name from the chain. If the chain refuses it, returns the reason and leaves the chain
    /// unchanged.
    pub fn detach(&mut self, name: &[u8]) -> Option<ScenarioReason>
        ensures { (chain : TheChain) → AreEntriesOf self.old.entries.items chain
            → IsChangeOrRefusal chain (op.Detach name.now) self.new.entries.items result }
    {
        match self.position(name) {
            None => Some(ScenarioReason::NoSuch),
            Some(place) => {
                self.entries.remove(place);
                None
            }
        }
    }

    /// Replaces the policy of the entry with a name. If the chain refuses it, returns the reason and leaves the chain
    /// unchanged.
    pub fn upgrade(&mut self, name: &[u8], policy: &'a Policy) -> Option<ScenarioReason>
        ensures { (chain : TheChain) (label : List ℕ) → IsChain chain → AreEntriesOf self.old.entries.items chain
            → IsChangeOrRefusal chain (op.Upgrade name.now label policy.entry.now) self.new.entries.items result }
    {
        match self.position(name) {
            None => Some(ScenarioReason::NoSuch),
            Some(place) => {
                let entry = self.entries[place];
                if !entry.policy.is_same_kind(policy) {
                    return Some(ScenarioReason::OtherKind);
                }
                self.entries[place] = ChainEntry {
                    name: entry.name,
                    policy,
                };
                None
            }
        }
    }
}
