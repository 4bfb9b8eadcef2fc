//! The outline of a chain: the names of its entries, and the kinds of their policies.

ghost use Rattle.std.specs.Prelude.{◌≡◌, ◌<◌, ◌≤◌, [], length, insert, IfOk, OnOk};
ghost use Rattle.replay_script.specs.EntryKinds.{entry_kind_of, is_kind, has_entry, has_other_entry, without, attach_position, check_detach, check_upgrade, engine_in};

use engine_core::{MAX_ENGINES, Policy};
use mrpc_table::{Decimal, Memory, Name};
use script_grammar::ScriptReason;
use std::alloc::Global;
use std::marker::Model;

// The kind of a policy. For quotas the tenant is part of it.
#[derive(Clone, Copy)]
pub(crate) enum EntryKind {
    Access,
    Rate,
    Quota { tenant: u32 },
    Count,
    Redact,
}

// An entry of a chain.
#[derive(Drop)]
pub(crate) struct EntryOutline {
    pub name: Name,
    pub kind: EntryKind,
}

// The entries of a chain, in order, at most 8.
#[derive(Drop)]
pub(crate) struct EntryOutlines {
    links: Vec<EntryOutline>,
}

impl Model for EntryOutlines {
    ghost use Rattle.std.specs.Prelude.{◌≤◌, List, length};
    ghost use Rattle.replay_script.specs.declared.chain.EntryOutline.{EntryOutline};

    ghost Value = { List EntryOutline };

    ghost view = { λ l. l.links.items };

    ghost invariant = { λ l. length l.links.items ≤ 8 };
}

impl EntryKind {
    // The kind of a policy.
    pub(crate) fn of(policy: &Policy) -> EntryKind
        ensures { result ≡ entry_kind_of policy.now }
    {
        match policy {
            Policy::Access(_) => EntryKind::Access,
            Policy::Rate(_) => EntryKind::Rate,
            Policy::Quota { tenant, .. } => EntryKind::Quota { tenant: *tenant },
            Policy::Count => EntryKind::Count,
            Policy::Redact(_) => EntryKind::Redact,
        }
    }

    fn is(self, other: EntryKind) -> bool
        ensures { result ≡ is_kind self other }
    {
        match self {
            EntryKind::Access => matches!(other, EntryKind::Access),
            EntryKind::Rate => matches!(other, EntryKind::Rate),
            EntryKind::Quota { tenant: ours } => {
                matches!(other, EntryKind::Quota { tenant: theirs } if ours == theirs)
            }
            EntryKind::Count => matches!(other, EntryKind::Count),
            EntryKind::Redact => matches!(other, EntryKind::Redact),
        }
    }
}

impl EntryOutlines {
    // A chain without entries.
    pub(crate) fn new(alloc: Global) -> EntryOutlines
        ensures { result ≡ [] }
    {
        EntryOutlines {
            links: Vec::new(alloc),
        }
    }

    // Returns true if an entry has the name.
    fn has(&self, name: &[u8]) -> bool
        ensures { result ≡ has_entry name.now self.now }
    {
        self.links.iter().any(|link| link.name.as_slice() == name)
    }

    // Returns true if an entry has the name, and a policy of another kind.
    fn has_other(&self, name: &[u8], kind: EntryKind) -> bool
        ensures { result ≡ has_other_entry name.now kind self.now }
    {
        self.links
            .iter()
            .any(|link| link.name.as_slice() == name && !link.kind.is(kind))
    }

    // Returns the position at which a policy is attached, or the reason why it can't be.
    pub(crate) fn attach_position(&self, at: Decimal, name: &[u8]) -> Result<u32, ScriptReason>
        ensures { result ≡ attach_position self.now at name.now }
    {
        if self.has(name) {
            return Err(ScriptReason::Taken);
        }
        let count = self.links.len();
        match at {
            Decimal::Small(at) if at <= count as u64 => {
                if count >= MAX_ENGINES {
                    Err(ScriptReason::ChainFull)
                } else {
                    Ok(at as u32)
                }
            }
            _ => Err(ScriptReason::At),
        }
    }

    // Fails with a reason if the entry of a name can't be detached.
    pub(crate) fn check_detach(&self, name: &[u8]) -> Result<(), ScriptReason>
        ensures { result ≡ check_detach self.now name.now }
    {
        if self.has(name) {
            Ok(())
        } else {
            Err(ScriptReason::NoSuch)
        }
    }

    // Fails with a reason if the entry of a name can't get a policy of a kind.
    pub(crate) fn check_upgrade(&self, name: &[u8], kind: EntryKind) -> Result<(), ScriptReason>
        ensures { result ≡ check_upgrade self.now name.now kind }
    {
        if !self.has(name) {
            Err(ScriptReason::NoSuch)
        } else if self.has_other(name, kind) {
            Err(ScriptReason::OtherKind)
        } else {
            Ok(())
        }
    }

    // Returns the position if there is an engine.
    pub(crate) fn engine(&self, at: Decimal) -> Result<u32, ScriptReason>
        ensures { result ≡ engine_in self.now at }
    {
        match at {
            Decimal::Small(at) if at < self.links.len() as u64 => Ok(at as u32),
            _ => Err(ScriptReason::At),
        }
    }

    // Inserts an entry at a position.
    pub(crate) fn attach(&mut self, at: usize, link: EntryOutline) -> Result<(), Memory>
        requires place { at ≤ length self.old }
        requires room { length self.old < 8 }
        ensures { OnOk result (self.new ≡ insert self.old at link) }
    {
        self.links.insert(at, link)?;
        Ok(())
    }

    // Removes the entries of a name.
    pub(crate) fn detach(&mut self, name: &[u8])
        ensures { self.new ≡ without name.now self.old }
    {
        self.links.retain(|link| link.name.as_slice() != name);
    }
}
