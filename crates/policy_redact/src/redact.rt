//! A redacting policy after reading.

ghost use Rattle.std.specs.Prelude.{◌≡◌, ◌≢◌, ◌<◌, ◌≤◌, ◌↔◌, length, IsTrue, IfOk};
ghost use Rattle.std.specs.Bool.{OnTrue, OnFalse};
ghost use Rattle.mrpc_table.specs.Weight.{weight};

use crate::remove::remove_at;
use mrpc_table::{Call, CallKind, Memory, Path, Sequence, normal_ascends};
use std::alloc::Global;
use std::marker::Model;

/// A field to clear from the requests or the replies of a method.
pub struct Clear {
    /// The index of the method in the table.
    pub method: u16,
    /// Whether it is cleared from requests or from replies.
    pub sort: CallKind,
    /// The path of the field in a call's tree.
    pub path: Path,
}

// Written by hand, so that a drop is one call instead of one for each field.
impl Drop for Clear {
    fn drop(self) {
        let Clear {
            method: _,
            sort: _,
            path: _path,
        } = self;
    }
}

impl Clear {
    ghost use Rattle.std.specs.Prelude.{◌&&◌};
    ghost use Rattle.mrpc_table.specs.PathTrees.{IsAscendingTree};
    ghost use Rattle.policy_redact.specs.Without.{without};
    ghost use Rattle.policy_redact.specs.Redacting.{applies_to, is_at};

    fn applies_to(&self, call: &Call) -> bool
        ensures { result ≡ applies_to self.now call.now }
    {
        call.method == self.method && call.is_of(self.sort)
    }

    // Removes the field, if the call has the method and the kind. Returns whether the field was there.
    fn remove_from(&self, call: &mut Call) -> bool
        requires { IsAscendingTree call.old.tree }
        ensures left { call.new ≡
            record call.old { tree = without (λ path. applies_to self.now call.old && is_at self.now path) call.old.tree } }
        ensures smaller { OnTrue result (weight call.new.tree < weight call.old.tree) }
        ensures unchanged { OnFalse result (call.new ≡ call.old) }
    {
        if !self.applies_to(call) {
            return false;
        }
        remove_at(&mut call.tree, self.path.way.as_slice(), self.path.number)
    }

    fn copied(&self, alloc: Global) -> Result<Clear, Memory>
        ensures { IfOk result (λ c. c ≡ self.now) }
    {
        Ok(Clear {
            method: self.method,
            sort: self.sort,
            path: self.path.copied(alloc)?,
        })
    }
}

/// A redacting policy: 1 to 64 clears after reading. Clauses see their list.
pub struct Redact {
    clears: Sequence<Clear>,
}

// Written by hand, so that a drop is one call instead of one for each field.
impl Drop for Redact {
    fn drop(self) {
        let Redact { clears: _clears } = self;
    }
}

impl Model for Redact {
    ghost use Rattle.std.specs.Prelude.{List};
    ghost use Rattle.policy_redact.specs.declared.redact.Clear.{Clear as TheClear};

    ghost Value = { List TheClear };

    ghost view = { λ r. r.clears };
}

impl Redact {
    ghost use Rattle.mrpc_table.specs.declared.table.Table.{Table};
    ghost use Rattle.mrpc_table.specs.Calls.{IsCallOf};
    ghost use Rattle.policy_redact.specs.Redacting.{cleared_call, IsCallOfSomeTable};

    // The policy of these clears.
    pub(crate) fn new(clears: Vec<Clear>) -> Redact
        ensures { result ≡ clears.items }
    {
        Redact {
            clears: Sequence::from_vec(clears),
        }
    }

    /// Removes listed fields from the call's tree: the field at each path for calls of its method and kind, if each
    /// message on the way is set. Returns whether the tree changed.
    ///
    /// Each path takes time in proportion to the logarithm of the number of fields on its way, and to the fields of
    /// the message that loses one. It allocates nothing.
    pub fn clear(&self, call: &mut Call) -> bool
        requires { IsCallOfSomeTable call.old }
        // The tree is the old one without the fields at the listed paths, and nothing else changes.
        ensures left { call.new ≡ cleared_call self.now call.old }
        ensures changed { IsTrue result ↔ (call.new.tree ≢ call.old.tree) }
        ensures smaller { OnTrue result (weight call.new.tree < weight call.old.tree) }
        ensures unchanged { OnFalse result (call.new ≡ call.old) }
        ensures fits { (T : Table) → IsCallOf T call.old → IsCallOf T call.new }
    {
        normal_ascends();
        let mut changed = false;
        for clear in self.clears.as_slice() {
            changed |= clear.remove_from(call);
        }
        changed
    }

    /// An equal policy.
    pub fn copied(&self, alloc: Global) -> Result<Redact, Memory>
        ensures { IfOk result (λ r. r ≡ self.now) }
    {
        let clears = self.clears.as_slice();
        let mut copies = Vec::with_capacity(alloc, clears.len())?;
        for clear in clears {
            copies.push(clear.copied(alloc)?)?;
        }
        Ok(Redact::new(copies))
    }
}
