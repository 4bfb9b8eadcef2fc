//! The contents of scopes, by name.

ghost use Rattle.std.specs.Prelude.{◌≡◌, ℕ, List, Some, None, cond, OnOk};
ghost use Rattle.std.specs.Option.{option_copied};
ghost use Rattle.schema_symbols.specs.Children.{child, same_child};

use mrpc_table::Memory;
use std::alloc::Global;
use std::collections::BTreeMap;

// Values by the number of a scope and a name in it.
#[derive(Drop)]
pub(crate) struct Children<'a, V> {
    by: BTreeMap<(usize, &'a [u8]), V>,
}

impl<'a, V: Drop> Children<'a, V> {
    // An empty map.
    pub(crate) fn new(alloc: Global) -> Children<'a, V>
        ensures { (scope : ℕ) (name : List ℕ) → child result scope name ≡ None }
    {
        Children {
            by: BTreeMap::new(alloc),
        }
    }

    // The value of a name in a scope.
    pub(crate) fn get(&self, scope: usize, name: &'a [u8]) -> Option<&V>
        ensures { option_copied result ≡ child self.now scope name.now }
    {
        self.by.get(&(scope, name))
    }

    // Sets the value of a name in a scope.
    pub(crate) fn insert(&mut self, scope: usize, name: &'a [u8], value: V) -> Result<(), Memory>
        ensures { OnOk result ((k : ℕ) (other : List ℕ)
            → child self.new k other ≡ cond (same_child scope name.now k other) (Some value) (child self.old k other)) }
    {
        self.by.insert((scope, name), value)?;
        Ok(())
    }

    // Removes the value of a name in a scope, and returns it.
    pub(crate) fn remove(&mut self, scope: usize, name: &'a [u8]) -> Option<V>
        ensures value { result ≡ child self.old scope name.now }
        ensures others { (k : ℕ) (other : List ℕ)
            → child self.new k other ≡ cond (same_child scope name.now k other) None (child self.old k other) }
    {
        self.by.remove(&(scope, name))
    }
}
