//! The names of the rules so far.

ghost use Rattle.std.specs.Prelude.{◌≡◌, ◌++◌, ◌∷◌, ℕ, List, [], OnOk};
ghost use Rattle.policy_access.specs.Faults.{is_among};
ghost use Rattle.policy_access.specs.Names.{AreKnownNames};

use mrpc_table::Memory;
use std::alloc::Global;
use std::collections::BTreeMap;

// Names in an ordered map.
#[derive(Drop)]
pub(crate) struct SeenNames {
    names: BTreeMap<Vec<u8>, ()>,
}

impl SeenNames {
    // No names.
    pub(crate) fn new(alloc: Global) -> SeenNames
        ensures { AreKnownNames result [] }
    {
        SeenNames {
            names: BTreeMap::new(alloc),
        }
    }

    // Whether the name is among these.
    pub(crate) fn contains(&self, name: &[u8]) -> bool
        ensures { (names : List (List ℕ)) → AreKnownNames self.now names → result ≡ is_among name.now names }
    {
        self.names.contains_key(name)
    }

    // Adds a name.
    pub(crate) fn add(&mut self, alloc: Global, name: &[u8]) -> Result<(), Memory>
        ensures { (names : List (List ℕ)) → AreKnownNames self.old names
            → OnOk result (AreKnownNames self.new (names ++ name.now ∷ [])) }
    {
        self.names.insert(Vec::from_slice(alloc, name)?, ())?;
        Ok(())
    }
}
