//! Names with their indices, in an ordered map.

ghost use Rattle.std.specs.Prelude.{◌≡◌, ◌++◌, ◌∷◌, ℕ, List, [], length, option_map, if◌then◌else◌, OnOk};
ghost use Rattle.std.specs.Option.{option_or};
ghost use Rattle.std.specs.Str.{bytes_eq};
ghost use Rattle.table_text.specs.LineTests.{is_among, is_empty};
ghost use Rattle.table_text.specs.NameIndex.{index_from, capped_index, index_or_next, index_in, AreNames};

use mrpc_table::Memory;
use std::alloc::Global;
use std::collections::BTreeMap;

// Names in the order in which they were added, each with its first index.
#[derive(Drop)]
pub(crate) struct NameIndex {
    places: BTreeMap<Vec<u8>, u32>,
    count: u32,
}

impl NameIndex {
    // No names.
    pub(crate) fn new(alloc: Global) -> NameIndex
        ensures { AreNames result [] }
    {
        NameIndex {
            places: BTreeMap::new(alloc),
            count: 0,
        }
    }

    // Whether there is no name.
    pub(crate) fn is_empty(&self) -> bool
        ensures { (names : List (List ℕ)) → AreNames self.now names → result ≡ is_empty names }
    {
        self.count == 0
    }

    // The first index of a name.
    pub(crate) fn index_of(&self, name: &[u8]) -> Option<u32>
        ensures { (names : List (List ℕ)) → AreNames self.now names
            → result ≡ option_map capped_index (index_from 0 name.now names) }
    {
        self.found(name)
    }

    fn found(&self, name: &[u8]) -> Option<u32>
        ensures { result ≡ index_in self.now name.now }
    {
        self.places.get(name).copied()
    }

    // Whether the name is one of these.
    pub(crate) fn contains(&self, name: &[u8]) -> bool
        ensures { (names : List (List ℕ)) → AreNames self.now names → result ≡ is_among name.now names }
    {
        self.index_of(name).is_some()
    }

    // The index that a name has, or would get next.
    pub(crate) fn index_or_next(&self, name: &[u8]) -> u32
        ensures { (names : List (List ℕ)) → AreNames self.now names → result ≡ index_or_next name.now names }
    {
        match self.found(name) {
            Some(place) => place,
            None => self.count,
        }
    }

    // Adds a name at the end.
    pub(crate) fn add(&mut self, alloc: Global, name: &[u8]) -> Result<(), Memory>
        ensures { (names : List (List ℕ)) → AreNames self.old names
            → OnOk result (AreNames self.new (names ++ name.now ∷ [])) }
    {
        self.keep(alloc, name)?;
        self.count = self.count.saturating_add(1);
        Ok(())
    }

    // Gives a new name the next index.
    fn keep(&mut self, alloc: Global, name: &[u8]) -> Result<(), Memory>
        ensures places { OnOk result ((q : List ℕ) → index_in self.new q
            ≡ option_or (index_in self.old q) (if bytes_eq q name.now then Some self.old.count else None)) }
        ensures count { self.new.count ≡ self.old.count }
    {
        if self.found(name).is_some() {
            return Ok(());
        }
        self.places
            .insert(Vec::from_slice(alloc, name)?, self.count)?;
        Ok(())
    }
}
