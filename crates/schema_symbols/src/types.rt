//! The types in scopes.

ghost use Rattle.std.specs.Prelude.{◌≡◌, [], ℕ, List, OnOk, length};
ghost use Rattle.schema_symbols.specs.Numbers.{AreWellNested};
ghost use Rattle.schema_symbols.specs.Types.{declared_in, IsFirstKept, HasAddedType, KnowsTypes};

use crate::children::Children;
use crate::scope_indices::ScopeIndices;
use crate::symbol::{DeclaredType, Symbol};
use mrpc_table::Memory;
use std::alloc::Global;

// For each name in a scope, the first declaration of each file that declares a type by that name.
#[derive(Drop)]
pub(crate) struct DeclaredTypes<'a> {
    by: Children<'a, Vec<DeclaredType>>,
}

// Keeps the first declaration of a file.
fn keep_first(all: &mut Vec<DeclaredType>, declared: DeclaredType) -> Result<(), Memory>
    ensures { OnOk result (IsFirstKept all.old.items all.new.items declared) }
{
    for i in 0..all.len() {
        let known = all[i];
        if known.file == declared.file {
            if declared.start < known.start {
                all[i] = declared;
            }
            return Ok(());
        }
    }
    all.push(declared)?;
    Ok(())
}

impl<'a> DeclaredTypes<'a> {
    // An empty map.
    pub(crate) fn new(alloc: Global) -> DeclaredTypes<'a>
        ensures { (scope : ℕ) (name : List ℕ) → declared_in result scope name ≡ [] }
    {
        DeclaredTypes {
            by: Children::new(alloc),
        }
    }

    // The first declarations of a name in a scope, one for each file that declares it.
    pub(crate) fn get(&self, scope: usize, name: &'a [u8]) -> &[DeclaredType]
        ensures { result.now ≡ declared_in self.now scope name.now }
    {
        match self.by.get(scope, name) {
            Some(all) => all.as_slice(),
            None => &[],
        }
    }

    // Adds a declaration of a name in a scope.
    pub(crate) fn add(
        &mut self,
        alloc: Global,
        scope: usize,
        name: &'a [u8],
        declared: DeclaredType,
    ) -> Result<(), Memory>
        ensures { OnOk result (HasAddedType (declared_in self.old) (declared_in self.new) scope name.now declared) }
    {
        let mut all = self.by.remove(scope, name).unwrap_or(Vec::new(alloc));
        keep_first(&mut all, declared)?;
        self.by.insert(scope, name, all)
    }
}

// Adds the messages of files to their types.
pub(crate) fn add_messages<'a>(
    alloc: Global,
    places: &ScopeIndices<'a>,
    types: &mut DeclaredTypes<'a>,
) -> Result<(), Memory>
    requires behind { AreWellNested places.now }
    requires types { KnowsTypes places.now 0 0 (declared_in types.old) }
    ensures { OnOk result (KnowsTypes places.now (length places.now.messages) 0 (declared_in types.new)) }
{
    let messages = places.messages();
    for i in 0..messages.len() {
        let message = &messages[i];
        let declared = DeclaredType {
            file: message.file,
            start: message.name.span.start,
            named: Symbol::Message(i),
        };
        let outer = places.number(message.enclosing());
        types.add(alloc, outer, message.name.name.as_slice(), declared)?;
    }
    Ok(())
}

// Adds the enums of files to their types.
pub(crate) fn add_enums<'a>(
    alloc: Global,
    places: &ScopeIndices<'a>,
    types: &mut DeclaredTypes<'a>,
) -> Result<(), Memory>
    requires behind { AreWellNested places.now }
    requires types { KnowsTypes places.now (length places.now.messages) 0 (declared_in types.old) }
    ensures { OnOk result (KnowsTypes places.now (length places.now.messages) (length places.now.enums)
        (declared_in types.new)) }
{
    let enums = places.enums();
    for i in 0..enums.len() {
        let choices = &enums[i];
        let declared = DeclaredType {
            file: choices.file,
            start: choices.name.span.start,
            named: Symbol::Enum(i),
        };
        let outer = places.number(choices.enclosing());
        types.add(alloc, outer, choices.name.name.as_slice(), declared)?;
    }
    Ok(())
}
