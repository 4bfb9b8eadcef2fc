//! Reserved names, long names, and names past a limit.

ghost use Rattle.std.specs.Prelude.{◌≡◌, ◌↔◌, ℕ, List, IsTrue, IfOk};
ghost use Rattle.proto_ast.specs.declared.file.Word.{Word};
ghost use Rattle.schema_validation.specs.Members.{IsLong, IsNameViolation};
ghost use Rattle.schema_validation.specs.Recording.{HasRecorded};
ghost use Rattle.schema_validation.specs.ReservedNames.{HasReservedNames, has_reserved_name};

use crate::first::FirstViolation;
use crate::reason::ResolveReason;
use mrpc_table::{Memory, is_short};
use proto_ast::{Word, Words};
use std::alloc::Global;
use std::collections::BTreeMap;

// A set of names.
#[derive(Drop)]
pub(crate) struct NameSet<'a> {
    names: BTreeMap<&'a [u8], ()>,
}

impl<'a> NameSet<'a> {
    // The names of these words.
    pub(crate) fn new(alloc: Global, words: &'a Words) -> Result<NameSet<'a>, Memory>
        ensures { IfOk result (HasReservedNames words.now) }
    {
        let mut names = BTreeMap::new(alloc);
        let all = words.as_slice();
        for i in 0..all.len() {
            names.insert(all[i].name.as_slice(), ())?;
        }
        Ok(NameSet { names })
    }

    fn has(&self, name: &'a [u8]) -> bool
        ensures { result ≡ has_reserved_name self.now name.now }
    {
        self.names.get(&name).is_some()
    }

    // Records the violations of a name in a list that has a limit.
    pub(crate) fn note_name(
        &self,
        i: usize,
        limit: usize,
        word: &'a Word,
        first: &mut FirstViolation,
    )
        ensures { (words : List Word) → HasReservedNames words self.now
            → HasRecorded (IsNameViolation words limit i word.now) first.old first.new }
    {
        let reserved = self.has(word.name.as_slice());
        first.note_if(reserved, ResolveReason::Reserved, word.span);
        note_long(word, first);
        first.note_if(i >= limit, ResolveReason::Limit, word.span);
    }
}

// Records a name of more than 64 bytes.
pub(crate) fn note_long(word: &Word, first: &mut FirstViolation)
    ensures { HasRecorded (IsLong word.now) first.old first.new }
{
    first.note_if(
        !is_short(word.name.as_slice()),
        ResolveReason::Limit,
        word.span,
    );
}
