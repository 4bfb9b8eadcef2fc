//! The files of a set by path.

ghost use Rattle.std.specs.Prelude.{◌≡◌, IfOk};
ghost use Rattle.proto_set.specs.Linking.{index_of_path, KnowsPaths};

use crate::set::ParsedFile;
use mrpc_table::Memory;
use std::alloc::Global;
use std::collections::BTreeMap;

// The indices of a set's files, by path.
#[derive(Drop)]
pub(crate) struct Paths<'a> {
    by: BTreeMap<&'a [u8], usize>,
}

impl<'a> Paths<'a> {
    // The files of a set by path.
    pub(crate) fn new(alloc: Global, members: &'a [ParsedFile]) -> Result<Paths<'a>, Memory>
        ensures { IfOk result (KnowsPaths members.now) }
    {
        let mut by = BTreeMap::new(alloc);
        for i in 0..members.len() {
            by.insert(members[i].path.as_slice(), i)?;
        }
        Ok(Paths { by })
    }

    // The index of the file that has a path.
    pub(crate) fn file_index(&self, path: &'a [u8]) -> Option<usize>
        ensures { result ≡ index_of_path self.now path.now }
    {
        self.by.get(&path).copied()
    }
}
