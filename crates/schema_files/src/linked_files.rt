//! The files that the first one of a set reaches, ready to be joined.

ghost use Rattle.std.specs.Prelude.{◌≡◌, ◌<◌, ℕ, List, Some, None, All, IfOk, length, map, slice_get, slice_set};
ghost use Rattle.proto_set.specs.Named.{files_of};
ghost use Rattle.proto_set.specs.Reaching.{IsReach};
ghost use Rattle.mrpc_table.specs.Valid.{AreDistinct};
ghost use Rattle.schema_files.specs.Joined.{AreReadAs, AreLinkedFiles};
ghost use Rattle.schema_files.specs.Placing.{AreOrderIndices, AreSomeIndices};

use mrpc_table::Memory;
use proto_ast::{File, FileIndices};
use proto_set::{ImportClosure, LinkedFile, Named, ParsedFile};
use std::alloc::Global;

// The contents of the files of a set.
fn files_in(alloc: Global, members: Vec<ParsedFile>) -> Result<Vec<Option<File>>, Memory>
    ensures { IfOk result (λ v. v.items ≡ map (λ m. Some m.file) members.items) }
{
    let mut files = Vec::with_capacity(alloc, members.len())?;
    for member in members {
        let ParsedFile { path: _, file } = member;
        files.push(Some(file))?;
    }
    Ok(files)
}

// Takes the contents of the file with an index; a later call finds none.
fn take_file(files: &mut Vec<Option<File>>, place: usize) -> Option<File>
    requires { place < length files.old.items }
    ensures value { slice_get files.old.items place ≡ Some result }
    ensures after { files.new.items ≡ slice_set files.old.items place None }
{
    files[place].take()
}

// A vector of this many zeros.
fn zeros(alloc: Global, count: usize) -> Result<Vec<usize>, Memory>
    ensures { IfOk result (λ v. length v.items ≡ count) }
{
    let mut places = Vec::with_capacity(alloc, count)?;
    for _ in 0..count {
        places.push(0)?;
    }
    Ok(places)
}

// The index of each file in an order.
fn places_in(alloc: Global, order: &[usize], count: usize) -> Result<Vec<usize>, Memory>
    requires within { All (λ i. i < count) order.now }
    requires distinct { AreDistinct order.now }
    ensures { IfOk result (λ v. AreOrderIndices order.now count v.items) }
{
    let mut places = zeros(alloc, count)?;
    for place in 0..order.len() {
        places[order[place]] = place;
    }
    Ok(places)
}

// The indices of some of the files.
fn placed(alloc: Global, some: &[usize], places: &[usize]) -> Result<FileIndices, Memory>
    requires { All (λ i. i < length places.now) some.now }
    ensures { IfOk result (AreSomeIndices places.now some.now) }
{
    let mut all = FileIndices::with_room(alloc, some.len())?;
    for i in some {
        all.push(places[*i])?;
    }
    Ok(all)
}

// The files that the first one of a set reaches, ready to be joined: the declarations of each, the files that it
// sees, and the size of its text. The declarations are moved.
pub(crate) fn linked_files_of(
    alloc: Global,
    files: &[Named<'_>],
    members: Vec<ParsedFile>,
    reach: &ImportClosure,
) -> Result<Vec<LinkedFile>, Memory>
    requires some { 0 < length files.now }
    requires read { AreReadAs (files_of files.now) members.items }
    requires reached { IsReach members.items reach.now }
    ensures { IfOk result (λ v. AreLinkedFiles (files_of files.now) members.items reach.now v.items) }
{
    let order = reach.order.as_slice();
    let seen = reach.sees.as_slice();
    let places = places_in(alloc, order, files.len())?;
    let mut left = files_in(alloc, members)?;
    let mut parts = Vec::with_capacity(alloc, order.len())?;
    for k in 0..order.len() {
        let i = order[k];
        let sees = placed(alloc, seen[k].as_slice(), places.as_slice())?;
        let file = take_file(&mut left, i).unwrap();
        let size = files[i].text.len();
        parts.push(LinkedFile { file, sees, size })?;
    }
    Ok(parts)
}
