//! The files that a file sees.

ghost use Rattle.std.specs.Prelude.{◌≡◌, ◌<◌, ◌↔◌, ℕ, [], true, false, Some, All, Contains, slice_get, length, replicate, IfOk, OnOk};
ghost use Rattle.std.specs.List.{AllZip};
ghost use Rattle.mrpc_table.specs.Valid.{IsAscendingBy};
ghost use Rattle.proto_set.specs.Reaching.{HaveDistinctPaths, AreVisible};
ghost use Rattle.proto_set.specs.Seeing.{HasSeenMore, IsLinked, IsLinkedPublicly};

use crate::links::{Graph, ImportLink};
use mrpc_table::{Memory, Sequence};
use proto_ast::FileIndices;
use std::alloc::Global;

// The files that are seen so far.
#[derive(Drop)]
pub(crate) struct SeenFiles {
    // For each file of the set, true if it is seen.
    pub marks: Vec<bool>,
    // Seen files whose public imports aren't followed yet.
    pub next: Vec<usize>,
}

fn all_unseen(alloc: Global, count: usize) -> Result<Vec<bool>, Memory>
    ensures { IfOk result (λ v. v.items ≡ replicate count false) }
{
    let mut marks = Vec::with_capacity(alloc, count)?;
    for _ in 0..count {
        marks.push(false)?;
    }
    Ok(marks)
}

impl SeenFiles {
    fn new(alloc: Global, count: usize) -> Result<SeenFiles, Memory>
        ensures marks { IfOk result (λ s. s.marks.items ≡ replicate count false) }
        ensures next { IfOk result (λ s. s.next.items ≡ []) }
    {
        let marks = all_unseen(alloc, count)?;
        let next = Vec::new(alloc);
        Ok(SeenFiles { marks, next })
    }

    // Marks a file as seen.
    fn see(&mut self, file: usize) -> Result<(), Memory>
        requires { file < length self.old.marks.items }
        ensures { OnOk result (HasSeenMore (λ i. i ≡ file) self.old self.new) }
    {
        if !self.marks[file] {
            self.next.push(file)?;
            self.marks[file] = true;
        }
        Ok(())
    }

    // Marks the files that a file's imports lead to.
    fn see_imports(&mut self, links: &[ImportLink]) -> Result<(), Memory>
        requires { All (λ l. l.file < length self.old.marks.items) links.now }
        ensures { OnOk result (HasSeenMore (IsLinked links.now) self.old self.new) }
    {
        for link in links {
            self.see(link.file)?;
        }
        Ok(())
    }

    // Marks the files that a file's public imports lead to.
    fn see_public(&mut self, links: &[ImportLink]) -> Result<(), Memory>
        requires { All (λ l. l.file < length self.old.marks.items) links.now }
        ensures { OnOk result (HasSeenMore (IsLinkedPublicly links.now) self.old self.new) }
    {
        for link in links {
            if link.public {
                self.see(link.file)?;
            }
        }
        Ok(())
    }
}

// The marked files, by ascending index.
fn marked(alloc: Global, marks: &[bool]) -> Result<FileIndices, Memory>
    ensures those { IfOk result (λ v. (i : ℕ) → Contains v i ↔ (slice_get marks.now i ≡ Some true)) }
    ensures ascend { IfOk result (λ v. IsAscendingBy ◌<◌ v) }
{
    let mut places = FileIndices::new(alloc);
    for i in 0..marks.len() {
        if marks[i] {
            places.push(i)?;
        }
    }
    Ok(places)
}

// The files that a file sees.
fn seen_from(alloc: Global, graph: &Graph, file: usize) -> Result<FileIndices, Memory>
    requires here { file < length graph.now }
    requires own { HaveDistinctPaths graph.now }
    ensures { IfOk result (AreVisible graph.now file) }
{
    let mut seen = SeenFiles::new(alloc, graph.len())?;
    seen.see(file)?;
    seen.see_imports(graph.links(file))?;
    while let Some(next) = seen.next.pop() {
        seen.see_public(graph.links(next))?;
    }
    marked(alloc, &seen.marks)
}

// The files that each of some files sees.
pub(crate) fn all_seen(
    alloc: Global,
    graph: &Graph,
    files: &[usize],
) -> Result<Sequence<FileIndices>, Memory>
    requires here { All (λ i. i < length graph.now) files.now }
    requires own { HaveDistinctPaths graph.now }
    ensures { IfOk result (λ all. AllZip (AreVisible graph.now) files.now all) }
{
    let mut all = Sequence::with_room(alloc, files.len())?;
    for file in files {
        let seen = seen_from(alloc, graph, *file)?;
        all.push(seen)?;
    }
    Ok(all)
}
