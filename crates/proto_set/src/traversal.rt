//! A depth-first traversal of the files of a set.

ghost use Rattle.std.specs.Prelude.{◌≡◌, ◌<◌, ◌+◌, ◌^◌, ◌++◌, ◌∷◌, [], length, replicate, slice_set, IfOk, OnOk};
ghost use Rattle.proto_set.specs.Traversing.{first_frame, IsFollowStep, IsTraversalResult};

use crate::links::{Graph, ImportLink};
use mrpc_table::Memory;
use std::alloc::Global;

// The progress of a file's visit.
#[derive(Clone, Copy)]
pub(crate) enum VisitState {
    New,
    Visiting,
    Left,
}

// A file that is being visited, and the index of its next import.
#[derive(Clone, Copy)]
pub(crate) struct VisitFrame {
    pub file: usize,
    pub next: usize,
}

// A depth-first traversal.
#[derive(Drop)]
pub(crate) struct Traversal {
    // The files that are being visited, the innermost last.
    pub frames: Vec<VisitFrame>,
    // The progress of each file of the set.
    pub marks: Vec<VisitState>,
}

// This many files that aren't visited yet.
fn all_new(alloc: Global, count: usize) -> Result<Vec<VisitState>, Memory>
    ensures { IfOk result (λ v. v.items ≡ replicate count VisitState.New) }
{
    let mut marks = Vec::with_capacity(alloc, count)?;
    for _ in 0..count {
        marks.push(VisitState::New)?;
    }
    Ok(marks)
}

impl Traversal {
    // Starts to visit a file.
    fn enter(&mut self, file: usize) -> Result<(), Memory>
        requires { file < length self.old.marks.items }
        ensures frames { OnOk result (self.new.frames.items ≡ self.old.frames.items ++ first_frame file ∷ []) }
        ensures marks { OnOk result (self.new.marks.items ≡ slice_set self.old.marks.items file VisitState.Visiting) }
    {
        self.frames.push(VisitFrame { file, next: 0 })?;
        self.marks[file] = VisitState::Visiting;
        Ok(())
    }

    // A traversal that starts at the root, the first of this many files.
    fn new(alloc: Global, count: usize) -> Result<Traversal, Memory>
        requires { 0 < count }
        ensures frames { IfOk result (λ w. w.frames.items ≡ first_frame 0 ∷ []) }
        ensures marks { IfOk result (λ w. w.marks.items ≡ slice_set (replicate count VisitState.New) 0 VisitState.Visiting) }
    {
        let marks = all_new(alloc, count)?;
        let frames = Vec::new(alloc);
        let mut walk = Traversal { frames, marks };
        walk.enter(0)?;
        Ok(walk)
    }

    // Follows an import of the innermost file, whose frame was popped. Returns true if the import closes a cycle.
    fn follow(&mut self, frame: VisitFrame, link: ImportLink) -> Result<bool, Memory>
        requires here { link.file < length self.old.marks.items }
        requires more { frame.next + 1 < 2 ^ 64 }
        ensures { IfOk result (λ r. IsFollowStep self.old frame link r self.new) }
    {
        self.frames.push(VisitFrame {
            file: frame.file,
            next: frame.next + 1,
        })?;
        match self.marks[link.file] {
            VisitState::New => {
                self.enter(link.file)?;
                Ok(false)
            }
            VisitState::Visiting => Ok(true),
            VisitState::Left => Ok(false),
        }
    }
}

// The result of a traversal.
#[derive(Drop)]
pub(crate) enum TraversalResult {
    // The files marked `Left` are the finished ones.
    Left(Vec<VisitState>),
    // The next import of a file closes a cycle.
    Ring(VisitFrame),
}

// Visits the root.
pub(crate) fn visit_root(alloc: Global, graph: &Graph) -> Result<TraversalResult, Memory>
    requires { 0 < length graph.now }
    ensures { IfOk result (IsTraversalResult graph.now) }
{
    let mut walk = Traversal::new(alloc, graph.len())?;
    while let Some(frame) = walk.frames.pop() {
        match graph.links(frame.file).get(frame.next) {
            None => walk.marks[frame.file] = VisitState::Left,
            Some(link) => {
                if walk.follow(frame, *link)? {
                    return Ok(TraversalResult::Ring(frame));
                }
            }
        }
    }
    Ok(TraversalResult::Left(walk.marks))
}
