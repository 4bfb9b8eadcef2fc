//! The order in which reached files are resolved.

ghost use Rattle.std.specs.Prelude.{◌≡◌, ◌↔◌, ◌<◌, length, IsTrue, IfOk};
ghost use Rattle.proto_set.specs.Reaching.{HaveDistinctPaths, IsResolutionOrder, AreOthers};
ghost use Rattle.proto_set.specs.Traversing.{AreReached};

use crate::set::ParsedFile;
use crate::traversal::VisitState;
use mrpc_table::Memory;
use proto_ast::FileIndices;
use std::alloc::Global;

// True if the visit of a file is finished.
fn is_visit_finished(mark: VisitState) -> bool
    ensures { IsTrue result ↔ (mark ≡ VisitState.Left) }
{
    matches!(mark, VisitState::Left)
}

// The paths and indices of the reached files except the root, by ascending path.
fn by_path<'a>(
    alloc: Global,
    members: &'a [ParsedFile],
    marks: &[VisitState],
) -> Result<Vec<(&'a [u8], usize)>, Memory>
    requires count { length marks.now ≡ length members.now }
    requires own { HaveDistinctPaths members.now }
    ensures { IfOk result (λ v. AreOthers members.now marks.now v.items) }
{
    let mut pairs = Vec::new(alloc);
    for i in 1..members.len() {
        if is_visit_finished(marks[i]) {
            pairs.push((members[i].path.as_slice(), i))?;
        }
    }
    pairs.sort()?;
    Ok(pairs)
}

// The root, followed by the other reached files by ascending path.
pub(crate) fn resolution_order(
    alloc: Global,
    members: &[ParsedFile],
    marks: &[VisitState],
) -> Result<FileIndices, Memory>
    requires some { 0 < length members.now }
    requires own { HaveDistinctPaths members.now }
    requires count { length marks.now ≡ length members.now }
    requires reached { AreReached members.now marks.now }
    ensures { IfOk result (IsResolutionOrder members.now) }
{
    let pairs = by_path(alloc, members, marks)?;
    let mut order = FileIndices::new(alloc);
    order.push(0)?;
    for pair in &pairs {
        order.push(pair.1)?;
    }
    Ok(order)
}
