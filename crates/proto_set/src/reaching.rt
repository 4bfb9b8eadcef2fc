//! The files that the root of a set reaches.

ghost use Rattle.std.specs.Prelude.{◌<◌, ◌≤◌, length, IfOk, IfErr, OnOk};
ghost use Rattle.proto_set.specs.ImportFaults.{HasNoFault, IsFaultOf};
ghost use Rattle.proto_set.specs.Reaching.{HaveDistinctPaths, IsReach};

use crate::import_fault::{ImportFault, ImportReason};
use crate::links::{Graph, check_missing, fault_at};
use crate::paths::Paths;
use crate::resolution_order::resolution_order;
use crate::seen::all_seen;
use crate::set::{ImportClosure, ParsedFile};
use crate::traversal::{TraversalResult, visit_root};
use mrpc_table::MAX_FILES;
use std::alloc::Global;

/// Returns the files that the first one of a set reaches, in the order in which they are resolved, and the files
/// visible to each. The error is the first fault of the set's imports, or `Memory` if it runs out of memory. Takes
/// time by the number of imports, each with the length of its path.
pub fn reach(alloc: Global, members: &[ParsedFile]) -> Result<ImportClosure, ImportFault>
    requires some { 0 < length members.now }
    requires few { length members.now ≤ MAX_FILES }
    requires distinct { HaveDistinctPaths members.now }
    // The result is the import closure of the first file.
    ensures reach { IfOk result (IsReach members.now) }
    // On success no import of the set is at fault.
    ensures sound { OnOk result (HasNoFault members.now) }
    // A fault is the set's first one.
    ensures fault { IfErr result (IsFaultOf members.now) }
{
    let paths = Paths::new(alloc, members)?;
    check_missing(members, &paths)?;
    let graph = Graph::new(alloc, members, &paths)?;
    match visit_root(alloc, &graph)? {
        TraversalResult::Ring(frame) => Err(fault_at(
            members,
            ImportReason::Cycle,
            frame.file,
            frame.next,
        )),
        TraversalResult::Left(marks) => {
            let order = resolution_order(alloc, members, &marks)?;
            let sees = all_seen(alloc, &graph, order.as_slice())?;
            Ok(ImportClosure { order, sees })
        }
    }
}
