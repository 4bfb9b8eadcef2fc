//! Laws of the imports of a set. The functions have no effect: each clause is a law.

ghost use Rattle.std.specs.Prelude.{◌≡◌, ℕ, ◌<◌, List, length};
ghost use Rattle.proto_ast.specs.declared.file.Span.{Span};
ghost use Rattle.proto_set.specs.Importing.{IsImport, IsReachable, IsInCycle};
ghost use Rattle.proto_set.specs.Visiting.{TraversalOutcome, leaves, at_cycle, IsRootVisit};
ghost use Rattle.proto_set.specs.ImportFaults.{HasImportFault};
ghost use Rattle.proto_set.specs.Reaching.{HaveDistinctPaths, IsReach};
ghost use Rattle.proto_set.specs.declared.set.ParsedFile.{ParsedFile};
ghost use Rattle.proto_set.specs.declared.set.ImportClosure.{ImportClosure};
ghost use Rattle.proto_set.specs.declared.import_fault.ImportReason.{ImportReason};

/// Visiting the root has at most one outcome.
pub fn visit_outcome_is_unique()
    ensures { (set : List ParsedFile) (o p : TraversalOutcome) → HaveDistinctPaths set → IsRootVisit set o → IsRootVisit set p → o ≡ p }
{}

/// A reported cycle exists. If none is reported and no two files have the same path, the root reaches no cycle.
pub fn reported_cycle_exists()
    // The reported import leads from a file that the root reaches to a file that reaches it.
    ensures named { (set : List ParsedFile) (i n : ℕ) → IsRootVisit set (at_cycle i n)
        → IsReachable set 0 i × ((j : ℕ) × IsImport set i n j × IsReachable set j i) }
    // If none is reported, no file that the root reaches reaches itself by one or more imports.
    ensures none { (set : List ParsedFile) (left : List ℕ) (i : ℕ) → HaveDistinctPaths set → IsRootVisit set (leaves left)
        → IsReachable set 0 i → IsInCycle set i → ⊥ }
{}

/// A set has at most one first fault: two of them have the same reason, file and span.
pub fn import_fault_is_unique()
    ensures { (set : List ParsedFile) (q r : ImportReason) (i j : ℕ) (s t : Span) → HasImportFault set q i s → HasImportFault set r j t
        → (q ≡ r) × (i ≡ j) × (s ≡ t) }
{}

/// A set has at most one import closure: two of them are equal.
pub fn import_closure_is_unique()
    ensures { (set : List ParsedFile) (a b : ImportClosure) → IsReach set a → IsReach set b → a ≡ b }
{}

/// A set never has both an import closure and a first fault. A nonempty set whose files have distinct paths has one
/// of the two.
pub fn import_closure_or_fault()
    ensures not_both { (set : List ParsedFile) (reach : ImportClosure) (q : ImportReason) (i : ℕ) (s : Span) → IsReach set reach
        → HasImportFault set q i s → ⊥ }
    ensures not_neither { (set : List ParsedFile) → 0 < length set → HaveDistinctPaths set
        → ((reach : ImportClosure) → IsReach set reach → ⊥)
        → ((q : ImportReason) (i : ℕ) (s : Span) → HasImportFault set q i s → ⊥) → ⊥ }
{}
