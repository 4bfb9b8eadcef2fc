//! The law of an unmodified graph. The function has no effect; its clause is the law.

ghost use Rattle.std.specs.Prelude.{◌≡◌, ◌≤◌, ℕ, List, length};
ghost use Rattle.mrpc_base.specs.Heap.{AreLoads};
ghost use Rattle.mrpc_table.specs.declared.table.Table.{Table};
ghost use Rattle.graph_form.specs.Forgotten.{tree_of};
ghost use Rattle.graph_form.specs.Malformed.{GraphOutcome, copied, HasOutcome};
ghost use Rattle.graph_form.specs.Placed.{Placed, loads, IsSound};
ghost use Rattle.shared_heap.specs.Fresh.{Reading, AfterLoad, IsPrefix};
ghost use Rattle.stable_copy.specs.Unmodified.{IsUnmodifiedSince};

use graph_form::reading_determines_outcome;

/// A reader made loads at an address, and they have an outcome. A sound graph within the limit lay there after some
/// first stores, all of which the reader knew before, and no later store of the writer's list goes to it. Then the
/// loads are those of that graph, and the outcome is a copy of its tree.
pub fn unmodified_graph_is_copied()
    ensures { (T : Table) (msg address limit after : ℕ) (old new : Reading) (own all : List (ℕ × ℕ)) (P : Placed)
        (outcome : GraphOutcome)
        → AreLoads AfterLoad old own new → HasOutcome T old.heap.words msg address limit own outcome
        → IsPrefix all new.known → after ≤ length old.known
        → IsSound T old.heap.words msg address P → length (loads P) ≤ limit → IsUnmodifiedSince all after P
        → (own ≡ loads P) × (outcome ≡ copied (tree_of T msg P)) }
{
    reading_determines_outcome();
}
