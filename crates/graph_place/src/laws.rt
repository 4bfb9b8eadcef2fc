//! Laws of placed messages. The functions have no effect: each clause is a law.

ghost use Rattle.std.specs.Prelude.{◌≡◌, ◌≤◌, ◌++◌, ℕ, List, All, length};
ghost use Rattle.mrpc_base.specs.Heap.{word_after};
ghost use Rattle.mrpc_table.specs.Node.{Node};
ghost use Rattle.mrpc_table.specs.declared.table.Table.{Table};
ghost use Rattle.graph_form.specs.Placed.{Placed, loads, IsSound};
ghost use Rattle.graph_form.specs.Forgotten.{tree_of};
ghost use Rattle.graph_form.specs.Malformed.{GraphOutcome, copied, HasOutcome, AreReadBy};
ghost use Rattle.graph_place.specs.Stored.{HaveDistinctPlaces};

use graph_form::reading_determines_outcome;

/// If words are the last ones stored, and no two have the same place, each of their places holds its word.
pub fn stored_words_are_found()
    ensures { (stores words : List (ℕ × ℕ)) → HaveDistinctPlaces words
        → All (λ word. word_after (stores ++ words) word.0 ≡ word.1) words }
{}

/// A reader that finds the words of a placed message at their places copies its tree. Given: loads from an address,
/// each with the value that its place has, and their outcome, within a limit of at least as many loads as the message
/// has. Then the loads are exactly those of the placed message, and the outcome is a copy of its tree.
pub fn placed_message_is_copied()
    ensures { (T : Table) (H msg address limit : ℕ) (P : Placed) (t : Node) (reading : ℕ → ℕ) (own : List (ℕ × ℕ))
        (outcome : GraphOutcome)
        → IsSound T H msg address P → tree_of T msg P ≡ t → All (λ word. reading word.0 ≡ word.1) (loads P)
        → length (loads P) ≤ limit
        → AreReadBy (λ k place. reading place) 1 own → HasOutcome T H msg address limit own outcome
        → (own ≡ loads P) × (outcome ≡ copied t) }
{
    reading_determines_outcome();
}
