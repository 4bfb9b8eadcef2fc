//! Laws of graphs in words. The functions have no effect: each clause is a law.

ghost use Rattle.std.specs.Prelude.{◌≡◌, ◌≢◌, ◌<◌, ◌≤◌, ◌^◌, ℕ, List, [], ◌∷◌, ◌++◌, length};
ghost use Rattle.mrpc_table.specs.Normal.{IsNormal};
ghost use Rattle.mrpc_table.specs.Valid.{IsValid};
ghost use Rattle.mrpc_table.specs.declared.table.Table.{Table};
ghost use Rattle.graph_form.specs.Roles.{WordRole, Expected, node_words, size_words};
ghost use Rattle.graph_form.specs.Placed.{Placed, loads, IsSpanInHeap, IsPlaced, AreSound, IsSound};
ghost use Rattle.graph_form.specs.Forgotten.{tree_of};
ghost use Rattle.graph_form.specs.Loading.{AreExpectedAfter};
ghost use Rattle.graph_form.specs.Malformed.{IsInvalidFirst, IsMalformed, GraphOutcome, HasOutcome, AreReadBy};
ghost use Rattle.graph_form.specs.declared.reason.Reason.{Reason};
ghost use Rattle.graph_form.specs.declared.reason.Reason.TheVariants.{Loads, NoMethod};

use mrpc_table::kept_entries_are_normal;

/// The type, the address and the loads determine a placed tree.
pub fn loads_determine_placed_tree()
    ensures { (T : Table) (H msg address : ℕ) (P Q : Placed) → IsPlaced T H (node_words T msg 1 address) P
        → IsPlaced T H (node_words T msg 1 address) Q → loads P ≡ loads Q → P ≡ Q }
{}

/// The loads of sound words lead through all of their expected words.
pub fn sound_words_are_loaded()
    ensures { (T : Table) (H : ℕ) (es next : Expected) (P : Placed) → AreSound T H es P
        → AreExpectedAfter T H (es ++ next) (loads P) next }
{}

/// A graph is malformed in two cases. Either its loads lead to an invalid word, or the limit is reached and one more
/// word is expected.
pub fn loads_end_malformed()
    ensures offence { (T : Table) (H msg address limit : ℕ) (xs : List (ℕ × ℕ)) (e : WordRole × ℕ) (rest : Expected)
        (v : ℕ) (reason : Reason)
        → IsSpanInHeap H address (size_words T msg) → AreExpectedAfter T H (node_words T msg 1 address) xs (e ∷ rest)
        → length xs < limit → v < 2 ^ 64
        → IsInvalidFirst T H e.0 v reason → IsMalformed T H msg address limit (xs ++ (e.1, v) ∷ []) reason e.1 v }
    ensures limit { (T : Table) (H msg address limit : ℕ) (xs : List (ℕ × ℕ)) (x : ℕ × ℕ) (e : WordRole × ℕ)
        (rest : Expected)
        → IsSpanInHeap H address (size_words T msg) → AreExpectedAfter T H (node_words T msg 1 address) (xs ++ x ∷ []) (e ∷ rest)
        → length (xs ++ x ∷ []) ≡ limit → IsMalformed T H msg address limit (xs ++ x ∷ []) Loads x.0 x.1 }
{}

/// At most `limit` words of a malformed graph were loaded, and the reason is never `NoMethod`.
pub fn malformed_graphs_are_within_limit()
    ensures loads { (T : Table) (H msg address limit : ℕ) (xs : List (ℕ × ℕ)) (reason : Reason) (place value : ℕ)
        → IsMalformed T H msg address limit xs reason place value → length xs ≤ limit }
    ensures reason { (T : Table) (H msg address limit : ℕ) (xs : List (ℕ × ℕ)) (reason : Reason) (place value : ℕ)
        → IsMalformed T H msg address limit xs reason place value → reason ≢ NoMethod }
{}

/// The values that are read determine which words of a graph are loaded, and the outcome: its tree, or the reason why
/// the graph is malformed.
pub fn reading_determines_outcome()
    ensures { (T : Table) (H msg address limit : ℕ) (reading : ℕ → ℕ → ℕ) (xs ys : List (ℕ × ℕ)) (o q : GraphOutcome)
        → AreReadBy reading 1 xs → AreReadBy reading 1 ys → HasOutcome T H msg address limit xs o
        → HasOutcome T H msg address limit ys q
        → (xs ≡ ys) × (o ≡ q) }
{}

/// The tree of a sound placed tree is in normal form.
pub fn sound_tree_is_normal()
    ensures { (T : Table) (H msg address : ℕ) (P : Placed) → IsValid T → IsSound T H msg address P
        → IsNormal T msg (tree_of T msg P) }
{
    kept_entries_are_normal();
}
