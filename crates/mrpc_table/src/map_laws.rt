//! Laws of the entries that `last_of_each` keeps. The function does nothing; its clauses are the laws.

ghost use Rattle.std.specs.Prelude.{◌≡◌, ◌≢◌, ◌≤◌, ℕ, List, ◌∷◌};
ghost use Rattle.std.specs.List.{AllByRecursion};
ghost use Rattle.mrpc_table.specs.Node.{Item, no_pairs};
ghost use Rattle.mrpc_table.specs.Normal.{IsItem, ArePairs, AreKeysAscending, item_depth, pairs_depth};
ghost use Rattle.mrpc_table.specs.declared.table.Kind.{Kind};
ghost use Rattle.mrpc_table.specs.declared.table.Kind.TheVariants.{Message};
ghost use Rattle.mrpc_table.specs.declared.table.Table.{Table};
ghost use Rattle.mrpc_table.specs.MapEntries.{last_of_each};

/// The kept entries are in normal form if each key and each value is.
pub fn kept_entries_are_normal()
    ensures kinds { (T : Table) (key k : Kind) (es : List (Item × Item))
        → AllByRecursion (λ e. IsItem T key e.0 × IsItem T k e.1) es
        → ArePairs T key k (last_of_each key es) }
    // The keys ascend, unless they are messages.
    ensures ascend { (T : Table) (key k : Kind) (es : List (Item × Item)) → ((i : ℕ) → key ≢ Message i)
        → AllByRecursion (λ e. IsItem T key e.0 × IsItem T k e.1) es → AreKeysAscending key (last_of_each key es) }
    ensures depth { (key : Kind) (room : ℕ) (es : List (Item × Item))
        → AllByRecursion (λ e. (item_depth e.0 ≤ room) × (item_depth e.1 ≤ room)) es
        → pairs_depth (last_of_each key es) ≤ room }
    ensures some { (key : Kind) (e : Item × Item) (es : List (Item × Item)) → last_of_each key (e ∷ es) ≢ no_pairs }
{}
