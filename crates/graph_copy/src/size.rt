//! How long the encoding of a copied graph can be.
//!
//! If at most 16384 words of a graph are loaded, its encoding has at most 16 bytes for each of them. So whoever
//! forwards it knows beforehand how much room it needs. The module has only the law below. `graph_form` defines what is
//! loaded of a graph, and which tree that is; `wire_base` defines how a tree is encoded.

ghost use Rattle.std.specs.Prelude.{ℕ, ◌*◌, ◌≤◌, length};
ghost use Rattle.mrpc_table.specs.Valid.{IsValid};
ghost use Rattle.mrpc_table.specs.declared.limits.TheConstants.{MAX_LOADS};
ghost use Rattle.mrpc_table.specs.declared.table.Table.{Table};
ghost use Rattle.wire_base.specs.Encoding.{encoding};
ghost use Rattle.graph_form.specs.Placed.{Placed, loads, IsSound};
ghost use Rattle.graph_form.specs.Forgotten.{tree_of};

use wire_base::varint_is_read_back;

/// The encoding of the tree of a sound graph has at most 16 bytes for each load, if there are at most 16384 loads.
/// The function has no effect; its clause is the law.
///
/// The proof shows that 15 is the exact bound: no such graph has more, and one load can be a ten-byte number with a
/// five-byte tag (`proofs/Rows.antt`).
pub fn copies_are_short()
    ensures { (T : Table) (H msg address : ℕ) (P : Placed) → IsValid T → IsSound T H msg address P
        → length (loads P) ≤ MAX_LOADS → length (encoding T msg (tree_of T msg P)) ≤ 16 * length (loads P) }
{
    varint_is_read_back();
}
