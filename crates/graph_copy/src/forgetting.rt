//! The tree of a message in a heap.

ghost use Rattle.std.specs.Prelude.{◌≡◌, ℕ, IfOk};
ghost use Rattle.mrpc_table.specs.Valid.{IsValid};
ghost use Rattle.graph_form.specs.Placed.{Placed as PlacedTree};
ghost use Rattle.graph_form.specs.Forgotten.{tree_of};
ghost use Rattle.graph_form.specs.Stored.{AreWordsOf};

use crate::build::make_tree;
use graph_form::Placed;
use mrpc_table::{Memory, Table, Tree};
use std::alloc::Global;

/// The tree of a placed message of type `msg` (its index in the table): its values without their places, in normal
/// form. The words must be those of a sound placed tree of that message, in a heap of any size. The only error is
/// `Memory`.
pub fn forget(alloc: Global, placed: &Placed, table: &Table, msg: u32) -> Result<Tree, Memory>
    requires valid { IsValid table.now }
    requires sound { (H : ℕ) × (P : PlacedTree) × AreWordsOf table.now H msg P placed.now }
    ensures { IfOk result (λ tree. (H : ℕ) (P : PlacedTree) → AreWordsOf table.now H msg P placed.now
        → tree ≡ tree_of table.now msg P) }
{
    make_tree(alloc, table, msg, placed.words.as_slice())
}
