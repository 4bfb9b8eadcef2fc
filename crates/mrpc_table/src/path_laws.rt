//! Laws of the trees that paths lead into. These functions do nothing; their clauses are the laws.

ghost use Rattle.std.specs.Prelude.{ℕ};
ghost use Rattle.mrpc_table.specs.Node.{Node, AreNumbersAscending};
ghost use Rattle.mrpc_table.specs.Normal.{IsNormal};
ghost use Rattle.mrpc_table.specs.declared.table.Table.{Table};
ghost use Rattle.mrpc_table.specs.PathTrees.{IsAscendingTree};

/// The fields of a normal tree ascend, and so do those of the messages in it.
pub fn normal_ascends()
    ensures { (T : Table) (msg : ℕ) (t : Node) → IsNormal T msg t → IsAscendingTree t }
{}

/// If the fields of a tree and of its messages ascend, the tree is searchable by `content`.
pub fn numbers_ascend()
    ensures { (t : Node) → IsAscendingTree t → AreNumbersAscending 0 t }
{}
