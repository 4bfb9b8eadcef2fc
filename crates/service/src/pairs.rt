//! Lists that have two items of each pair.

ghost use Rattle.std.specs.Prelude.{◌≡◌, [], ◌∷◌, ◌++◌, OnOk};

use mrpc_table::Memory;

// Appends the two items of a pair.
pub(crate) fn push_pair<X: Drop>(xs: &mut Vec<X>, first: X, second: X) -> Result<(), Memory>
    ensures { OnOk result (xs.new.items ≡ xs.old.items ++ first ∷ second ∷ []) }
{
    xs.push(first)?;
    xs.push(second)?;
    Ok(())
}
