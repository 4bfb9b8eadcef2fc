//! Sorts fields by number.

ghost use Rattle.std.specs.Prelude.{◌≡◌, IfOk, IsTrue};
ghost use Rattle.mrpc_table.specs.Node.{no_fields};
ghost use Rattle.mrpc_table.specs.View.{node_of};
ghost use Rattle.graph_copy.specs.Makes.{insert_all};

use mrpc_table::{Memory, Numbered};

// The fields by ascending number. Only oneof members can be out of order.
pub(crate) fn in_order(fields: Numbered) -> Result<Numbered, Memory>
    ensures { IfOk result (λ sorted. node_of sorted.items ≡ insert_all fields.items no_fields) }
{
    if ascends(&fields) {
        return Ok(fields);
    }
    let mut sorted = fields;
    sorted.reverse();
    sorted.sort_by_key(|field| field.0)?;
    Ok(sorted)
}

// Whether each number is above the one before it.
fn ascends(fields: &Numbered) -> bool
    ensures { IsTrue result → node_of fields.now.items ≡ insert_all fields.now.items no_fields }
{
    let mut least = 0u64;
    for field in fields {
        if u64::from(field.0) < least {
            return false;
        }
        least = u64::from(field.0) + 1;
    }
    true
}
