//! The lines of entries: that of a scalar, and the two around the entries of a message.

ghost use Rattle.std.specs.Prelude.{◌≡◌, ◌+◌, ◌++◌, IfOk, OnOk};
ghost use Rattle.text_format.specs.Lines.{indent, scalar_prefix, opening, closing};

use mrpc_table::{Bytes, Memory};

// The depth inside one more message.
pub(crate) fn deeper(deep: usize) -> Result<usize, Memory>
    ensures { IfOk result (λ inner. inner ≡ deep + 1) }
{
    match deep.checked_add(1) {
        Some(inner) => Ok(inner),
        None => Err(Memory),
    }
}

// Appends what precedes the value of a scalar.
pub(crate) fn put_scalar_prefix(out: &mut Bytes, name: &[u8], deep: usize) -> Result<(), Memory>
    ensures { OnOk result (out.new ≡ out.old ++ scalar_prefix deep name.now) }
{
    put_indent(out, deep)?;
    out.append(name)?;
    out.append(b": ")
}

// Appends the line before the entries of a message.
pub(crate) fn put_opening(out: &mut Bytes, name: &[u8], deep: usize) -> Result<(), Memory>
    ensures { OnOk result (out.new ≡ out.old ++ opening deep name.now) }
{
    put_indent(out, deep)?;
    out.append(name)?;
    out.append(b" {\n")
}

// Appends the line after them.
pub(crate) fn put_closing(out: &mut Bytes, deep: usize) -> Result<(), Memory>
    ensures { OnOk result (out.new ≡ out.old ++ closing deep) }
{
    put_indent(out, deep)?;
    out.append(b"}\n")
}

// Appends two blanks for each enclosing message.
fn put_indent(out: &mut Bytes, deep: usize) -> Result<(), Memory>
    ensures { OnOk result (out.new ≡ out.old ++ indent deep) }
{
    for level in 0..deep {
        out.append(b"  ")?;
    }
    Ok(())
}
