//! Lines of numbers that parts print.

use mrpc_table::{Bytes, Memory};
use std::alloc::Global;

// A line of numbers; `None` if it ran out of memory.
pub(crate) fn line_of(alloc: Global, numbers: &[u64]) -> Option<Bytes> {
    let mut line = Bytes::new(alloc);
    put_line(&mut line, numbers).ok()?;
    Some(line)
}

// Appends a line of numbers.
pub(crate) fn put_line(lines: &mut Bytes, numbers: &[u64]) -> Result<(), Memory> {
    if let [first, behind @ ..] = numbers {
        lines.append_decimal(*first)?;
        for number in behind {
            lines.append_word(*number)?;
        }
    }
    lines.append(b"\n")
}
