//! The lines of counts. Their format is this project's own.

ghost use Rattle.std.specs.Prelude.{◌≡◌, ◌==◌, if◌then◌else◌, [], ◌++◌, OnOk};
ghost use Rattle.telemetry.specs.Totals.{count_words, method_counts_line, totals_line};

use crate::counts::Counts;
use mrpc_table::{Bytes, Memory};

// Appends the line of a method's counts, or nothing if no call of it was accepted. The only error is `Memory`.
pub(crate) fn put_method(out: &mut Bytes, method: u16, counts: Counts) -> Result<(), Memory>
    ensures { OnOk result (out.new ≡ out.old ++ (if counts.took == 0 then [] else method_counts_line method counts)) }
{
    if counts.took == 0 {
        return Ok(());
    }
    out.append(b"method")?;
    out.append_word(u64::from(method))?;
    put_counts(out, counts)?;
    out.append(b"\n")
}

// Appends the line of the counts over all methods. The only error is `Memory`.
pub(crate) fn put_totals(out: &mut Bytes, counts: Counts) -> Result<(), Memory>
    ensures { OnOk result (out.new ≡ out.old ++ totals_line counts) }
{
    out.append(b"totals")?;
    put_counts(out, counts)?;
    out.append(b"\n")
}

// Appends four counts as words of a line, each after a space.
fn put_counts(out: &mut Bytes, counts: Counts) -> Result<(), Memory>
    ensures { OnOk result (out.new ≡ out.old ++ count_words counts) }
{
    out.append_word(counts.took)?;
    out.append_word(counts.sent)?;
    out.append_word(counts.refused)?;
    out.append_word(counts.standing)
}
