//! The lines for what is unfinished at the end of a run.

ghost use Rattle.std.specs.Prelude.{◌≡◌, ◌≢◌, [], ◌∷◌, ◌++◌, OnOk};
ghost use Rattle.std.specs.Fmt.{decimal};
ghost use Rattle.mrpc_table.specs.Lines.{after_spaces};
ghost use Rattle.mrpc_table.specs.Text.{line};
ghost use Rattle.run_report.specs.Lines.{cut_words, fault_words, not_held_words, short_words, waits_words};

use frame_transport::FeedFault;
use mrpc_table::{Bytes, Memory};

/// Appends `notheld CONN BLOCK`: the application gave back a block that the connection doesn't hold. The only error
/// is `Memory`.
pub fn append_not_held(out: &mut Bytes, conn: u32, block: u64) -> Result<(), Memory>
    ensures { OnOk result (out.new ≡ out.old ++ line (not_held_words conn block)) }
{
    out.append_row(b"notheld", &[u64::from(conn), block])?;
    out.push(b'\n')
}

/// Appends `cut CONN PLACE REASON`: the stream has a frame fault at this offset, counted from the first byte of the
/// link. The only error is `Memory`.
pub fn append_cut(out: &mut Bytes, conn: u32, fault: FeedFault) -> Result<(), Memory>
    requires { fault ≢ FeedFault.Memory }
    ensures { OnOk result (out.new ≡ out.old ++ line (cut_words conn fault)) }
{
    out.append_row(b"cut", &[u64::from(conn)])?;
    append_fault(out, fault)?;
    out.push(b'\n')
}

/// Appends `cut CONN PLACE Short`: the stream ended inside the frame that starts at this offset. The only error is
/// `Memory`.
pub fn append_short(out: &mut Bytes, conn: u32, place: u64) -> Result<(), Memory>
    ensures { OnOk result (out.new ≡ out.old ++ line (short_words conn place)) }
{
    out.append_row(b"cut", &[u64::from(conn), place])?;
    out.append_spaced(b"Short")?;
    out.push(b'\n')
}

/// Appends `waits CONN KIND METHOD NUMBER`: a whole frame had no fate. The only error is `Memory`.
pub fn append_waits(
    out: &mut Bytes,
    conn: u32,
    kind: u8,
    method: u16,
    number: u32,
) -> Result<(), Memory>
    ensures { OnOk result (out.new ≡ out.old ++ line (waits_words conn kind method number)) }
{
    let numbers = [
        u64::from(conn),
        u64::from(kind),
        u64::from(method),
        u64::from(number),
    ];
    out.append_row(b"waits", &numbers)?;
    out.push(b'\n')
}

// Appends the offset of a frame fault and its word, each after a space.
pub(crate) fn append_fault(out: &mut Bytes, fault: FeedFault) -> Result<(), Memory>
    requires { fault ≢ FeedFault.Memory }
    ensures { OnOk result (out.new ≡ out.old ++ after_spaces (fault_words fault)) }
{
    match fault {
        FeedFault::Version { place, .. } => append_offset(out, place, b"Version"),
        FeedFault::Kind { place, .. } => append_offset(out, place, b"Kind"),
        FeedFault::TooLong { place, .. } => append_offset(out, place, b"TooLong"),
        FeedFault::Memory => unreachable!(),
    }
}

// Appends a number and a word, each after a space.
fn append_offset(out: &mut Bytes, place: u64, word: &[u8]) -> Result<(), Memory>
    ensures { OnOk result (out.new ≡ out.old ++ after_spaces (decimal place ∷ word.now ∷ [])) }
{
    out.append_word(place)?;
    out.append_spaced(word)
}
