//! The header line and the file at the start of a byte string.

ghost use Rattle.std.specs.Prelude.{◌≡◌, ◌≤◌, ◌<◌, ℕ, MatchOption, IfSome, IfNone};
ghost use Rattle.mrpc_table.specs.Lines.{in_64_bits};
ghost use Rattle.proto_set.specs.BundleFaults.{HasNoHeader};
ghost use Rattle.proto_set.specs.Named.{file_of};
ghost use Rattle.proto_set.specs.ReaderParts.{HasHeader, HasFile, HasNoFile};

use crate::named::Named;
use mrpc_table::{Decimal, number_of, split_once};

// The first bytes of a header line.
const FILE: &[u8] = b"file ";

// A header line, and the bytes after it.
#[derive(Clone, Copy)]
struct FileHeader<'a> {
    path: &'a [u8],
    // The stated number of bytes of the file.
    size: Decimal,
    behind: &'a [u8],
}

// The file at the start of the bytes, and the bytes after it. `None` if there is no header line, or fewer bytes
// follow than it states.
pub(crate) fn first_file(bytes: &[u8]) -> Option<(Named<'_>, &[u8])>
    ensures found { IfSome result (λ f. HasFile bytes.now (file_of f.0) f.1.now) }
    ensures none { IfNone result (HasNoFile bytes.now) }
{
    let header = first_header(bytes)?;
    let size = within(header.size, header.behind.len())?;
    let file = Named {
        path: header.path,
        text: &header.behind[..size],
    };
    Some((file, &header.behind[size..]))
}

fn first_header(bytes: &[u8]) -> Option<FileHeader<'_>>
    ensures found { IfSome result (λ h. HasHeader bytes.now h.path.now h.size h.behind.now) }
    ensures none { IfNone result (HasNoHeader bytes.now) }
{
    let (line, behind) = split_once(bytes, b'\n')?;
    let words = line.strip_prefix(FILE)?;
    let (path, size) = split_once(words, b' ')?;
    if path.is_empty() {
        return None;
    }
    let size = number_of(size)?;
    Some(FileHeader { path, size, behind })
}

// The count as a number of bytes, if that many are available.
fn within(count: Decimal, bytes: usize) -> Option<usize>
    ensures { (n : ℕ) → count ≡ in_64_bits n → MatchOption result (bytes < n) (λ size. (size ≡ n) × (n ≤ bytes)) }
{
    match count {
        Decimal::Small(number) if number <= bytes as u64 => Some(number as usize),
        _ => None,
    }
}
