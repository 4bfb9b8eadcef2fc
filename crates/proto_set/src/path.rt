//! The paths of files.

ghost use Rattle.std.specs.Prelude.{◌≡◌, ◌↔◌, IsTrue, IfSome, IfNone};
ghost use Rattle.std.specs.List.{list_all, list_any};
ghost use Rattle.std.specs.Str.{bytes_eq};
ghost use Rattle.proto_set.specs.Named.{files_of};
ghost use Rattle.proto_set.specs.Paths.{IsPath, HaveValidPaths, IsFirstRejected, is_path_byte};

use crate::limits::MAX_PATH;
use crate::named::Named;

/// True if a path is valid: 1 to 255 bytes, each a letter, a digit, `_`, `-`, `.` or `/`.
pub fn is_path(path: &[u8]) -> bool
    ensures { IsTrue result ↔ IsPath path.now }
{
    !path.is_empty() && path.len() <= MAX_PATH && are_path_bytes(path)
}

fn are_path_bytes(bytes: &[u8]) -> bool
    ensures { result ≡ list_all is_path_byte bytes.now }
{
    bytes.iter().all(|byte| is_path_byte(*byte))
}

fn is_path_byte(byte: u8) -> bool
    ensures { result ≡ is_path_byte byte }
{
    matches!(byte, b'A'..=b'Z' | b'a'..=b'z' | b'0'..=b'9' | b'_' | b'-' | b'.' | b'/')
}

/// Returns the index, from 0, of the first file whose path is rejected: it is invalid, or an earlier file has it. It
/// takes time in proportion to the bytes of the paths and the square of the number of files.
pub fn first_rejected(files: &[Named]) -> Option<usize>
    ensures first { IfSome result (IsFirstRejected (files_of files.now)) }
    ensures none { IfNone result (HaveValidPaths (files_of files.now)) }
{
    for (i, file) in files.iter().enumerate() {
        if !is_path(file.path) || has_path(&files[..i], file.path) {
            return Some(i);
        }
    }
    None
}

fn has_path(files: &[Named], path: &[u8]) -> bool
    ensures { result ≡ list_any (λ f. bytes_eq f.path.now path.now) files.now }
{
    files.iter().any(|file| file.path == path)
}
