//! A ghost list of bytes.

ghost use Rattle.std.specs.Prelude.{◌≡◌, List, [], ◌++◌, ℕ};
ghost use Rattle.std.specs.Borrow.{ftrue};

use std::marker::Model;

/// A list of bytes that only contracts read; it needs no memory at run time.
#[derive(Drop)]
pub struct ByteTrace {
    pub ghost bytes: { List ℕ },
}

impl Model for ByteTrace {
    ghost also_owns = { λ _. ftrue };
}

// It owns nothing.
unsafe impl Send for ByteTrace {}

impl ByteTrace {
    /// The empty list.
    pub fn new() -> ByteTrace
        ensures { result.bytes ≡ [] }
    {
        ByteTrace {}
    }

    /// The list with more bytes appended.
    pub fn with(_before: &ByteTrace, _more: &[u8]) -> ByteTrace
        ensures { result.bytes ≡ _before.now.bytes ++ _more.now }
    {
        ByteTrace {}
    }
}
