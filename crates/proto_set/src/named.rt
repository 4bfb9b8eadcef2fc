//! A file of a set, borrowed from the input.

/// A file of a set: its path and its bytes, borrowed from the input.
#[derive(Clone, Copy)]
pub struct Named<'a> {
    /// The path, of any form: [`first_rejected`](crate::first_refused) checks it.
    pub path: &'a [u8],
    /// The bytes of the file.
    pub text: &'a [u8],
}
