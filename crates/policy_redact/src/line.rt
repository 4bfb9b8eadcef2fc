//! The content of a policy's line, by its form alone.

use mrpc_table::{CallKind, Decimal, PathWord};

// `clear method INDEX [reply] PATH`
pub(crate) struct ClearLine {
    pub index: Decimal,
    pub sort: CallKind,
    pub path: PathWord,
}

// Written by hand, so that a drop is one call instead of one for each field.
impl Drop for ClearLine {
    fn drop(self) {
        let ClearLine {
            index: _,
            sort: _,
            path: _path,
        } = self;
    }
}
