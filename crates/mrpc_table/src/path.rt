//! A path, as a word spells it and as it leads into a message.

ghost use Rattle.std.specs.Prelude.{◌≡◌, IfOk};

use crate::memory::Memory;
use crate::sequence::Sequence;
use crate::table::{Kind, Label};
use crate::words::Decimal;
use std::alloc::Global;

/// A path into a tree, and the field at its end.
pub struct Path {
    /// The numbers of the messages along the path, the outermost first, 31 at most.
    pub way: Sequence<u32>,
    /// The number of the field at the end.
    pub number: u32,
    /// The kind of that field.
    pub kind: Kind,
    /// The label of that field.
    pub label: Label,
}

// Written by hand, so that a drop is one call, and not a drop of each part.
impl Drop for Path {
    fn drop(self) {
        let Path {
            way: _way,
            number: _,
            kind: _,
            label: _,
        } = self;
    }
}

/// Field numbers joined by dots, as a word spells them: 1 to 32 numbers of any size.
pub struct PathWord {
    /// All numbers but the last, in order.
    pub way: Sequence<Decimal>,
    /// The last number.
    pub last: Decimal,
}

// Written by hand, so that a drop is one call, and not a drop of each part.
impl Drop for PathWord {
    fn drop(self) {
        let PathWord { way: _way, last: _ } = self;
    }
}

impl Path {
    /// An equal path.
    pub fn copied(&self, alloc: Global) -> Result<Path, Memory>
        ensures { IfOk result (λ r. r ≡ self.now) }
    {
        let way = Vec::from_slice(alloc, self.way.as_slice())?;
        Ok(Path {
            way: Sequence::from_vec(way),
            number: self.number,
            kind: self.kind,
            label: self.label,
        })
    }
}
