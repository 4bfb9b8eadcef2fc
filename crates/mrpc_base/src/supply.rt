//! Bytes that are given in order, a piece at a time.

ghost use Rattle.std.specs.Prelude.{◌≡◌, ◌≤◌, [], ◌++◌, length, take, drop};

use std::marker::Model;

#[derive(Drop)]
pub(crate) struct Supply {
    bytes: Vec<u8>,
    // How many bytes were given. Giving bytes moves none of those that remain.
    given: usize,
}

impl Model for Supply {
    ghost use Rattle.std.specs.Prelude.{◌≤◌, drop, length, take};
    ghost use Rattle.mrpc_base.specs.Supply.{SupplyState};

    ghost Value = { SupplyState };

    ghost view = { λ s. record { given = take s.given s.bytes.items; left = drop s.given s.bytes.items } };

    ghost invariant = { λ s. s.given ≤ length s.bytes.items };
}

impl Supply {
    // No bytes were given yet.
    pub(crate) fn new(bytes: Vec<u8>) -> Self
        ensures given { result.given ≡ [] }
        ensures left { result.left ≡ bytes.items }
    {
        Supply { bytes, given: 0 }
    }

    pub(crate) fn left(&self) -> &[u8]
        ensures { result.now ≡ self.now.left }
    {
        &self.bytes[self.given..]
    }

    // Copies the next `count` bytes to the start of `buf`.
    pub(crate) fn give(&mut self, buf: &mut [u8], count: usize)
        requires room { count ≤ length buf.old }
        requires enough { count ≤ length self.old.left }
        ensures copied { buf.new ≡ take count self.old.left ++ drop count buf.old }
        ensures given { self.new.given ≡ self.old.given ++ take count self.old.left }
        ensures left { self.new.left ≡ drop count self.old.left }
    {
        let end = self.given + count;
        buf[..count].copy_from_slice(&self.bytes[self.given..end]);
        self.given = end;
    }
}
