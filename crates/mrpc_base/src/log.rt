//! The loads or stores made so far. Only contracts read the list itself, which takes no memory; code has its length.

ghost use Rattle.std.specs.Prelude.{◌≡◌, ◌<◌, ◌-◌, ◌^◌, List, [], ◌∷◌, ◌++◌, ℕ, length};
ghost use Rattle.std.specs.Borrow.{ftrue};

use std::marker::Model;

// A load or a store of a value at a place.
#[derive(Clone, Copy)]
pub(crate) struct HeapAccess {
    pub place: u64,
    pub value: u64,
}

// The place and the value of each access, in order.
#[derive(Drop)]
pub(crate) struct AccessList {
    pub ghost list: { List (ℕ × ℕ) },
}

impl Model for AccessList {
    ghost also_owns = { λ _. ftrue };
}

impl AccessList {
    // The empty list.
    pub(crate) fn new() -> AccessList
        ensures { result.list ≡ [] }
    {
        AccessList {}
    }

    // The list with one more access.
    pub(crate) fn with_one_more(_before: &AccessList, _access: &HeapAccess) -> AccessList
        ensures { result.list ≡ _before.now.list ++ (_access.now.place, _access.now.value) ∷ [] }
    {
        AccessList {}
    }
}

// The loads, or the stores, so far, with their number.
#[derive(Drop)]
pub(crate) struct Log {
    accesses: AccessList,
    made: u64,
}

impl Model for Log {
    ghost Value = { List (ℕ × ℕ) };

    ghost view = { λ log. log.accesses.list };

    ghost invariant = { λ log. log.made ≡ length log.accesses.list };
}

impl Log {
    // The empty log.
    pub(crate) fn new() -> Log
        ensures { result ≡ [] }
    {
        Log {
            accesses: AccessList::new(),
            made: 0,
        }
    }

    pub(crate) fn len(&self) -> u64
        ensures { result ≡ length self.now }
    {
        self.made
    }

    pub(crate) fn append(&mut self, place: u64, value: u64)
        requires { length self.old < 2 ^ 64 - 1 }
        ensures { self.new ≡ self.old ++ (place, value) ∷ [] }
    {
        self.accesses = AccessList::with_one_more(&self.accesses, &HeapAccess { place, value });
        self.made += 1;
    }
}
