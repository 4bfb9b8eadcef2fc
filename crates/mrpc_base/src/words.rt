//! The words of a heap, as its reader uses them.

ghost use Rattle.std.specs.Prelude.{◌≡◌, ◌<◌, ◌≤◌, ◌+◌, List, [], ◌∷◌, ◌++◌, ℕ, Option, IfSome};
ghost use Rattle.mrpc_base.specs.Heap.{IsExtendedTo, word_after};

/// The result of making room.
#[derive(Clone, Copy, PartialEq, Eq)]
pub enum Room {
    /// There is as much room as requested.
    Made,
    /// Out of memory.
    Memory,
}

/// The words of a heap, as one reader loads them while others may store.
pub trait Words {
    /// How many words the heap has.
    ghost size: { Self → ℕ };

    /// Every load so far, each a place and a value, in order.
    ghost loads: { Self → List (ℕ × ℕ) };

    /// Every store so far, each a place and a value, in order; `None` if unknown.
    ghost stores: { Self → Option (List (ℕ × ℕ)) };

    /// For how many loads there is room.
    ghost room: { Self → ℕ };

    /// What making room for loads may change.
    ghost after_room: { Self → Self → Type 0 };

    /// What a load of a value from a place changes.
    ghost after_load: { Self → ℕ → ℕ → Self → Type 0 };

    /// How many words the heap has.
    fn words(&self) -> u64
        ensures { result ≡ size self.now };

    /// Makes room for `n` loads.
    fn room_loads(&mut self, n: u64) -> Room
        ensures made { result ≡ Room.Made → n ≤ room self.new }
        ensures memory { result ≡ Room.Memory → self.new ≡ self.old }
        ensures never_falls { room self.old ≤ room self.new }

        ensures size { size self.new ≡ size self.old }
        ensures loads { loads self.new ≡ loads self.old }
        ensures stores { stores self.new ≡ stores self.old }
        ensures changes { after_room self.old self.new };

    /// Loads the word at `place`, counted from 0. It allocates nothing.
    fn load(&mut self, place: u64) -> u64
        requires in_heap { place < size self.old }
        requires room { 0 < room self.old }

        ensures loaded { loads self.new ≡ loads self.old ++ (place, result) ∷ [] }
        ensures lowered { room self.old ≤ room self.new + 1 }
        ensures size { size self.new ≡ size self.old }

        // Others may store before the load, and the word reflects all the stores before it.
        ensures grows { IsExtendedTo (stores self.old) (stores self.new) }
        ensures last { IfSome (stores self.new) (λ all. result ≡ word_after all place) }
        ensures changes { after_load self.old place result self.new };
}
