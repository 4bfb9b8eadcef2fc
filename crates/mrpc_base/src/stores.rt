//! The words of a heap, as its writer uses them.

ghost use Rattle.std.specs.Prelude.{◌≡◌, ◌<◌, ◌≤◌, ◌+◌, ◌^◌, List, [], ◌∷◌, ◌++◌, ℕ, length};

use crate::Room;

/// The words of a heap, as its single writer stores them.
pub trait Stores {
    /// How many words the heap has.
    ghost words: { Self → ℕ };

    /// Every store so far, each a place and a value, in order.
    ghost stores: { Self → List (ℕ × ℕ) };

    /// For how many stores there is room.
    ghost room: { Self → ℕ };

    /// `since first later`: `later` is a later state of the heap `first`. Every call preserves it.
    ghost since: { Self → Self → Type 0 };

    /// How many words the heap has.
    fn size(&self) -> u64
        ensures { result ≡ words self.now };

    /// How many stores there were.
    fn made(&self) -> u64
        ensures { result ≡ length (stores self.now) };

    /// Makes room for `n` stores.
    fn room_stores(&mut self, n: u64) -> Room
        ensures made { result ≡ Room.Made → n ≤ room self.new }
        ensures memory { result ≡ Room.Memory → room self.new ≡ room self.old }
        ensures never_falls { room self.old ≤ room self.new }

        ensures words { words self.new ≡ words self.old }
        ensures stores { stores self.new ≡ stores self.old }
        ensures same_heap { (first : Self) → since first self.old → since first self.new };

    /// Stores `value` at `place`, counted from 0. Place 0 is never stored. It allocates nothing.
    fn store(&mut self, place: u64, value: u64)
        requires not_first { 1 ≤ place }
        requires in_heap { place < words self.old }
        requires few { length (stores self.old) < 2 ^ 63 }
        requires room { 0 < room self.old }

        ensures stored { stores self.new ≡ stores self.old ++ (place, value) ∷ [] }
        ensures lowered { room self.old ≤ room self.new + 1 }
        ensures words { words self.new ≡ words self.old }
        ensures same_heap { (first : Self) → since first self.old → since first self.new };
}
