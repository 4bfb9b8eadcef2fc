//! The reading end of a heap.

ghost use Rattle.std.specs.Prelude.{◌≡◌, ◌<◌, ◌≤◌, ℕ, List, [], ◌∷◌, ◌++◌, length, take, drop, ◌||◌, IsTrue};
ghost use Rattle.mrpc_base.specs.Heap.{word_after};
ghost use Rattle.shared_heap.specs.Fresh.{IsPrefix, CallLoads, AreLoadsMade, AreFresh, HasNoStoreTo, load_of, AfterLoad};

use crate::note::Note;
use crate::view::{HeapView, Knowing, LoadOne, Settle, Table};
use atomic_table::Seat;
use mrpc_base::{Room, Words};
use std::alloc::Global;
use std::marker::Model;
use std::sync::Arc;

/// The reading end of a heap. Its calls never block or allocate. Contracts see it as a `Reading`: its heap, the
/// stores that it knows, whether no more stores will follow, and all loads so far.
pub struct Reader {
    pub(crate) words: Arc<Table, Global>,
    pub(crate) seat: Seat<(), HeapView>,
}

// Written by hand, so that a drop is one call instead of one for each field.
impl Drop for Reader {
    fn drop(self) {
        let Reader {
            words: _words,
            seat: _seat,
        } = self;
    }
}

impl Model for Reader {
    ghost use Rattle.std.specs.Arc.{arc_value};
    ghost use Rattle.shared_heap.specs.Fresh.{Reading};

    ghost Value = { Reading };

    ghost use Rattle.shared_heap.specs.Reading.{IsReading};

    ghost view = { λ r. record {
      heap = r.seat.table_id;
      known = r.seat.me.0.known;
      whole = r.seat.me.0.last;
      loads = r.seat.me.0.loads;
    } };

    ghost invariant = { λ r. IsReading r.seat.table_id (arc_value r.words).shared.table_id
        (arc_value r.words).shared.key r.seat.me };
}

impl Words for Reader {
    ghost use Rattle.std.specs.Prelude.{◌-◌, ◌^◌, Some, map};
    ghost use Rattle.shared_heap.specs.Fresh.{word_of_load};

    ghost size = { λ r. r.heap.words };

    ghost loads = { λ r. map word_of_load r.loads };

    ghost stores = { λ r. Some r.known };

    ghost room = { λ _. 2 ^ 64 - 1 };

    ghost use Rattle.std.specs.Prelude.{◌≡◌};
    ghost use Rattle.shared_heap.specs.Fresh.{AfterLoad};

    ghost after_room = { λ old new. new ≡ old };

    ghost after_load = { AfterLoad };

    fn words(&self) -> u64
        ensures { result ≡ self.now.heap.words }
    {
        self.words.word_count() as u64
    }

    /// There is always room: the loads exist for contracts alone.
    fn room_loads(&mut self, n: u64) -> Room
        ensures made { result ≡ Room.Made }
        ensures enough { n ≤ 2 ^ 64 - 1 }
        ensures same { self.new ≡ self.old }
        ensures changes { self.new ≡ self.old }
    {
        let _ = n;
        Room::Made
    }

    /// Loads the word at `place`, counted from 0. Never blocks.
    fn load(&mut self, place: u64) -> u64
        requires in_heap { place < self.old.heap.words }

        ensures loaded { self.new.loads ≡ self.old.loads ++ load_of place result (length self.old.known) ∷ [] }
        // The reader then knows all stores made before the load, and the value is that of the word after them.
        ensures grows { IsPrefix self.new.known self.old.known }
        ensures last { result ≡ word_after self.new.known place }
        // `after` is a number of first stores, all of which the reader knew before the load. If no later store goes
        // to the word, the result is the word after these first ones. `all` is any list of stores that extends what
        // the reader knows after the load.
        ensures untouched { (all : List (ℕ × ℕ)) (after : ℕ) → IsPrefix all self.new.known
            → after ≤ length self.old.known → HasNoStoreTo place (drop after all)
            → result ≡ word_after (take after all) place }

        ensures heap { self.new.heap ≡ self.old.heap }
        ensures whole { self.new.whole ≡ self.old.whole }
        ensures none_left { IsTrue self.old.whole → self.new.known ≡ self.old.known }
        ensures changes { AfterLoad self.old place result self.new }
    {
        let words = &self.words.shared;
        words.load::<LoadOne>(&mut self.seat, place as usize)
    }
}

impl Reader {
    /// Learns what a note of the same heap knows. Never blocks or allocates.
    pub fn meet(&mut self, mut note: Note)
        requires { note.heap ≡ self.old.heap }

        ensures told { IsPrefix self.new.known note.stores }
        ensures grows { IsPrefix self.new.known self.old.known }
        ensures last { IsTrue note.last → self.new.known ≡ note.stores }
        ensures none_left { IsTrue self.old.whole → self.new.known ≡ self.old.known }
        ensures whole { self.new.whole ≡ (self.old.whole || note.last) }
        ensures loads { self.new.loads ≡ self.old.loads }
        ensures heap { self.new.heap ≡ self.old.heap }
    {
        self.observe(&mut note);
    }

    /// Like `meet`, but keeps the note. Never blocks or allocates.
    pub fn observe(&mut self, note: &mut Note)
        requires { note.old.heap ≡ self.old.heap }

        ensures told { IsPrefix self.new.known note.old.stores }
        ensures grows { IsPrefix self.new.known self.old.known }
        ensures last { IsTrue note.old.last → self.new.known ≡ note.old.stores }
        ensures none_left { IsTrue self.old.whole → self.new.known ≡ self.old.known }
        ensures whole { self.new.whole ≡ (self.old.whole || note.old.last) }
        ensures loads { self.new.loads ≡ self.old.loads }
        ensures heap { self.new.heap ≡ self.old.heap }
        ensures note { note.new ≡ note.old }
    {
        let words = &self.words.shared;
        let theirs = words.split_seat::<Knowing>(&mut note.seat);
        words.join_seat::<Knowing>(&mut self.seat, theirs);
        // The join keeps the note's stores apart from the known ones; this load merges both lists.
        words.load::<Settle>(&mut self.seat, 0);
    }

    /// The law of loads. They are fresh for the stores that the reader knows, as the loads of any calls that are each
    /// after no more stores than the reader knew. Once the writer's last note was met, these are all stores that will
    /// ever be made.
    pub fn loads_are_fresh(&self)
        ensures { (calls : List CallLoads) → AreLoadsMade calls self.now.loads → AreFresh calls self.now.known }
    {
        let _ = &self.seat;
    }
}
