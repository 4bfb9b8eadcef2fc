//! The writing end of a heap.

ghost use Rattle.std.specs.Prelude.{◌≡◌, ◌<◌, ◌≤◌, ◌+◌, ◌^◌, true, false, [], ◌∷◌, ◌++◌, length};

use crate::note::Note;
use crate::view::{Ending, HeapView, Knowing, Store, Table};
use atomic_table::Seat;
use mrpc_base::{Room, Stores};
use std::alloc::Global;
use std::marker::Model;
use std::sync::Arc;

/// The writing end of a heap. Its calls never block or allocate. Contracts see it as a `Writing`: its heap, and all
/// stores so far.
pub struct Writer {
    pub(crate) words: Arc<Table, Global>,
    pub(crate) seat: Seat<(), HeapView>,
    pub(crate) made: u64,
}

// Written by hand, so that a drop is one call instead of one for each field.
impl Drop for Writer {
    fn drop(self) {
        let Writer {
            words: _words,
            seat: _seat,
            made: _,
        } = self;
    }
}

impl Model for Writer {
    ghost use Rattle.std.specs.Arc.{arc_value};
    ghost use Rattle.shared_heap.specs.Fresh.{Writing};

    ghost Value = { Writing };

    ghost use Rattle.shared_heap.specs.Reading.{IsWriting};

    ghost view = { λ w. record { heap = w.seat.table_id; stores = w.seat.me.0.known } };

    ghost invariant = { λ w. IsWriting w.seat.table_id (arc_value w.words).shared.table_id
        (arc_value w.words).shared.key w.made w.seat.me };
}

impl Stores for Writer {
    ghost use Rattle.std.specs.Prelude.{◌-◌, ◌^◌};
    ghost use Rattle.shared_heap.specs.Fresh.{IsLaterWriter};

    ghost words = { λ w. w.heap.words };

    ghost stores = { λ w. w.stores };

    ghost room = { λ _. 2 ^ 64 - 1 };

    ghost since = { IsLaterWriter };

    fn size(&self) -> u64
        ensures { result ≡ self.now.heap.words }
    {
        self.words.word_count() as u64
    }

    fn made(&self) -> u64
        ensures { result ≡ length self.now.stores }
    {
        self.made
    }

    /// There is always room: the list of stores exists for contracts alone.
    fn room_stores(&mut self, n: u64) -> Room
        ensures made { result ≡ Room.Made }
        ensures enough { n ≤ 2 ^ 64 - 1 }
        ensures same { self.new ≡ self.old }
    {
        let _ = n;
        Room::Made
    }

    /// Stores `value` at `place`, counted from 0. Place 0 is never stored. Never blocks or allocates.
    fn store(&mut self, place: u64, value: u64)
        requires not_first { 1 ≤ place }
        requires in_heap { place < self.old.heap.words }
        requires few { length self.old.stores < 2 ^ 63 }

        ensures stored { self.new.stores ≡ self.old.stores ++ (place, value) ∷ [] }
        ensures heap { self.new.heap ≡ self.old.heap }
    {
        let words = &self.words.shared;
        words.store::<Store>(&mut self.seat, place as usize, value);
        self.made += 1;
    }
}

impl Writer {
    /// The number of stores so far.
    pub fn stores(&self) -> u64
        ensures { result ≡ length self.now.stores }
    {
        self.made
    }

    /// A note that knows all stores so far. Never blocks or allocates.
    pub fn note(&mut self) -> Note
        ensures stores { result.stores ≡ self.old.stores }
        ensures heap { result.heap ≡ self.old.heap }
        ensures more_may_come { result.last ≡ false }
        ensures same { self.new ≡ self.old }
    {
        let seat = self.words.shared.split_seat::<Knowing>(&mut self.seat);
        Note {
            seat,
            stores: self.made,
        }
    }

    /// The last note: it knows all stores that will ever be made. Never blocks or allocates.
    pub fn finish(self) -> Note
        ensures stores { result.stores ≡ self.stores }
        ensures heap { result.heap ≡ self.heap }
        ensures last { result.last ≡ true }
    {
        let Writer {
            words,
            mut seat,
            made,
        } = self;
        let last = words.shared.split_seat::<Ending>(&mut seat);
        Note {
            seat: last,
            stores: made,
        }
    }
}
