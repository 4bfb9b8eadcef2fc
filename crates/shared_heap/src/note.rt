//! Notes of the stores that a writer had made.

ghost use Rattle.std.specs.Prelude.{◌≡◌, length};

use crate::view::HeapView;
use atomic_table::Seat;
use std::marker::Model;

/// The stores that a writer had made when it made the note, for a reader to learn. It has no lifetime and may go to
/// any thread. Contracts see it as a `Noting`: its heap, the stores that it knows, and whether no more stores will
/// follow.
pub struct Note {
    pub(crate) seat: Seat<(), HeapView>,
    pub(crate) stores: u64,
}

// Written by hand, so that a drop is one call instead of one for each field.
impl Drop for Note {
    fn drop(self) {
        let Note {
            seat: _seat,
            stores: _,
        } = self;
    }
}

impl Model for Note {
    ghost use Rattle.shared_heap.specs.Fresh.{Noting};

    ghost Value = { Noting };

    ghost use Rattle.shared_heap.specs.Reading.{IsNote};

    ghost view = { λ n. record { heap = n.seat.table_id; stores = n.seat.me.0.known; last = n.seat.me.0.last } };

    ghost invariant = { λ n. IsNote n.stores n.seat.me };
}

impl Note {
    /// The number of stores that it knows.
    pub fn stores(&self) -> u64
        ensures { result ≡ length self.now.stores }
    {
        self.stores
    }
}
