//! A link and a heap that run out of memory.

use mrpc_base::{Came, Handed, Link, PlainWords, Room, Words};

// A link that is out of memory for each frame.
#[derive(Drop)]
pub(crate) struct NoFrames;

impl Link for NoFrames {
    ghost use Rattle.std.specs.Prelude.{[], None, false, ⊤};

    ghost handed = { λ _. [] };

    ghost given = { λ _. None };

    ghost ended = { λ _. false };

    ghost nothing_ready = { λ _ _. ⊤ };

    ghost peer_finished = { λ _ _. ⊤ };

    ghost failures = { λ _. 0 };

    ghost since = { λ _ _. ⊤ };

    ghost itself = { λ _. tt };

    // It never fails.
    ghost refused = { λ _ _ _. ⊤ };

    fn send(&mut self, _frame: &[u8]) -> Handed {
        Handed::Memory
    }

    fn receive(&mut self, _buf: &mut [u8]) -> Came {
        Came::Memory
    }

    fn finish(&mut self) {}
}

// A heap whose reader is out of memory for more loads than it has room for.
#[derive(Drop)]
pub(crate) struct NoLoads {
    pub heap: PlainWords,
}

impl Words for NoLoads {
    ghost use Rattle.std.specs.Prelude.{Some, ⊤};

    ghost size = { λ n. n.heap.size };

    ghost loads = { λ n. n.heap.loads };

    ghost stores = { λ n. Some n.heap.stores };

    ghost room = { λ n. n.heap.load_room };

    ghost after_room = { λ _ _. ⊤ };

    ghost after_load = { λ _ _ _ _. ⊤ };

    fn words(&self) -> u64 {
        self.heap.words()
    }

    fn room_loads(&mut self, _n: u64) -> Room {
        Room::Memory
    }

    fn load(&mut self, place: u64) -> u64 {
        self.heap.load(place)
    }
}
