//! The positions of the calls of a row: nine cuts instead of a queue for each engine.

ghost use Rattle.std.specs.Prelude.{◌≡◌, ◌-◌, ◌<◌, ◌≤◌, length, max, min, replicate, slice_index};
ghost use Rattle.chain_upgrade.specs.Cuts.{position_at, zeroed, closed_up, raised_at, taken_out, lowered};

use engine_core::MAX_ENGINES;

// The cuts of positions 1 to 8: the number of calls of the row at a position or a later one. They never rise along
// the chain.
#[derive(Clone, Copy)]
pub(crate) struct Cuts {
    pub behind: [u32; MAX_ENGINES],
}

impl Cuts {
    // All calls are at position 0.
    pub(crate) fn new() -> Cuts
        ensures { result.behind ≡ replicate 8 0 }
    {
        Cuts {
            behind: [0; MAX_ENGINES],
        }
    }

    // The position of the call at an index.
    pub(crate) fn position(&self, place: u32) -> u32
        ensures { result ≡ position_at place self.now.behind }
    {
        let mut position = 0;
        for cut in &self.behind {
            if *cut <= place {
                return position;
            }
            position += 1;
        }
        position
    }

    // All calls past a position return to it.
    pub(crate) fn zero_after(&mut self, at: usize)
        requires { at ≤ 8 }
        ensures { self.new.behind ≡ zeroed at self.old.behind }
    {
        self.behind[at..].fill(0);
    }

    // The engine at a position is detached: calls past it move up by one.
    pub(crate) fn close_up(&mut self, at: usize)
        requires { at < 8 }
        ensures { self.new.behind ≡ closed_up at self.old.behind }
    {
        self.behind[at..].rotate_left(1);
        self.behind[MAX_ENGINES - 1] = 0;
    }

    // The first call at a position advances.
    pub(crate) fn raise(&mut self, at: usize)
        requires at { at < 8 }
        requires room { slice_index self.old.behind at < 64 }
        ensures raised { self.new.behind ≡ raised_at at self.old.behind }
        ensures within { at < length self.old.behind }
    {
        self.behind[at] += 1;
    }

    // The call at an index leaves the row.
    pub(crate) fn remove_call(&mut self, place: u32)
        ensures { self.new.behind ≡ taken_out place self.old.behind }
    {
        for cut in self.behind.iter_mut() {
            *cut = without(*cut, place);
        }
    }

    // The call at an index and those after it start over.
    pub(crate) fn lower_to(&mut self, place: u32)
        ensures { self.new.behind ≡ lowered place self.old.behind }
    {
        self.behind = self.behind.map(|cut| cut.min(place));
    }
}

// How many of the first `cut` calls of a row remain, without the call at an index.
pub(crate) fn without(cut: u32, place: u32) -> u32
    ensures { result ≡ max (min cut place) (cut - 1) }
{
    if cut > place { cut - 1 } else { cut }
}
