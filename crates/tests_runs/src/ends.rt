//! The ends of links that a fabric opened.
ghost use Rattle.std.specs.Prelude.{◌≡◌, ◌<◌, ◌+◌, ◌∷◌, IsPermutation};

use std::alloc::Global;
use std::process::Abort;

// The ends that were returned to a fabric, each with its connection, and the number of opened ends that were
// not.
#[derive(Drop)]
pub(crate) struct ReturnedEnds<L> {
    pub back: Vec<(u32, L)>,
    pub away: u64,
}

impl<L> ReturnedEnds<L> {
    pub(crate) fn new(alloc: Global) -> ReturnedEnds<L> {
        ReturnedEnds {
            back: Vec::new(alloc),
            away: 0,
        }
    }

    // Counts two ends that were opened.
    pub(crate) fn count_pair(&mut self, rt: &impl Abort)
        ensures away { self.new.away ≡ self.old.away + 2 }
        ensures back { self.new.back ≡ self.old.back }
    {
        self.away = self.away.checked_add(2).expect(rt, "few links");
    }
}

impl<L: Drop> ReturnedEnds<L> {
    // Takes back an end.
    pub(crate) fn keep(&mut self, rt: &impl Abort, conn: u32, end: L)
        requires opened { 0 < self.old.away }
        ensures back { IsPermutation self.new.back.items ((conn, end) ∷ self.old.back.items) }
        ensures away { self.new.away + 1 ≡ self.old.away }
    {
        self.back.push((conn, end)).expect(rt, "memory");
        self.away -= 1;
    }
}
