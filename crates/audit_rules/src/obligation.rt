//! Obligations after an event.

// The obligation that the last event leaves, apart from the refusals of a failed link.
#[derive(Drop)]
pub(crate) enum Obligation {
    Nothing,
    // A malformed call awaits its refusal.
    RefuseMalformed {
        seq: u32,
    },
    // A call whose ticket isn't below the cap awaits its refusal by the entry at a position.
    RefuseOverCap {
        seq: u32,
        at: usize,
        ticket: u64,
        cap: u64,
    },
}
