//! Why the reading of an input stops.

ghost use Rattle.std.specs.Prelude.{◌≡◌, ◌≢◌};
ghost use Rattle.frame_view.specs.Faults.{OnFault};

use mrpc_table::Memory;

/// Why the reading of an input stops.
#[derive(Drop, Clone, Copy)]
pub enum ReadFault {
    /// The input has a fault at `place`: a line of the text, from 1, or an offset in the stream, from 0.
    /// `word` is the word of its reason.
    At { place: u64, word: &'static str },
    /// Out of memory.
    Memory,
}

impl ReadFault {
    // A fault at a line or an offset.
    pub(crate) fn at(place: u64, word: &'static str) -> ReadFault
        ensures is { OnFault (λ p w. (p ≡ place) × (w ≡ word.now)) result }
        ensures not_memory { result ≢ ReadFault.Memory }
    {
        ReadFault::At { place, word }
    }
}

impl From<Memory> for ReadFault {
    ghost use Rattle.std.specs.Prelude.{◌≡◌};
    ghost use Rattle.frame_view.specs.declared.fault.ReadFault.TheVariants.{Memory as NoMemory};

    ghost from_gives = { λ _ fault. fault ≡ NoMemory };

    fn from(_: Memory) -> ReadFault {
        ReadFault::Memory
    }
}
