//! Why a graph is malformed.

/// Why a graph is malformed. Most reasons are about the last word that was loaded.
#[derive(Clone, Copy, PartialEq, Eq)]
pub enum Reason {
    /// An address whose span isn't inside the heap.
    Address,
    /// A presence word that is neither 0 nor 1.
    Presence,
    /// A case word that is neither 0 nor the number of a member.
    Case,
    /// A length or a count whose span needs at least as many words as the heap has.
    Length,
    /// A string whose bytes aren't UTF-8, reported at its last word.
    Utf8,
    /// A word that isn't a word form of its kind, or a run with a padding byte that isn't 0.
    Narrow,
    /// The address of a message at depth 33.
    Depth,
    /// One more load is needed, and the limit is reached.
    Loads,
    /// The table has no such method.
    NoMethod,
}

impl Reason {
    ghost use Rattle.std.specs.Prelude.{◌≡◌};
    ghost use Rattle.graph_form.specs.Words.{graph_reason_word};

    /// The reason as a word of a line that the program prints.
    pub fn word(self) -> &'static str
        ensures { result.now ≡ graph_reason_word self }
    {
        match self {
            Reason::Address => "Address",
            Reason::Presence => "Presence",
            Reason::Case => "Case",
            Reason::Length => "Length",
            Reason::Utf8 => "Utf8",
            Reason::Narrow => "Narrow",
            Reason::Depth => "Depth",
            Reason::Loads => "Loads",
            Reason::NoMethod => "NoMethod",
        }
    }
}
