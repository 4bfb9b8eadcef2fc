//! The reasons of faults in lines.

ghost use Rattle.std.specs.Prelude.{◌≡◌};
ghost use Rattle.scenario_lines.specs.Reasons.{line_reason_rank};

/// The reason of a fault in a line. Of several reasons, the first one of this list counts.
#[derive(Clone, Copy)]
pub enum LineReason {
    /// A number out of range, or a program with too many stores or lines.
    Number,
    /// A word that isn't a name of at most 64 bytes, where a name is required.
    Name,
    /// A line of no form, a word that doesn't have the form of its sort, or a server's program whose only reply isn't
    /// its last line.
    Word,
    /// A place outside the application's heap.
    Place,
}

impl LineReason {
    /// Its rank: of two reasons the one with the lower number counts.
    pub fn order(self) -> u8
        ensures { result ≡ line_reason_rank self }
    {
        self as u8
    }
}
